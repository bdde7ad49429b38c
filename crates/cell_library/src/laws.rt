// The laws of a library, and the first that a draft breaks.
ghost use Rattle.std.specs.Prelude.{◌≡◌, [], ◌≤◌, ◌<◌, ◌+◌, ◌*◌, ◌%◌, ◌↔◌, ◌/◌, ◌-◌, ◌^◌};
ghost use Rattle.std.specs.Prelude.{IsTrue, All, IfSome, IsNone, min};
ghost use Rattle.cell_library.specs.Reach.{length_reach_of, slot_width_of};
ghost use Rattle.cell_library.specs.Laws.{Holds, KindKeeps, IsInSlots, law_number, BreaksFirst, IsDraft, sizes_of};
ghost use Rattle.cell_library.specs.declared.laws.Law.{Law};
ghost use Rattle.cell_library.specs.Code.Drafts.{drafted};

use crate::draft::{Draft, Numbers, Pins};
use crate::kinds::KINDS;
use aq_base::List;
use circuit::CellKind;

/// A law on the pins of each kind that is given.
#[derive(Clone, Copy, Debug, PartialEq, Eq)]
pub enum PinLaw {
    /// The kind has as many input and output pins as its function asks for.
    Counts,
    /// Input pin i stands in slot i of the cell.
    InputSlots,
    /// Output pin i stands in slot i of the cell.
    OutputSlots,
    /// Input pins stand in odd columns.
    OddInputs,
    /// Output pins stand in even columns.
    EvenOutputs,
}

/// A law of a library.
#[derive(Clone, Copy, Debug, PartialEq, Eq)]
pub enum Law {
    /// The seven sizes are even, so that centres and half widths are whole numbers.
    EvenSizes,
    /// The columns of a slot are even in number.
    EvenColumns,
    /// A wire encloses a via.
    ViaInWire,
    /// Wires on neighbouring tracks keep their space.
    TracksApart,
    /// The pins at both edges of a cell keep their space.
    PinsApart,
    /// A law on the pins of each kind.
    OfPins(PinLaw),
    /// The limit on a wire's length leaves a reach of two slots.
    Reach,
    /// A pin is as high as a wire is wide.
    WireInPin,
    /// A cell of three slots fits into the coordinates of a layout.
    WidestCell,
    /// A channel has four tracks.
    Capacity,
}

// The laws by rising number.
const LAWS: [Law; 14] = [
    Law::EvenSizes,
    Law::EvenColumns,
    Law::ViaInWire,
    Law::TracksApart,
    Law::PinsApart,
    Law::OfPins(PinLaw::Counts),
    Law::OfPins(PinLaw::InputSlots),
    Law::OfPins(PinLaw::OutputSlots),
    Law::OfPins(PinLaw::OddInputs),
    Law::OfPins(PinLaw::EvenOutputs),
    Law::Reach,
    Law::WireInPin,
    Law::WidestCell,
    Law::Capacity,
];

impl PinLaw {
    // Whether the pins of one kind keep the law.
    fn keeps(self, columns: u64, kind: CellKind, pins: &Pins) -> bool
        requires { columns ≤ 1000 }
        ensures { IsTrue result ↔ KindKeeps self columns kind pins.now }
    {
        match self {
            PinLaw::Counts => {
                pins.inputs.len() == kind.inputs() as usize
                    && pins.outputs.len() == kind.outputs() as usize
            }
            PinLaw::InputSlots => in_slots(columns, &pins.inputs),
            PinLaw::OutputSlots => in_slots(columns, &pins.outputs),
            PinLaw::OddInputs => pins.inputs.as_slice().iter().all(|column| column % 2 == 1),
            PinLaw::EvenOutputs => pins.outputs.as_slice().iter().all(|column| column % 2 == 0),
        }
    }

    // Whether each kind that is given keeps the law.
    fn holds(self, draft: &Draft) -> bool
        ensures { IsTrue result ↔ Holds (Law.OfPins self) draft.now }
    {
        let columns = draft.numbers().columns;
        for kind in KINDS {
            if let Some(pins) = draft.pins(kind) {
                if !self.keeps(columns, kind, pins) {
                    return false;
                }
            }
        }
        true
    }
}

// Whether pin i has a column of slot i.
fn in_slots(columns: u64, pins: &List<u32>) -> bool
    requires { columns ≤ 1000 }
    ensures { IsTrue result ↔ IsInSlots columns pins.now }
{
    let mut first: u64 = 0;
    for column in pins.as_slice() {
        let column = u64::from(*column);
        if column < first || column - first >= columns {
            return false;
        }
        first += columns;
    }
    true
}

// Whether the numbers are even.
fn all_even(numbers: &[u64]) -> bool
    ensures { IsTrue result ↔ All (λ number. number % 2 ≡ 0) numbers.now }
{
    numbers.iter().all(|number| number % 2 == 0)
}

impl Numbers {
    // Whether the seven sizes are even.
    fn sizes_are_even(&self) -> bool
        ensures { IsTrue result ↔ All (λ size. size % 2 ≡ 0) (sizes_of (drafted self.now [])) }
    {
        all_even(&[
            self.wire,
            self.space,
            self.via,
            self.enclose,
            self.pin,
            self.height,
            self.pitch,
        ])
    }
}

impl Law {
    /// The number of the law, from 1 to 14.
    pub fn number(self) -> u32
        ensures { result ≡ law_number self }
    {
        match self {
            Law::EvenSizes => 1,
            Law::EvenColumns => 2,
            Law::ViaInWire => 3,
            Law::TracksApart => 4,
            Law::PinsApart => 5,
            Law::OfPins(PinLaw::Counts) => 6,
            Law::OfPins(PinLaw::InputSlots) => 7,
            Law::OfPins(PinLaw::OutputSlots) => 8,
            Law::OfPins(PinLaw::OddInputs) => 9,
            Law::OfPins(PinLaw::EvenOutputs) => 10,
            Law::Reach => 11,
            Law::WireInPin => 12,
            Law::WidestCell => 13,
            Law::Capacity => 14,
        }
    }

    // Whether the draft keeps the law.
    fn holds(self, draft: &Draft) -> bool
        ensures { IsTrue result ↔ Holds self draft.now }
    {
        let numbers = draft.numbers();
        match self {
            Law::EvenSizes => numbers.sizes_are_even(),
            Law::EvenColumns => numbers.columns % 2 == 0,
            Law::ViaInWire => numbers.via + 2 * numbers.enclose <= numbers.wire,
            Law::TracksApart => numbers.wire + numbers.space <= numbers.pitch,
            Law::PinsApart => 2 * numbers.pin + numbers.space <= numbers.height,
            Law::OfPins(law) => law.holds(draft),
            Law::Reach => draft.length_reach() >= 2,
            Law::WireInPin => numbers.wire <= numbers.pin,
            Law::WidestCell => 3 * numbers.columns * numbers.pitch <= 2_147_483_647,
            Law::Capacity => numbers.capacity >= 4,
        }
    }
}

/// The number of the first law that the draft breaks, if there is one.
pub fn first_broken(draft: &Draft) -> Option<u32>
    ensures broken { IfSome result (BreaksFirst draft.now) }
    ensures lawful { IsNone result → (law : Law) → Holds law draft.now }
{
    for law in LAWS {
        if !law.holds(draft) {
            return Some(law.number());
        }
    }
    None
}
