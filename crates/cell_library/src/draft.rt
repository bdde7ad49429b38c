// What a library file says, before its laws are judged.
ghost use Rattle.std.specs.Prelude.{◌≡◌, ◌/◌, ◌-◌, ◌*◌, option_map, length};
ghost use Rattle.cell_library.specs.Library.{LibraryView, pins_of};
ghost use Rattle.cell_library.specs.Reach.{slot_width_of, length_reach_of};
ghost use Rattle.cell_library.specs.Laws.{IsDraft, InRanges};
ghost use Rattle.cell_library.specs.Code.Drafts.{drafted};

use aq_base::List;
use circuit::CellKind;
use std::marker::Model;

/// The columns of a kind's pins, counted from the cell's left edge.
#[derive(Drop)]
pub struct Pins {
    pub inputs: List<u32>,
    pub outputs: List<u32>,
}

/// The ten numbers of a library, in nanometres but for `columns` and `capacity`.
#[derive(Clone, Copy)]
pub struct Numbers {
    pub wire: u64,
    pub space: u64,
    pub via: u64,
    pub enclose: u64,
    pub pin: u64,
    pub height: u64,
    pub pitch: u64,
    pub columns: u64,
    pub capacity: u64,
    pub limit: u64,
}

/// Numbers in their ranges, and a place for the pins of each kind.
#[derive(Drop)]
pub struct Draft {
    numbers: Numbers,
    pins: Vec<Option<Pins>>,
}

impl Model for Draft {
    ghost use Rattle.cell_library.specs.Library.{LibraryView};
    ghost use Rattle.cell_library.specs.Laws.{IsDraft};
    ghost use Rattle.cell_library.specs.Code.Drafts.{drafted};

    ghost Value = { LibraryView };

    ghost view = { λ s. drafted s.numbers s.pins.items };

    ghost invariant = { λ s. IsDraft (drafted s.numbers s.pins.items) };
}

impl Draft {
    /// The draft of these numbers and pins.
    pub fn new(numbers: Numbers, pins: Vec<Option<Pins>>) -> Draft
        requires ranges { InRanges (drafted numbers pins.items) }
        requires kinds { length pins.items ≡ 7 }
        ensures { result ≡ drafted numbers pins.items }
    {
        Draft { numbers, pins }
    }

    /// The numbers of the draft.
    pub fn numbers(&self) -> &Numbers
        ensures draft { IsDraft self.now }
        ensures numbers { self.now ≡ drafted result.now self.now.pins }
    {
        &self.numbers
    }

    /// The pins of a kind, if it is given.
    pub fn pins(&self, kind: CellKind) -> Option<&Pins>
        ensures { option_map (λ pins. pins.now) result ≡ pins_of self.now kind }
    {
        let index = usize::from(kind.number() - 1);
        match self.pins.get(index) {
            Some(Some(pins)) => Some(pins),
            Some(None) | None => None,
        }
    }

    /// How many slots the limit on a wire's length spans, after what each wire needs.
    pub fn length_reach(&self) -> u64
        ensures { result ≡ length_reach_of self.now }
    {
        let numbers = &self.numbers;
        let fixed = (numbers.capacity + 1) * numbers.pitch + 2 * numbers.pin + 2 * numbers.wire;
        numbers.limit.saturating_sub(fixed) / (numbers.columns * numbers.pitch)
    }
}
