// Whether two libraries have the same numbers and pins.
ghost use Rattle.std.specs.Prelude.{◌≡◌, ◌↔◌, IsTrue, option_map};
ghost use Rattle.cell_library.specs.Library.{pins_of};

use crate::draft::{Draft, Numbers, Pins};
use crate::kinds::KINDS;
use aq_base::List;
use circuit::CellKind;

fn same_columns(a: &List<u32>, b: &List<u32>) -> bool
    ensures { IsTrue result ↔ (a.now ≡ b.now) }
{
    a.as_slice() == b.as_slice()
}

fn same_sides(a: &Pins, b: &Pins) -> bool
    ensures { IsTrue result ↔ (a.now ≡ b.now) }
{
    same_columns(&a.inputs, &b.inputs) && same_columns(&a.outputs, &b.outputs)
}

fn same_given(a: Option<&Pins>, b: Option<&Pins>) -> bool
    ensures { IsTrue result ↔ (option_map (λ pins. pins.now) a.entry ≡ option_map (λ pins. pins.now) b.entry) }
{
    match (a, b) {
        (None, None) => true,
        (Some(a), Some(b)) => same_sides(a, b),
        _ => false,
    }
}

fn same_kind(a: &Draft, b: &Draft, kind: CellKind) -> bool
    ensures { IsTrue result ↔ (pins_of a.now kind ≡ pins_of b.now kind) }
{
    same_given(a.pins(kind), b.pins(kind))
}

/// Whether the two have the same pins.
#[tactic(auto, using(crate::proofs::Sameness::same_lists))]
pub fn same_pins(a: &Draft, b: &Draft) -> bool
    ensures { IsTrue result ↔ (a.now.pins ≡ b.now.pins) }
{
    let _a = a.numbers();
    let _b = b.numbers();
    for kind in KINDS {
        if !same_kind(a, b, kind) {
            return false;
        }
    }
    true
}

fn same_sizes(a: &Numbers, b: &Numbers) -> bool
    ensures { IsTrue result ↔ ((a.now.wire ≡ b.now.wire) × (a.now.space ≡ b.now.space) × (a.now.via ≡ b.now.via)
        × (a.now.enclose ≡ b.now.enclose) × (a.now.pin ≡ b.now.pin)) }
{
    a.wire == b.wire
        && a.space == b.space
        && a.via == b.via
        && a.enclose == b.enclose
        && a.pin == b.pin
}

/// Whether the two have the same numbers.
pub fn same_numbers(a: &Numbers, b: &Numbers) -> bool
    ensures { IsTrue result ↔ (a.now ≡ b.now) }
{
    same_sizes(a, b)
        && a.height == b.height
        && a.pitch == b.pitch
        && a.columns == b.columns
        && a.capacity == b.capacity
        && a.limit == b.limit
}
