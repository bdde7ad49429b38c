// Faults of lines, and which of two is told.
ghost use Rattle.std.specs.Prelude.{◌≡◌};
ghost use Rattle.blif_flat.specs.DesignFaults.{rank};
ghost use Rattle.blif_flat.specs.Code.Joining.{is_before, at_line, least, least_of, where_so};

use crate::design::FlatKind;

/// A fault, with its line.
#[derive(Clone, Copy, PartialEq, Eq)]
pub struct Told {
    pub line: u64,
    pub kind: FlatKind,
}

/// The place of a kind in the order in which faults of one line are told.
fn rank(kind: FlatKind) -> u8
    ensures { result ≡ rank kind }
{
    match kind {
        FlatKind::ModelTwice => 0,
        FlatKind::UnknownModel => 1,
        FlatKind::Ports => 2,
        FlatKind::Duplicate => 3,
        FlatKind::Undefined => 4,
        FlatKind::Recursive => 5,
        FlatKind::NoOutputs => 6,
    }
}

/// The first fault is told before the other, or as well as it.
fn is_before(told: Told, other: Told) -> bool
    ensures { result ≡ is_before told other }
{
    told.line < other.line || (told.line == other.line && rank(told.kind) <= rank(other.kind))
}

/// The fault that is told of this one and of the best so far.
pub fn least(best: Option<Told>, line: u64, kind: FlatKind) -> Option<Told>
    ensures { result ≡ least best (at_line line kind) }
{
    let told = Told { line, kind };
    match best {
        Some(best) if is_before(best, told) => Some(best),
        _ => Some(told),
    }
}

/// The same, where there is this fault if a test says so.
pub fn least_where(is: bool, best: Option<Told>, line: u64, kind: FlatKind) -> Option<Told>
    ensures { result ≡ least_of best (where_so is line kind) }
{
    if is { least(best, line, kind) } else { best }
}
