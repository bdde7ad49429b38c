// How wide rows are: the spans of their cells, and the limit of a chip's width.
ghost use Rattle.std.specs.Prelude.{◌≡◌, ◌*◌, ◌<◌, ◌^◌, length, nat_lt};
ghost use Rattle.rowed.specs.Slots.{span_of};
ghost use Rattle.rowed.specs.Extent.{packed_span};
ghost use Rattle.rowed.specs.Limits.{width_limit};

use crate::RowCell;
use crate::limits::WIDTH_LIMIT;

/// The span of a row whose cells are packed without gaps.
pub(crate) fn packed_span(cells: &[RowCell]) -> u64
    requires { length cells.now < 2 ^ 32 }
    ensures { result ≡ packed_span cells.now }
{
    let mut span: u64 = 0;
    for cell in cells {
        span += u64::from(cell.kind.slots());
    }
    span
}

/// The span of a row whose cells have these slots.
pub(crate) fn span_of(cells: &[RowCell], slots: &[u32]) -> u64
    requires { length slots.now ≡ length cells.now }
    ensures { result ≡ span_of cells.now slots.now }
{
    let mut span: u64 = 0;
    for number in 0..cells.len() {
        let end = u64::from(slots[number]) + u64::from(cells[number].kind.slots());
        span = end.max(span);
    }
    span
}

/// Whether so many slots of this width in nanometres are wider than a row may be.
pub fn is_too_wide(span: u64, slot_width: u64) -> bool
    ensures { result ≡ nat_lt width_limit (span * slot_width) }
{
    u128::from(span) * u128::from(slot_width) > u128::from(WIDTH_LIMIT)
}
