// How far the odd rows of a chip are to lag, so that it bears a high clock rate.
ghost use Rattle.std.specs.Prelude.{◌≤◌};
ghost use Rattle.rowed.specs.Limits.{width_limit};
ghost use Rattle.layout_make.specs.MayDraw.{MayDraw};
ghost use Rattle.plan_limits.specs.Delayed.{IsDelayed};

use crate::limits::slot_width;
use cell_library::Library;
use layout_make::element_number;
use rowed::limits::{ELEMENT_LIMIT, WIDTH_LIMIT};
use rowed::{Placed, RowCell, Source};

/// The slots of a cell of the widest kind.
const WIDEST_CELL: u64 = 3;

/// How much further the excitation of one line has run at a cell than that of the other line at a cell that feeds it,
/// in slots, at most: where a line turns between the two rows, and where none does.
#[derive(Clone, Copy)]
struct Apart {
    turned: u64,
    along: u64,
}

/// The slot of the cell that a source names, of the row with these slots.
fn slot_of(slots: &[u32], source: &Source) -> u64 {
    match slots.get(source.cell as usize) {
        Some(slot) => u64::from(*slot),
        None => 0,
    }
}

/// The distances with a wire from slot `from` to slot `to` of row `row` too, where the widest row spans `span` slots.
/// Below the third row a line has turned at the right, below the fifth at the left, and so on by fours.
fn with_wire(apart: Apart, row: usize, span: u64, from: u64, to: u64) -> Apart {
    let Apart { turned, along } = apart;
    let sum = from.saturating_add(to);
    match row % 4 {
        0 => Apart {
            turned: turned.max(sum.saturating_add(2 * WIDEST_CELL)),
            along,
        },
        2 => Apart {
            turned: turned.max(span.saturating_mul(2).saturating_sub(sum)),
            along,
        },
        _ => Apart {
            turned,
            along: along.max(from.abs_diff(to).saturating_add(WIDEST_CELL)),
        },
    }
}

/// The distances with the wires to a cell too, which stands at `slot` above a row with the slots `below`.
fn with_cell(
    apart: Apart,
    row: usize,
    span: u64,
    below: &[u32],
    slot: u32,
    cell: &RowCell,
) -> Apart {
    let mut apart = apart;
    for source in [cell.source0, cell.source1, cell.source2] {
        if let Some(source) = source {
            apart = with_wire(apart, row, span, slot_of(below, &source), u64::from(slot));
        }
    }
    apart
}

/// The distances of all wires of a chip.
fn apart_in(chip: &Placed) -> Apart {
    let span = chip.span();
    let mut apart = Apart {
        turned: 0,
        along: WIDEST_CELL,
    };
    for row in 1..chip.row_count() {
        let below = chip.slots_at(row - 1);
        let slots = chip.slots_at(row);
        let cells = chip.cells_at(row);
        for number in 0..cells.len().min(slots.len()) {
            apart = with_cell(apart, row, span, below, slots[number], &cells[number]);
        }
    }
    apart
}

/// How wide the bar is to be that delays the odd rows of this chip, in nanometres; 0 where a delay gains nothing. With
/// its link the delay is about half of what the even rows are ahead more than the odd ones. The link is some four
/// heights long, and where a line turns it has run three heights more: so five heights come off before the half.
fn lag_of(library: &Library, chip: &Placed) -> u64
    ensures { result ≤ width_limit }
{
    library.known();
    let apart = apart_in(chip);
    let more = apart.turned.saturating_sub(apart.along);
    let ahead = more.saturating_mul(slot_width(library));
    (ahead.saturating_sub(5 * library.height()) / 2).min(WIDTH_LIMIT)
}

/// A chip with its odd rows delayed, so that it bears a higher clock rate; as it was, where it would have too many
/// elements.
#[tactic(auto, using(crate::proofs::Delays::delays))]
pub fn delayed(library: &Library, chip: Placed) -> Placed
    requires { MayDraw chip library.now }
    ensures draws { MayDraw result library.now }
    ensures delayed { IsDelayed chip result }
{
    if element_number(&chip) + 2 > ELEMENT_LIMIT {
        return chip;
    }
    let lag = lag_of(library, &chip);
    chip.lagged(lag)
}
