// The chip of a netlist of cells that a search has found.
ghost use Rattle.std.specs.Prelude.{IfOk, IfSome};
ghost use Rattle.plan_draw.specs.CellPlans.{AreCellRows};
ghost use Rattle.plan_draw.specs.Code.Found.{IsStanding, IsFoundChip};

use aq_base::Memory;
use blif_read::Netlist;
use cell_library::Library;
use chip_search::{Effort, find_slots, find_wider};
use placement_check::check_wider;
use plan_limits::drawable_chip;
use row_place::arrange;
use rowed::{Placed, RowNet};
use std::alloc::Global;

/// The reach of a library, as far as a search counts it.
fn reach_of(library: &Library) -> u32 {
    library.reach().min(u64::from(u32::MAX)) as u32
}

/// The rows with their cells at slots that a search has found, if they can stand there.
#[tactic(auto, using(crate::proofs::DrawnRows::standing))]
fn arranged(alloc: Global, library: &Library, rows: &RowNet) -> Result<Option<Placed>, Memory>
    ensures { IfOk result (λ found. IfSome found (IsStanding rows.now)) }
{
    let slots = find_slots(alloc, rows, reach_of(library), &Effort::full())?;
    arrange(alloc, rows, slots.as_slice())
}

/// The rows wider by rows of buffers that a search has added, if it finds any and they pass the check.
#[tactic(auto, using(crate::proofs::DrawnRows::standing))]
fn widened(alloc: Global, library: &Library, rows: &RowNet) -> Result<Option<Placed>, Memory>
    ensures { IfOk result (λ found. IfSome found (IsStanding rows.now)) }
{
    match find_wider(alloc, rows, reach_of(library), &Effort::full())? {
        Some(draft) => check_wider(alloc, rows, draft),
        None => Ok(None),
    }
}

/// The chip of what stands, with rows of repeaters, if it may be drawn with the library.
#[tactic(auto, using(crate::proofs::DrawnRows::found))]
fn drawable(
    alloc: Global,
    library: &Library,
    net: &Netlist,
    _rows: &RowNet,
    standing: Option<Placed>,
) -> Result<Option<Placed>, Memory>
    requires rows { AreCellRows library.now net.now _rows.now }
    requires standing { IfSome standing (IsStanding _rows.now) }
    ensures { IfOk result (λ found. IfSome found (IsFoundChip library.now net.now)) }
{
    match standing {
        Some(placed) => drawable_chip(alloc, library, net, &placed),
        None => Ok(None),
    }
}

/// The one of two chips with fewer cells, the first one where both have as many.
#[tactic(auto, using(crate::proofs::DrawnRows::chosen))]
fn fewer(
    _library: &Library,
    _net: &Netlist,
    one: Option<Placed>,
    other: Option<Placed>,
) -> Option<Placed>
    requires one { IfSome one (IsFoundChip _library.now _net.now) }
    requires other { IfSome other (IsFoundChip _library.now _net.now) }
    ensures { IfSome result (IsFoundChip _library.now _net.now) }
{
    match (one, other) {
        (Some(one), Some(other)) => {
            if other.cell_count() < one.cell_count() {
                Some(other)
            } else {
                Some(one)
            }
        }
        (Some(one), None) => Some(one),
        (None, other) => other,
    }
}

/// Whether a chip has more rows than these, or none was found.
fn has_more_rows(rows: &RowNet, chip: &Option<Placed>) -> bool {
    match chip {
        Some(chip) => rows.rows.len() < chip.net.rows.len(),
        None => true,
    }
}

/// The chip of these rows that was found, at slots of their cells or with added rows, with rows of repeaters, if it may
/// be drawn with the library. Rows that a search adds are looked for where the first one needs repeaters.
pub(crate) fn found_chip(
    alloc: Global,
    library: &Library,
    net: &Netlist,
    rows: &RowNet,
) -> Result<Option<Placed>, Memory>
    requires { AreCellRows library.now net.now rows.now }
    ensures { IfOk result (λ found. IfSome found (IsFoundChip library.now net.now)) }
{
    let standing = arranged(alloc, library, rows)?;
    let one = drawable(alloc, library, net, rows, standing)?;
    if !has_more_rows(rows, &one) {
        return Ok(one);
    }
    let standing = widened(alloc, library, rows)?;
    let other = drawable(alloc, library, net, rows, standing)?;
    Ok(fewer(library, net, one, other))
}
