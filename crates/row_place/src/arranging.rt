// Cells at slots that a search has found.
ghost use Rattle.std.specs.Prelude.{◌≡◌, ◌<◌, ◌^◌, [], true, length, map, IfOk, IfSome, IsSome};
ghost use Rattle.std.specs.List.{AllByRecursion};
ghost use Rattle.sorting.specs.Numbers.{IsInverse};
ghost use Rattle.rowed.specs.SeatTests as tests;
ghost use Rattle.rowed.specs.Slots.{EachSeated};
ghost use Rattle.row_place.specs.Places.{picked};
ghost use Rattle.row_place.specs.Arranged.{IsArranged, one_each, slot_at, slot_order, arranged, arranged_rows};
ghost use Rattle.row_place.specs.Code.Arrays.{moved_cell, row_cells, row_slots};

use crate::plan::PlacedRows;
use crate::rows::{PlacedRow, cells_in};
use aq_base::{List, Memory};
use rowed::{Placed, RowCell, RowNet, each_seated};
use sorting::{order_by, places_of};
use std::alloc::Global;

/// Whether there is a list of slots for each row, with one for each cell.
fn one_each(rows: &[List<RowCell>], slots: &[List<u32>]) -> bool
    ensures { result ≡ one_each rows.now slots.now }
{
    if rows.len() != slots.len() {
        return false;
    }
    for (number, row) in rows.iter().enumerate() {
        if row.len() != slots[number].len() {
            return false;
        }
    }
    true
}

/// The numbers of a row's cells by their slots.
fn slot_order(alloc: Global, slots: &[u32]) -> Result<Vec<u32>, Memory>
    requires { length slots.now < 2 ^ 32 }
    ensures { IfOk result (λ order. order.items ≡ slot_order slots.now) }
{
    let mut keys = Vec::with_capacity(alloc, slots.len())?;
    for slot in slots {
        keys.push(u64::from(*slot))?;
    }
    order_by(alloc, &keys)
}

/// The slots of the cells in this order.
fn slots_in(alloc: Global, slots: &[u32], order: &[u32]) -> Result<Vec<u32>, Memory>
    requires { AllByRecursion (λ c. c < length slots.now) order.now }
    ensures { IfOk result (λ found. found.items ≡ map (slot_at slots.now) order.now) }
{
    let mut found = Vec::with_capacity(alloc, order.len())?;
    for number in order {
        found.push(slots[*number as usize])?;
    }
    Ok(found)
}

/// The row in the order of its slots. `places` has the new numbers of the row before.
fn arrange_row(
    alloc: Global,
    places: &[u32],
    row: &[RowCell],
    slots: &[u32],
) -> Result<PlacedRow, Memory>
    requires few_below { length places.now < 2 ^ 32 }
    requires few { length row.now < 2 ^ 32 }
    requires each { length slots.now ≡ length row.now }
    ensures cells { IfOk result (λ made. made.cells.items
        ≡ map (moved_cell places.now) (picked row.now (slot_order slots.now))) }
    ensures slots { IfOk result (λ made. made.slots.items ≡ map (slot_at slots.now) (slot_order slots.now)) }
    ensures places { IfOk result (λ made. IsInverse made.places.items (slot_order slots.now)) }
    ensures long { IfOk result (λ made. length made.places.items ≡ length row.now) }
{
    let order = slot_order(alloc, slots)?;
    let cells = cells_in(alloc, places, row, &order)?;
    let slots = slots_in(alloc, slots, &order)?;
    let places = places_of(alloc, &order)?;
    Ok(PlacedRow {
        cells,
        slots,
        places,
    })
}

/// All rows in the order of their slots.
fn arrange_rows(
    alloc: Global,
    rows: &[List<RowCell>],
    slots: &[List<u32>],
) -> Result<PlacedRows, Memory>
    requires few { AllByRecursion (λ row. length row < 2 ^ 32) rows.now }
    requires each { one_each rows.now slots.now ≡ true }
    ensures cells { IfOk result (λ placed. placed.rows.items ≡ row_cells (arranged_rows [] rows.now slots.now)) }
    ensures slots { IfOk result (λ placed. placed.slots.items ≡ row_slots (arranged_rows [] rows.now slots.now)) }
{
    let mut placed = Vec::with_capacity(alloc, rows.len())?;
    let mut lists = Vec::with_capacity(alloc, rows.len())?;
    let mut places = Vec::new(alloc);
    for (number, row) in rows.iter().enumerate() {
        let made = arrange_row(alloc, &places, row.as_slice(), slots[number].as_slice())?;
        placed.push(List::from_vec(made.cells))?;
        lists.push(List::from_vec(made.slots))?;
        places = made.places;
    }
    Ok(PlacedRows {
        rows: placed,
        slots: lists,
    })
}

/// The net with its cells at these slots, which a search has found: a list for each row, in the order of its cells. In
/// each row the cells stand in the order of their slots, and sources have the new numbers. Nothing is given where a
/// cell has no slot or a slot no cell, where two cells share a slot, or where one goes past slot 2,147,483,646. It
/// fails for want of memory alone.
pub fn arrange(alloc: Global, net: &RowNet, slots: &[List<u32>]) -> Result<Option<Placed>, Memory>
    ensures arranged { IfOk result (λ found. IfSome found (IsArranged net.now slots.now)) }
    ensures taken { IfOk result (λ found. one_each net.now.rows slots.now ≡ true
        → EachSeated (arranged net.now slots.now).net.rows (arranged net.now slots.now).slots → IsSome found) }
{
    net.known();
    let rows = net.rows.as_slice();
    if !one_each(rows, slots) {
        return Ok(None);
    }
    let made = arrange_rows(alloc, rows, slots)?;
    if !each_seated(&made.rows, &made.slots) {
        return Ok(None);
    }
    Ok(Some(Placed {
        net: RowNet {
            inputs: net.inputs,
            outputs: net.outputs,
            rows: List::from_vec(made.rows),
        },
        slots: List::from_vec(made.slots),
        lag: 0,
    }))
}
