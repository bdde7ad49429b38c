// The rows of a net: each stands over the row before it.
ghost use Rattle.std.specs.Prelude.{◌≡◌, ◌<◌, IfOk};
ghost use Rattle.placement_check.specs.Code.Rows.{has_size, is_first_row, is_end, is_row_above, is_row, is_net};

use crate::cells::{are_above, are_first, inputs_of, outputs_of, pins_of};
use crate::numbering::{are_distinct, is_numbering};
use aq_base::{List, Memory};
use rowed::RowCell;
use std::alloc::Global;

/// How many cells a row may have, and how many rows there may be.
const ROW_LIMIT: usize = 4_294_967_295;

/// Whether a row is not empty, and has not too many cells.
fn has_size(cells: &[RowCell]) -> bool
    ensures { result ≡ has_size cells.now }
{
    cells.len() > 0 && cells.len() <= ROW_LIMIT
}

/// Whether the cells may stand in the first row, and show each input once.
fn is_first_row(alloc: Global, inputs: u32, cells: &[RowCell]) -> Result<bool, Memory>
    ensures { IfOk result (λ is. is ≡ is_first_row inputs cells.now) }
{
    if !has_size(cells) || !are_first(cells) {
        return Ok(false);
    }
    let shown = inputs_of(alloc, cells)?;
    is_numbering(alloc, &shown, inputs)
}

/// Whether the cells show each output once, where they are those of the last row.
fn is_end(alloc: Global, outputs: u32, last: bool, cells: &[RowCell]) -> Result<bool, Memory>
    ensures { IfOk result (λ is. is ≡ is_end outputs last cells.now) }
{
    if !last {
        return Ok(true);
    }
    let shown = outputs_of(alloc, cells)?;
    is_numbering(alloc, &shown, outputs)
}

/// Whether the cells may stand in a row over another, which is the last one or not, and no output feeds two pins.
fn is_row_above(
    alloc: Global,
    outputs: u32,
    last: bool,
    below: &[RowCell],
    cells: &[RowCell],
) -> Result<bool, Memory>
    ensures { IfOk result (λ is. is ≡ is_row_above outputs last below.now cells.now) }
{
    if !has_size(cells) || !are_above(below, last, cells) {
        return Ok(false);
    }
    let pins = pins_of(alloc, cells)?;
    if !are_distinct(alloc, &pins, 3 * below.len())? {
        return Ok(false);
    }
    is_end(alloc, outputs, last, cells)
}

/// Whether the cells may stand in row `number` of so many.
fn is_row(
    alloc: Global,
    shown: (u32, u32),
    count: usize,
    number: usize,
    below: &[RowCell],
    cells: &[RowCell],
) -> Result<bool, Memory>
    requires { number < count }
    ensures { IfOk result (λ is. is ≡ is_row shown.0 shown.1 count number below.now cells.now) }
{
    if number == 0 {
        is_first_row(alloc, shown.0, cells)
    } else {
        is_row_above(alloc, shown.1, number + 1 == count, below, cells)
    }
}

/// Whether the rows are those of a net with so many inputs and outputs.
pub(crate) fn is_net(
    alloc: Global,
    inputs: u32,
    outputs: u32,
    rows: &[List<RowCell>],
) -> Result<bool, Memory>
    ensures { IfOk result (λ is. is ≡ is_net inputs outputs rows.now) }
{
    if rows.len() < 2 || rows.len() > ROW_LIMIT {
        return Ok(false);
    }
    let mut below: &[RowCell] = &[];
    for (number, row) in rows.iter().enumerate() {
        let cells = row.as_slice();
        if !is_row(alloc, (inputs, outputs), rows.len(), number, below, cells)? {
            return Ok(false);
        }
        below = cells;
    }
    Ok(true)
}
