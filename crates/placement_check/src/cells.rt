// The cells of a row: what each keeps of its kind, and of the row below.
ghost use Rattle.std.specs.Prelude.{◌≡◌, map, slice_get, IfOk};
ghost use Rattle.rowed.specs.declared.row_cell.RowCell.{RowCell};
ghost use Rattle.rowed.specs.RowNets.{outputs_at};
ghost use Rattle.placement_check.specs.Code.Cells.{is_fed, is_first, are_first, is_upper, is_before, are_before};
ghost use Rattle.placement_check.specs.Code.Cells.{are_above, key_of, pins_of};

use aq_base::Memory;
use circuit::CellKind;
use rowed::{RowCell, Source};
use std::alloc::Global;

/// Whether the first pins of a cell have sources, so many of them and no other.
fn is_fed(cell: &RowCell, pins: u32) -> bool
    ensures { result ≡ is_fed cell.now pins }
{
    match (cell.source0, cell.source1, cell.source2) {
        (None, None, None) => pins == 0,
        (Some(_), None, None) => pins == 1,
        (Some(_), Some(_), Some(_)) => pins == 3,
        _ => false,
    }
}

/// Whether a cell may stand in the first row.
fn is_first(cell: &RowCell) -> bool
    ensures { result ≡ is_first cell.now }
{
    let may_begin = match cell.kind {
        CellKind::Buffer => cell.input.is_some(),
        CellKind::Zero | CellKind::One => !cell.input.is_some(),
        CellKind::Inverter | CellKind::Split2 | CellKind::Split3 | CellKind::Majority => false,
    };
    may_begin && !cell.output.is_some() && is_fed(cell, 0)
}

/// Whether the cells may stand in the first row.
pub(crate) fn are_first(cells: &[RowCell]) -> bool
    ensures { result ≡ are_first cells.now }
{
    for cell in cells {
        if !is_first(cell) {
            return false;
        }
    }
    true
}

/// Whether a cell may stand in another row, which is the last one or not.
fn is_upper(last: bool, cell: &RowCell) -> bool
    ensures { result ≡ is_upper last cell.now }
{
    let may_end = if last {
        cell.output.is_some() && matches!(cell.kind, CellKind::Buffer)
    } else {
        !cell.output.is_some()
    };
    may_end && !cell.input.is_some() && is_fed(cell, cell.kind.inputs())
}

/// How many outputs a cell of a row has; none past the last cell.
fn outputs_at(cells: &[RowCell], cell: u32) -> u32
    ensures { result ≡ outputs_at (slice_get cells.now cell) }
{
    match cells.get(cell as usize) {
        Some(cell) => cell.kind.outputs(),
        None => 0,
    }
}

/// Whether the source of a pin is an output of a cell of the row below.
fn is_before(below: &[RowCell], source: Option<Source>) -> bool
    ensures { result ≡ is_before below.now source }
{
    match source {
        Some(source) => source.output < outputs_at(below, source.cell),
        None => true,
    }
}

/// Whether each source of a cell is an output of a cell of the row below.
fn are_before(below: &[RowCell], cell: &RowCell) -> bool
    ensures { result ≡ are_before below.now cell.now }
{
    is_before(below, cell.source0)
        && is_before(below, cell.source1)
        && is_before(below, cell.source2)
}

/// Whether the cells may stand in a row over another, which is the last one or not.
pub(crate) fn are_above(below: &[RowCell], last: bool, cells: &[RowCell]) -> bool
    ensures { result ≡ are_above below.now last cells.now }
{
    for cell in cells {
        if !(is_upper(last, cell) && are_before(below, cell)) {
            return false;
        }
    }
    true
}

/// The key of a source: a cell has three, one for each output.
fn key_of(source: Option<Source>) -> Option<u64>
    ensures { result ≡ key_of source }
{
    match source {
        Some(source) => Some(3 * u64::from(source.cell) + u64::from(source.output)),
        None => None,
    }
}

/// The keys of the sources of all pins, three for each cell.
pub(crate) fn pins_of(alloc: Global, cells: &[RowCell]) -> Result<Vec<Option<u64>>, Memory>
    ensures { IfOk result (λ pins. pins.items ≡ pins_of cells.now) }
{
    let mut pins = Vec::new(alloc);
    for cell in cells {
        pins.push(key_of(cell.source0))?;
        pins.push(key_of(cell.source1))?;
        pins.push(key_of(cell.source2))?;
    }
    Ok(pins)
}

/// The same number in a wider type.
fn widened(number: Option<u32>) -> Option<u64>
    ensures { result ≡ number }
{
    match number {
        Some(number) => Some(u64::from(number)),
        None => None,
    }
}

/// The inputs that the cells show.
pub(crate) fn inputs_of(alloc: Global, cells: &[RowCell]) -> Result<Vec<Option<u64>>, Memory>
    ensures { IfOk result (λ inputs. inputs.items ≡ map (λ (cell : RowCell). cell.input) cells.now) }
{
    let mut inputs = Vec::with_capacity(alloc, cells.len())?;
    for cell in cells {
        inputs.push(widened(cell.input))?;
    }
    Ok(inputs)
}

/// The outputs that the cells show.
pub(crate) fn outputs_of(alloc: Global, cells: &[RowCell]) -> Result<Vec<Option<u64>>, Memory>
    ensures { IfOk result (λ outputs. outputs.items ≡ map (λ (cell : RowCell). cell.output) cells.now) }
{
    let mut outputs = Vec::with_capacity(alloc, cells.len())?;
    for cell in cells {
        outputs.push(widened(cell.output))?;
    }
    Ok(outputs)
}
