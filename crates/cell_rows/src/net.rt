// Netlists of cells as nets in rows.
ghost use Rattle.std.specs.Prelude.{◌≡◌, ◌+◌, ◌++◌, ◌∷◌, ◌<◌, [], length, slice_get, slice_index_or, slice_set};
ghost use Rattle.std.specs.Prelude.{Some, IfOk, OnOk};
ghost use Rattle.rowed.specs.declared.row_cell.RowCell.{RowCell as Cell};
ghost use Rattle.cell_netlist.specs.Told.{IsNetOfCells};
ghost use Rattle.cell_rows.specs.Laws.{AreRowsOf};
ghost use Rattle.cell_rows.specs.Members.{listed};
ghost use Rattle.cell_rows.specs.Code.Laying.{IsTabled, AreLevelled, IsPlanOf, AreUsedBefore, laid_to};

use crate::cells::row_cell;
use crate::places::{Plan, plan_of};
use crate::tabled_cells::TabledCells;
use aq_base::{List, Memory};
use blif_read::{Def, Netlist};
use cell_netlist::{CellLevels, bump, cell_table};
use circuit::Answers;
use rowed::{RowCell, RowNet};
use std::alloc::Global;

/// The uses of signals by definition `j` too.
fn use_each(cells: &TabledCells, used: &mut [u32], _j: u32, def: &Def)
    requires here { slice_get cells.now.net.now.defs _j ≡ Some def.now }
    requires used { AreUsedBefore cells.now used.old _j }
    ensures { AreUsedBefore cells.now used.new (_j + 1) }
{
    cells.net.known();
    for signal in def.inputs.as_slice() {
        bump(used, *signal);
    }
}

/// Puts a cell at the end of a row.
fn put(rows: &mut [List<RowCell>], row: usize, cell: RowCell) -> Result<(), Memory>
    requires { row < length rows.old }
    ensures { OnOk result (rows.new ≡ slice_set rows.old row (slice_index_or rows.old row [] ++ cell ∷ [])) }
{
    rows[row].push(cell)?;
    Ok(())
}

/// Puts the cell of definition `j` into its row, unless it is a name.
fn lay_one(
    cells: &TabledCells,
    plan: &Plan,
    used: &[u32],
    rows: &mut [List<RowCell>],
    j: u32,
) -> Result<(), Memory>
    requires table { IsTabled cells.now }
    requires cells { AreLevelled cells.now }
    requires plan { IsPlanOf cells.now plan.now }
    requires used { AreUsedBefore cells.now used.now j }
    requires j { j < length cells.now.net.now.defs }
    requires rows { rows.old ≡ laid_to cells.now j }
    ensures { OnOk result (rows.new ≡ laid_to cells.now (j + 1)) }
{
    let name = cells.is_name_at(j);
    if name {
        return Ok(());
    }
    let cell = row_cell(cells, plan, used, j);
    let row = cells.row_at(j);
    put(rows, row, cell)?;
    Ok(())
}

/// Puts all cells into rows that are empty.
fn lay_each(
    cells: &TabledCells,
    plan: &Plan,
    used: &mut [u32],
    rows: &mut [List<RowCell>],
) -> Result<(), Memory>
    requires table { IsTabled cells.now }
    requires cells { AreLevelled cells.now }
    requires plan { IsPlanOf cells.now plan.now }
    requires used { AreUsedBefore cells.now used.old 0 }
    requires rows { rows.old ≡ laid_to cells.now 0 }
    ensures { OnOk result (rows.new ≡ laid_to cells.now (length cells.now.net.now.defs)) }
{
    cells.net.known();
    for (j, def) in cells.net.defs().as_slice().iter().enumerate() {
        lay_one(cells, plan, used, rows, j as u32)?;
        use_each(cells, used, j as u32, def);
    }
    Ok(())
}

/// So many empty rows.
fn empty_rows(alloc: Global, count: usize) -> Result<Vec<List<RowCell>>, Memory>
    ensures { IfOk result (λ rows. rows.items ≡ listed (λ _. []) count) }
{
    let mut rows = Vec::with_capacity(alloc, count)?;
    for _row in 0..count {
        rows.push(List::new(alloc))?;
    }
    Ok(rows)
}

/// The rows of a netlist of cells.
fn laid(alloc: Global, cells: &TabledCells, plan: &Plan) -> Result<Vec<List<RowCell>>, Memory>
    requires table { IsTabled cells.now }
    requires cells { AreLevelled cells.now }
    requires plan { IsPlanOf cells.now plan.now }
    ensures { IfOk result (λ rows. rows.items ≡ laid_to cells.now (length cells.now.net.now.defs)) }
{
    cells.net.known();
    let mut used = vec![in alloc; 0; cells.net.name_count() as usize]?;
    let mut rows = empty_rows(alloc, cells.levels.last as usize + 1)?;
    lay_each(cells, plan, &mut used, &mut rows)?;
    Ok(rows)
}

/// The net in rows of a netlist whose cells have a plan.
fn planned(alloc: Global, cells: &TabledCells, plan: &Plan) -> Result<RowNet, Memory>
    requires table { IsTabled cells.now }
    requires cells { AreLevelled cells.now }
    requires plan { IsPlanOf cells.now plan.now }
    ensures { IfOk result (AreRowsOf cells.now.net.now cells.now.three cells.now.levels.now.levels
        cells.now.levels.now.last) }
{
    let rows = laid(alloc, cells, plan)?;
    Ok(RowNet {
        inputs: cells.net.input_count(),
        outputs: cells.net.output_count(),
        rows: List::from_vec(rows),
    })
}

/// A netlist of cells, with its levels, as a net in rows: each cell as it stands, in the row of its level, in a row in
/// the order of the text. It is refused for want of memory alone. The time is linear in the size of the netlist.
pub fn cell_rows(
    alloc: Global,
    net: &Netlist,
    three: bool,
    cells: &CellLevels,
) -> Result<RowNet, Memory>
    requires { IsNetOfCells net.now three cells.now.levels cells.now.last }
    ensures { IfOk result (AreRowsOf net.now three cells.now.levels cells.now.last) }
{
    net.known();
    let table = cell_table(alloc, net)?;
    let tabled = TabledCells {
        net,
        table: &table,
        three,
        levels: cells,
    };
    let plan = plan_of(alloc, &tabled)?;
    planned(alloc, &tabled, &plan)
}
