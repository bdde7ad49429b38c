// The places of cells in their rows, and the outputs that they show.
ghost use Rattle.std.specs.Prelude.{◌≡◌, ◌+◌, ◌<◌, false, length, slice_set, Some, IfOk};
ghost use Rattle.cell_netlist.specs.Uses.{is_name};
ghost use Rattle.cell_rows.specs.Members.{place_of};
ghost use Rattle.cell_rows.specs.Code.Laying.{view_of, IsTabled, AreLevelled, counts_of, ArePlaces, AreShown, IsPlanOf};

use crate::tabled_cells::TabledCells;
use aq_base::Memory;
use cell_netlist::shown_by;
use circuit::Answers;
use std::alloc::Global;

/// Counts the cell of definition `j` in its row; its place there. A name is not counted.
fn counted(cells: &TabledCells, counts: &mut [u32], j: u32) -> u32
    requires table { IsTabled cells.now }
    requires cells { AreLevelled cells.now }
    requires j { j < length cells.now.net.now.defs }
    requires counts { counts.old ≡ counts_of cells.now j }
    ensures counts { counts.new ≡ counts_of cells.now (j + 1) }
    ensures place { is_name (view_of cells.now) (cells.now.net.now.inputs + j) ≡ false
        → result ≡ place_of (view_of cells.now) cells.now.levels.now.levels j }
{
    let name = cells.is_name_at(j);
    if name {
        return 0;
    }
    let row = cells.row_at(j);
    let place = counts[row];
    counts[row] = place + 1;
    place
}

/// The places of all cells, where none is counted yet.
fn count_each(alloc: Global, cells: &TabledCells, counts: &mut [u32]) -> Result<Vec<u32>, Memory>
    requires table { IsTabled cells.now }
    requires cells { AreLevelled cells.now }
    requires counts { counts.old ≡ counts_of cells.now 0 }
    ensures { IfOk result (λ places. ArePlaces (view_of cells.now) cells.now.levels.now.levels places.items
        (length cells.now.net.now.defs)) }
{
    cells.net.known();
    let count = cells.net.defs().len() as u32;
    let mut places = Vec::with_capacity(alloc, count as usize)?;
    for j in 0..count {
        let place = counted(cells, counts, j);
        places.push(place)?;
    }
    Ok(places)
}

/// The places of all cells in their rows, by the number of their definition.
fn places(alloc: Global, cells: &TabledCells) -> Result<Vec<u32>, Memory>
    requires table { IsTabled cells.now }
    requires cells { AreLevelled cells.now }
    ensures { IfOk result (λ places. ArePlaces (view_of cells.now) cells.now.levels.now.levels places.items
        (length cells.now.net.now.defs)) }
{
    let mut counts = vec![in alloc; 0; cells.levels.last as usize + 1]?;
    count_each(alloc, cells, &mut counts)
}

/// Tells that an output shows a signal, if there is such a signal.
fn show(shown: &mut [Option<u32>], signal: u32, output: u32)
    ensures { shown.new ≡ slice_set shown.old signal (Some output) }
{
    let place = signal as usize;
    if place < shown.len() {
        shown[place] = Some(output);
    }
}

/// Which output shows each signal.
fn outputs_of(alloc: Global, cells: &TabledCells) -> Result<Vec<Option<u32>>, Memory>
    requires table { IsTabled cells.now }
    ensures { IfOk result (λ shown. AreShown (view_of cells.now) shown.items (length cells.now.net.now.outputs)) }
{
    let net = cells.net;
    net.known();
    let mut shown = vec![in alloc; None; net.name_count() as usize]?;
    for (k, output) in net.outputs().as_slice().iter().enumerate() {
        let signal = shown_by(net, cells.table, cells.three, *output);
        show(&mut shown, signal, k as u32);
    }
    Ok(shown)
}

/// Where the cells stand in their rows, by definition, and which output shows each signal.
#[derive(Drop)]
pub(crate) struct Plan {
    pub places: Vec<u32>,
    pub shown: Vec<Option<u32>>,
}

/// The plan of a netlist's rows.
pub(crate) fn plan_of(alloc: Global, cells: &TabledCells) -> Result<Plan, Memory>
    requires table { IsTabled cells.now }
    requires cells { AreLevelled cells.now }
    ensures { IfOk result (IsPlanOf cells.now) }
{
    Ok(Plan {
        places: places(alloc, cells)?,
        shown: outputs_of(alloc, cells)?,
    })
}
