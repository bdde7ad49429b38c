// The cells of definitions, with their sources.
ghost use Rattle.std.specs.Prelude.{◌≡◌, ◌+◌, ◌<◌, false, length, slice_index};
ghost use Rattle.cell_netlist.specs.Uses.{is_name};
ghost use Rattle.cell_rows.specs.CellRows.{kind_giving, row_cell};
ghost use Rattle.cell_rows.specs.Code.Laying.{view_of, IsTabled, AreLevelled, IsPlanOf, AreUsedBefore};
ghost use Rattle.cell_rows.specs.Code.Laying.{source_in, cell_with};

use crate::places::Plan;
use crate::tabled_cells::TabledCells;
use cell_netlist::{gate_of, uses_of};
use circuit::{Answers, CellKind, Gate};
use rowed::{RowCell, Source};

/// The number at a place, and 0 past the end.
fn number_at(numbers: &[u32], place: u32) -> u32
    ensures { result ≡ slice_index numbers.now place }
{
    numbers.get(place as usize).copied().unwrap_or(0)
}

/// A buffer, or a splitter where it has two or three uses.
fn kind_giving(uses: u32) -> CellKind
    ensures { result ≡ kind_giving uses }
{
    if uses == 2 {
        CellKind::Split2
    } else if uses == 3 {
        CellKind::Split3
    } else {
        CellKind::Buffer
    }
}

/// What feeds a pin that names a signal: the place of its cell, and how often it was named before.
fn source(inputs: u32, places: &[u32], used: &[u32], signal: u32) -> Source
    ensures { result ≡ source_in inputs places.now used.now signal }
{
    Source {
        cell: number_at(places, signal.saturating_sub(inputs)),
        output: number_at(used, signal),
    }
}

/// The cell of a buffer, which shows an input or is fed.
fn buffer_cell(inputs: u32, places: &[u32], used: &[u32], uses: u32, signal: u32) -> RowCell
    ensures { result ≡ cell_with inputs (source_in inputs places.now used.now) uses (Gate.Buf signal) }
{
    let kind = kind_giving(uses);
    if signal < inputs {
        RowCell {
            input: Some(signal),
            ..RowCell::bare(kind)
        }
    } else {
        RowCell::fed(kind, source(inputs, places, used, signal))
    }
}

/// The cell of a gate with so many uses.
fn gate_cell(inputs: u32, places: &[u32], used: &[u32], uses: u32, gate: Gate) -> RowCell
    ensures { result ≡ cell_with inputs (source_in inputs places.now used.now) uses gate }
{
    match gate {
        Gate::Input(_) => RowCell::bare(CellKind::Buffer),
        Gate::Zero => RowCell::bare(CellKind::Zero),
        Gate::One => RowCell::bare(CellKind::One),
        Gate::Buf(x) => buffer_cell(inputs, places, used, uses, x),
        Gate::Inv(x) => RowCell::fed(CellKind::Inverter, source(inputs, places, used, x)),
        Gate::Maj(x, y, z) => {
            let a = source(inputs, places, used, x);
            let b = source(inputs, places, used, y);
            let c = source(inputs, places, used, z);
            RowCell::gate(CellKind::Majority, &[a, b, c])
        }
    }
}

/// The cell of definition `j`, where the signals that definitions before it name were counted.
pub(crate) fn row_cell(cells: &TabledCells, plan: &Plan, used: &[u32], j: u32) -> RowCell
    requires table { IsTabled cells.now }
    requires cells { AreLevelled cells.now }
    requires plan { IsPlanOf cells.now plan.now }
    requires used { AreUsedBefore cells.now used.now j }
    requires j { j < length cells.now.net.now.defs }
    requires no_name { is_name (view_of cells.now) (cells.now.net.now.inputs + j) ≡ false }
    ensures { result ≡ row_cell (view_of cells.now) cells.now.levels.now.levels j }
{
    let net = cells.net;
    net.known();
    let inputs = net.input_count();
    let signal = inputs + j;
    let uses = uses_of(net, cells.table, cells.three, signal);
    let output = plan.shown[signal as usize];
    let Some(gate) = gate_of(net, cells.table, signal) else {
        return RowCell::bare(CellKind::Buffer);
    };
    let cell = gate_cell(inputs, &plan.places, used, uses, gate);
    RowCell { output, ..cell }
}
