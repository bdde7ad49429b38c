// Netlists of cells, and the levels of their cells.
ghost use Rattle.std.specs.Prelude.{◌≡◌, ◌<◌, false, length, replicate, slice_index, IfOk, IfErr};
ghost use Rattle.union_find.specs.Forests.{trees};
ghost use Rattle.cell_netlist.specs.Faults.{IsFault, IsFaultOfDef, IsFed};
ghost use Rattle.cell_netlist.specs.Told.{IfNotCells, IsNetOfCells, HasFirstFault};
ghost use Rattle.cell_netlist.specs.Code.Progress.{IsJudged, IsLevelled, IsNearly, IsLast, AreLevels};
ghost use Rattle.cell_netlist.specs.Code.Tabled.{view_of, IsTabled, AreLevelsOf};

use crate::counts::cell_table;
use crate::fault::{CellFault, CellsRefusal};
use crate::judge::first_fault;
use crate::outputs::{align, are_shown, are_used, shown_nodes};
use crate::tabled_net::TabledNet;
use aq_base::{List, Memory};
use blif_read::Netlist;
use circuit::Answers;
use std::alloc::Global;
use union_find::Heights;

/// The levels of the cells of a netlist: one for each definition, in order, and the last, on which the buffers stand
/// that show outputs. What is told for a name says nothing.
#[derive(Drop)]
pub struct CellLevels {
    pub levels: List<u64>,
    pub last: u64,
}

/// The levels of definitions, by the heights of their nodes.
fn levels_of(alloc: Global, heights: &[u64]) -> Result<Vec<u64>, Memory>
    requires { 0 < length heights.now }
    ensures { IfOk result (λ levels. AreLevels levels.items heights.now) }
{
    let mut levels = Vec::with_capacity(alloc, heights.len())?;
    for j in 1..heights.len() {
        levels.push(heights[j].saturating_sub(1))?;
    }
    Ok(levels)
}

/// The levels by the least heights, unless the buffers that show outputs are buffers of inputs.
fn told(
    alloc: Global,
    _tabled: &TabledNet,
    nodes: &[u32],
    least: &[u64],
) -> Result<CellLevels, CellsRefusal>
    requires some { 0 < length nodes.now }
    requires within { slice_index nodes.now 0 < length least.now }
    requires found { IsLast (view_of _tabled.now) nodes.now least.now }
    ensures net { IfOk result (AreLevelsOf _tabled.now) }
    ensures fault { IfErr result (λ refusal. IfNotCells refusal (IsFault (view_of _tabled.now))) }
{
    let high = least[nodes[0] as usize];
    if high <= 1 {
        return Err(CellsRefusal::NotCells {
            line: 0,
            kind: CellFault::Outputs,
        });
    }
    let levels = levels_of(alloc, least)?;
    Ok(CellLevels {
        levels: List::from_vec(levels),
        last: high - 1,
    })
}

/// The levels, where the buffers that show outputs can stand on one.
fn on_one_level(
    alloc: Global,
    tabled: &TabledNet,
    heights: &mut Heights,
    nodes: &[u32],
) -> Result<CellLevels, CellsRefusal>
    requires { IsNearly (view_of tabled.now) (trees heights.old) nodes.now }
    ensures net { IfOk result (AreLevelsOf tabled.now) }
    ensures fault { IfErr result (λ refusal. IfNotCells refusal (IsFault (view_of tabled.now))) }
{
    let aligned = align(heights, nodes[0], nodes);
    if !aligned {
        return Err(CellsRefusal::NotCells {
            line: 0,
            kind: CellFault::Outputs,
        });
    }
    let least = heights.least(alloc)?;
    told(alloc, tabled, nodes, &least)
}

/// The levels, where each output is a name of a buffer of its own.
fn shown(
    alloc: Global,
    tabled: &TabledNet,
    heights: &mut Heights,
    inputs: u32,
    outputs: &[u32],
) -> Result<CellLevels, CellsRefusal>
    requires table { IsTabled tabled.now }
    requires inputs { inputs ≡ tabled.now.net.now.inputs }
    requires outputs { outputs.now ≡ tabled.now.net.now.outputs }
    requires fed { IsFed (view_of tabled.now) }
    requires levelled { IsLevelled (view_of tabled.now) (length tabled.now.net.now.defs) (trees heights.old) }
    ensures net { IfOk result (AreLevelsOf tabled.now) }
    ensures fault { IfErr result (λ refusal. IfNotCells refusal (IsFault (view_of tabled.now))) }
{
    tabled.net.known();
    let all = are_shown(tabled, outputs);
    if !all {
        return Err(CellsRefusal::NotCells {
            line: 0,
            kind: CellFault::Outputs,
        });
    }
    let nodes = shown_nodes(alloc, tabled, inputs, outputs)?;
    on_one_level(alloc, tabled, heights, &nodes)
}

/// The levels, where all definitions are without fault.
fn fed(
    alloc: Global,
    tabled: &TabledNet,
    heights: &mut Heights,
    _taken: &[bool],
) -> Result<CellLevels, CellsRefusal>
    requires table { IsTabled tabled.now }
    requires all { IsJudged (view_of tabled.now) (length tabled.now.net.now.defs) (trees heights.old) _taken.now }
    ensures net { IfOk result (AreLevelsOf tabled.now) }
    ensures fault { IfErr result (λ refusal. IfNotCells refusal (IsFault (view_of tabled.now))) }
{
    heights.known();
    let inputs = tabled.net.input_count();
    let used = are_used(tabled, inputs);
    if !used {
        return Err(CellsRefusal::NotCells {
            line: 0,
            kind: CellFault::Uses,
        });
    }
    shown(
        alloc,
        tabled,
        heights,
        inputs,
        tabled.net.outputs().as_slice(),
    )
}

/// The levels of a netlist that is to be judged, or its first fault.
fn judged(
    alloc: Global,
    tabled: &TabledNet,
    heights: &mut Heights,
    taken: &mut [bool],
) -> Result<CellLevels, CellsRefusal>
    requires table { IsTabled tabled.now }
    requires start { IsJudged (view_of tabled.now) 0 (trees heights.old) taken.old }
    ensures net { IfOk result (AreLevelsOf tabled.now) }
    ensures fault { IfErr result (λ refusal. IfNotCells refusal (IsFault (view_of tabled.now))) }
{
    let defs = tabled.net.defs().as_slice();
    match first_fault(tabled, heights, taken, defs) {
        Some(fault) => Err(told_of(tabled, fault)),
        None => fed(alloc, tabled, heights, taken),
    }
}

/// The refusal for the fault of a definition.
fn told_of(_tabled: &TabledNet, fault: (u64, CellFault)) -> CellsRefusal
    requires { IsFaultOfDef (view_of _tabled.now) fault.0 fault.1 }
    ensures { IfNotCells result (IsFault (view_of _tabled.now)) }
{
    CellsRefusal::NotCells {
        line: fault.0,
        kind: fault.1,
    }
}

/// No input is taken.
fn none_taken(alloc: Global, inputs: u32) -> Result<Vec<bool>, Memory>
    ensures { IfOk result (λ taken. taken.items ≡ replicate inputs false) }
{
    Ok(vec![in alloc; false; inputs as usize]?)
}

/// The levels of the cells of a netlist, where splitters may have three outputs or not; or why it is none of cells: its
/// first fault. It is refused otherwise for want of memory alone. The time is near-linear in the size of the netlist.
pub fn cell_levels(alloc: Global, net: &Netlist, three: bool) -> Result<CellLevels, CellsRefusal>
    ensures net { IfOk result (λ cells. IsNetOfCells net.now three cells.levels cells.last) }
    ensures fault { IfErr result (λ refusal. IfNotCells refusal (HasFirstFault net.now three)) }
{
    net.known();
    let table = cell_table(alloc, net)?;
    let nodes = net.defs().len() as u32 + 1;
    let mut heights = Heights::new(alloc, nodes)?;
    let mut taken = none_taken(alloc, net.input_count())?;
    let tabled = TabledNet {
        net,
        table: &table,
        three,
    };
    judged(alloc, &tabled, &mut heights, &mut taken)
}
