// Uses of inputs, and the buffers that show outputs.
ghost use Rattle.std.specs.Prelude.{◌≡◌, ◌+◌, ◌<◌, ◌^◌, ℕ, Bool, length, slice_index, true, false, IfOk};
ghost use Rattle.std.specs.List.{list_all};
ghost use Rattle.union_find.specs.Forests.{trees};
ghost use Rattle.cell_netlist.specs.Levels.{buffered, shown_by, is_shown};
ghost use Rattle.cell_netlist.specs.Tables.{IsTableOf};
ghost use Rattle.cell_netlist.specs.Uses.{with_gates};
ghost use Rattle.cell_netlist.specs.Code.Progress.{node_of, HasUnused, AreAllUsed, IsAligned, IsNotAligned};
ghost use Rattle.cell_netlist.specs.Code.Progress.{AreShownNodes};
ghost use Rattle.cell_netlist.specs.Code.Tabled.{view_of, IsTabled};

use crate::counts::CellTable;
use crate::levels::node_of;
use crate::names::gate_of;
use crate::tabled_net::TabledNet;
use aq_base::Memory;
use blif_read::Netlist;
use circuit::Gate;
use std::alloc::Global;
use union_find::Heights;

/// Whether each input has a use.
pub(crate) fn are_used(tabled: &TabledNet, inputs: u32) -> bool
    requires table { IsTabled tabled.now }
    requires inputs { inputs ≡ tabled.now.net.now.inputs }
    ensures yes { result ≡ true → AreAllUsed (view_of tabled.now) }
    ensures no { result ≡ false → HasUnused (view_of tabled.now) }
{
    for input in 0..inputs {
        let uses = tabled.uses_of(input);
        if uses == 0 {
            return false;
        }
    }
    true
}

/// The signal that a gate is the buffer of, and another one for other gates.
fn buffered(gate: Option<Gate>, other: u32) -> u32
    ensures { result ≡ buffered gate other }
{
    match gate {
        Some(Gate::Buf(x)) => x,
        _ => other,
    }
}

/// The buffer that an output is a name of.
pub fn shown_by(net: &Netlist, table: &CellTable, _three: bool, signal: u32) -> u32
    requires table { IsTableOf net.now table.now.gates.items table.now.used.items table.now.shown.items }
    requires signal { signal < net.now.inputs + length net.now.defs }
    ensures is { result ≡ shown_by (with_gates net.now table.now.gates.items _three) signal }
    ensures within { result < net.now.inputs + length net.now.defs }
{
    net.known();
    buffered(gate_of(net, table, signal), signal)
}

/// Whether an output is a name of a buffer that has no other use.
fn is_shown(tabled: &TabledNet, signal: u32) -> bool
    requires table { IsTabled tabled.now }
    requires signal { signal < tabled.now.net.now.inputs + length tabled.now.net.now.defs }
    ensures { result ≡ is_shown (view_of tabled.now) signal }
{
    let name = tabled.is_name(signal);
    let uses = tabled.uses_of(tabled.shown_by(signal));
    name && uses == 1
}

/// Whether all these outputs are shown.
pub(crate) fn are_shown(tabled: &TabledNet, outputs: &[u32]) -> bool
    requires table { IsTabled tabled.now }
    requires outputs { (k : ℕ) → k < length outputs.now
        → slice_index outputs.now k < tabled.now.net.now.inputs + length tabled.now.net.now.defs }
    ensures { result ≡ list_all (is_shown (view_of tabled.now)) outputs.now }
{
    for output in outputs {
        let shown = is_shown(tabled, *output);
        if !shown {
            return false;
        }
    }
    true
}

/// The nodes of the buffers that show outputs.
pub(crate) fn shown_nodes(
    alloc: Global,
    tabled: &TabledNet,
    inputs: u32,
    outputs: &[u32],
) -> Result<Vec<u32>, Memory>
    requires table { IsTabled tabled.now }
    requires inputs { inputs ≡ tabled.now.net.now.inputs }
    requires outputs { (k : ℕ) → k < length outputs.now
        → slice_index outputs.now k < tabled.now.net.now.inputs + length tabled.now.net.now.defs }
    ensures { IfOk result (λ nodes. AreShownNodes (view_of tabled.now) outputs.now nodes.items
        (length outputs.now)) }
{
    tabled.net.known();
    let mut nodes = Vec::with_capacity(alloc, outputs.len())?;
    for output in outputs {
        let shown = tabled.shown_by(*output);
        nodes.push(node_of(inputs, shown))?;
    }
    Ok(nodes)
}

/// Adds that these nodes are as high as another one. Where no heights are so, it answers false.
pub(crate) fn align(heights: &mut Heights, first: u32, nodes: &[u32]) -> bool
    requires first { first < (trees heights.old).count }
    requires nodes { (k : ℕ) → k < length nodes.now → slice_index nodes.now k < (trees heights.old).count }
    ensures aligned { result ≡ true
        → IsAligned (trees heights.old) (trees heights.new) first nodes.now (length nodes.now) }
    ensures refused { result ≡ false → IsNotAligned (trees heights.old) first nodes.now }
{
    for node in nodes {
        if !heights.join(*node, first, 0) {
            return false;
        }
    }
    true
}
