// Levels of cells, as heights of nodes.
ghost use Rattle.std.specs.Prelude.{◌≡◌, ◌<◌, ◌^◌, ℕ, true, false, length, slice_index, suc, slice_get, Some};
ghost use Rattle.union_find.specs.Forests.{trees};
ghost use Rattle.circuit.specs.declared.gate.Gate.{Gate as CellGate};
ghost use Rattle.cell_netlist.specs.Code.Progress.{node_of, IsAdded, IsNotAdded, IsLevelled, HasNoLevels};
ghost use Rattle.cell_netlist.specs.Code.Tabled.{view_of, IsTabled};

use crate::tabled_net::TabledNet;
use blif_read::Def;
use circuit::Answers;
use union_find::Heights;

/// The node of a signal.
pub(crate) fn node_of(inputs: u32, signal: u32) -> u32
    requires { signal < 2 ^ 31 }
    ensures { result ≡ node_of inputs signal }
{
    if signal < inputs {
        0
    } else {
        signal - inputs + 1
    }
}

/// Adds that a node is one higher than each of these signals. Where no heights are so, it answers false.
fn add_rises(heights: &mut Heights, inputs: u32, upper: u32, signals: &[u32]) -> bool
    requires upper { upper < (trees heights.old).count }
    requires few { (k : ℕ) → k < length signals.now → slice_index signals.now k < 2 ^ 31 }
    requires signals { (k : ℕ) → k < length signals.now
        → node_of inputs (slice_index signals.now k) < (trees heights.old).count }
    ensures added { result ≡ true
        → IsAdded (trees heights.old) (trees heights.new) inputs upper signals.now (length signals.now) }
    ensures refused { result ≡ false → IsNotAdded (trees heights.old) inputs upper signals.now }
{
    for signal in signals {
        if !heights.join(upper, node_of(inputs, *signal), 1) {
            return false;
        }
    }
    true
}

/// Adds the level of the cell of definition `j`; nothing, where it is a name. Where no levels fit, it answers false.
pub(crate) fn add_cell(heights: &mut Heights, tabled: &TabledNet, j: u32, def: &Def) -> bool
    requires table { IsTabled tabled.now }
    requires here { slice_get tabled.now.net.now.defs j ≡ Some def.now }
    requires gate { (gate : CellGate) × (slice_get tabled.now.table.now.gates.items j ≡ Some (Some gate)) }
    requires levelled { IsLevelled (view_of tabled.now) j (trees heights.old) }
    ensures added { result ≡ true
        → IsLevelled (view_of tabled.now) (suc j) (trees heights.new) }
    ensures refused { result ≡ false → HasNoLevels (view_of tabled.now) (suc j) }
{
    tabled.net.known();
    let inputs = tabled.net.input_count();
    let name = tabled.is_name(inputs + j);
    if name {
        return true;
    }
    add_rises(heights, inputs, j + 1, def.inputs.as_slice())
}
