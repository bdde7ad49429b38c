// Names, and the uses and inputs of cells.
ghost use Rattle.std.specs.Prelude.{◌≡◌, ◌+◌, ◌<◌, ◌&&◌, Bool, true, false, length, nat_lt, slice_get, slice_index_or};
ghost use Rattle.std.specs.Prelude.{slice_set, Some};
ghost use Rattle.std.specs.List.{list_any};
ghost use Rattle.cell_netlist.specs.Uses.{gate_of, is_buffer, is_buffer_of_buffer, is_name, may_have, with_gates};
ghost use Rattle.cell_netlist.specs.Faults.{is_fed_well};
ghost use Rattle.cell_netlist.specs.Tables.{IsTableOf};
ghost use Rattle.cell_netlist.specs.Code.Tables.{shares, take_all};
ghost use Rattle.cell_netlist.specs.Code.Tabled.{view_of};

use crate::counts::CellTable;
use crate::tabled_net::TabledNet;
use blif_read::{Def, Netlist};
use circuit::{Answers, Gate};

/// The gate of a signal; none of an input.
pub fn gate_of(net: &Netlist, table: &CellTable, signal: u32) -> Option<Gate>
    ensures { (three : Bool) → result ≡ gate_of (with_gates net.now table.now.gates.items three) signal }
{
    let inputs = net.input_count();
    if signal < inputs {
        return None;
    }
    match table.gates.get((signal - inputs) as usize) {
        Some(gate) => *gate,
        None => None,
    }
}

/// Whether a gate is a buffer.
pub(crate) fn is_buffer(gate: Option<Gate>) -> bool
    ensures { result ≡ is_buffer gate }
{
    match gate {
        Some(Gate::Buf(_)) => true,
        _ => false,
    }
}

/// Whether a gate is a buffer of a buffer.
fn buffers_buffer(net: &Netlist, table: &CellTable, gate: Gate) -> bool
    ensures { (three : Bool)
        → result ≡ is_buffer_of_buffer (with_gates net.now table.now.gates.items three) (Some gate) }
{
    match gate {
        Gate::Buf(x) => is_buffer(gate_of(net, table, x)),
        _ => false,
    }
}

/// Whether there is a gate, and it is a buffer of a buffer.
fn is_buffer_of_buffer(net: &Netlist, table: &CellTable, gate: Option<Gate>) -> bool
    ensures { (three : Bool) → result ≡ is_buffer_of_buffer (with_gates net.now table.now.gates.items three) gate }
{
    match gate {
        Some(gate) => buffers_buffer(net, table, gate),
        None => false,
    }
}

/// Whether a signal is a name.
pub fn is_name(net: &Netlist, table: &CellTable, signal: u32) -> bool
    requires table { IsTableOf net.now table.now.gates.items table.now.used.items table.now.shown.items }
    requires signal { signal < net.now.inputs + length net.now.defs }
    ensures { (three : Bool) → result ≡ is_name (with_gates net.now table.now.gates.items three) signal }
{
    let buffers = is_buffer_of_buffer(net, table, gate_of(net, table, signal));
    let once = table.shown[signal as usize] == 1;
    let unused = table.used[signal as usize] == 0;
    all_three(buffers, once, unused)
}

/// Whether all three hold.
fn all_three(a: bool, b: bool, c: bool) -> bool
    ensures { result ≡ (a && b && c) }
{
    a && b && c
}

/// Whether a cell may have so many uses.
pub(crate) fn may_have(tabled: &TabledNet, gate: Gate, uses: u32) -> bool
    ensures { result ≡ may_have (view_of tabled.now) gate uses }
{
    let most = if tabled.three { 3 } else { 2 };
    match gate {
        Gate::Buf(x) => (1 <= uses && uses <= most) || (x < tabled.net.input_count() && uses == 0),
        _ => uses == 1,
    }
}

/// Whether definition `j` is a buffer and no splitter, or none of its signals is an input.
pub(crate) fn is_fed_well(net: &Netlist, table: &CellTable, j: u32, def: &Def, gate: Gate) -> bool
    requires table { IsTableOf net.now table.now.gates.items table.now.used.items table.now.shown.items }
    requires here { slice_get net.now.defs j ≡ Some def.now }
    ensures { (three : Bool)
        → result ≡ is_fed_well (with_gates net.now table.now.gates.items three) j def.now gate }
{
    net.known();
    let few = table.used[(net.input_count() + j) as usize] <= 1;
    (is_buffer(Some(gate)) && few) || !reads_input(net, def)
}

/// Whether a definition names an input.
fn reads_input(net: &Netlist, def: &Def) -> bool
    ensures { result ≡ list_any (λ s. nat_lt s net.now.inputs) def.now.inputs }
{
    let inputs = net.input_count();
    for signal in def.inputs.as_slice() {
        if *signal < inputs {
            return true;
        }
    }
    false
}

/// Whether one of these signals is an input that is taken.
pub(crate) fn shares(taken: &[bool], signals: &[u32]) -> bool
    ensures { result ≡ shares taken.now signals.now }
{
    for signal in signals {
        if is_taken(taken, *signal) {
            return true;
        }
    }
    false
}

/// Whether a signal is an input that is taken.
fn is_taken(taken: &[bool], signal: u32) -> bool
    ensures { result ≡ slice_index_or taken.now signal false }
{
    taken.get(signal as usize).copied().unwrap_or(false)
}

/// Takes an input, if the signal is one.
fn take_one(taken: &mut [bool], signal: u32)
    ensures { taken.new ≡ slice_set taken.old signal true }
{
    let place = signal as usize;
    if place < taken.len() {
        taken[place] = true;
    }
}

/// Takes the inputs among these signals.
pub(crate) fn take_inputs(taken: &mut [bool], signals: &[u32])
    ensures { taken.new ≡ take_all taken.old signals.now }
{
    for signal in signals {
        take_one(taken, *signal);
    }
}
