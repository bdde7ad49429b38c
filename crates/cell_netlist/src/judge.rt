// The faults of definitions, one after another.
ghost use Rattle.std.specs.Prelude.{◌≡◌, ◌+◌, ◌<◌, ◌||◌, ◌&&◌, not, length, take, slice_get, Some, true, false, IfOk};
ghost use Rattle.std.specs.Prelude.{IfErr, IfSome, IsNone};
ghost use Rattle.union_find.specs.Forests.{trees};
ghost use Rattle.cell_netlist.specs.Uses.{named, uses, is_name, is_used_well, shares_input, may_have, with_gates};
ghost use Rattle.cell_netlist.specs.Faults.{HasFault, IsFaultOfDef};
ghost use Rattle.cell_netlist.specs.Tables.{IsTableOf};
ghost use Rattle.cell_netlist.specs.Code.Tables.{IsTaken};
ghost use Rattle.cell_netlist.specs.Code.Progress.{IsSoundGate, IsJudged, IsLevelled};
ghost use Rattle.cell_netlist.specs.Code.Tabled.{view_of, IsTabled};

use crate::counts::CellTable;
use crate::fault::CellFault;
use crate::levels::add_cell;
use crate::names::{is_fed_well, may_have, shares, take_inputs};
use crate::tabled_net::TabledNet;
use blif_read::{Def, Netlist};
use circuit::{Answers, Gate};
use union_find::Heights;

/// The gate of definition `j`, if it computes one.
fn gate_at(table: &CellTable, j: u32) -> Option<Gate>
    requires { j < length table.now.gates.items }
    ensures { slice_get table.now.gates.items j ≡ Some result }
{
    table.gates[j as usize]
}

/// How many uses a signal has.
pub fn uses_of(_net: &Netlist, table: &CellTable, _three: bool, signal: u32) -> u32
    requires table { IsTableOf _net.now table.now.gates.items table.now.used.items table.now.shown.items }
    requires signal { signal < _net.now.inputs + length _net.now.defs }
    ensures { result ≡ uses (with_gates _net.now table.now.gates.items _three) signal }
{
    table.used[signal as usize]
}

/// Whether definition `j` is a name, or has as many uses as its gate may.
fn is_used(tabled: &TabledNet, signal: u32, gate: Gate) -> bool
    requires table { IsTabled tabled.now }
    requires signal { signal < tabled.now.net.now.inputs + length tabled.now.net.now.defs }
    ensures { let d = view_of tabled.now in
        result ≡ (is_name d signal || may_have d gate (uses d signal)) }
{
    let name = tabled.is_name(signal);
    let fine = may_have(tabled, gate, tabled.uses_of(signal));
    name || fine
}

/// Whether definition `j` is a name or has as many uses as it may, and names no input that is taken.
fn is_used_well(tabled: &TabledNet, taken: &[bool], j: u32, def: &Def, gate: Gate) -> bool
    requires table { IsTabled tabled.now }
    requires here { slice_get tabled.now.net.now.defs j ≡ Some def.now }
    requires taken { IsTaken taken.now tabled.now.net.now.inputs (named (take j tabled.now.net.now.defs)) }
    ensures { result ≡ is_used_well (view_of tabled.now) j def.now gate }
{
    tabled.net.known();
    let used = is_used(tabled, tabled.net.input_count() + j, gate);
    let shared = shares(taken, def.inputs.as_slice());
    used && !shared
}

/// The gate of definition `j`, or what is wrong with it apart from its level.
fn checked(tabled: &TabledNet, taken: &[bool], j: u32, def: &Def) -> Result<Gate, CellFault>
    requires table { IsTabled tabled.now }
    requires here { slice_get tabled.now.net.now.defs j ≡ Some def.now }
    requires taken { IsTaken taken.now tabled.now.net.now.inputs (named (take j tabled.now.net.now.defs)) }
    ensures ok { IfOk result (λ gate. IsSoundGate (view_of tabled.now) j def.now gate) }
    ensures err { IfErr result (λ kind. HasFault (view_of tabled.now) j def.now kind) }
{
    let Some(gate) = gate_at(tabled.table, j) else {
        return Err(CellFault::Cover);
    };
    let used = is_used_well(tabled, taken, j, def, gate);
    if !used {
        return Err(CellFault::Uses);
    }
    let fed = is_fed_well(tabled.net, tabled.table, j, def, gate);
    if !fed {
        return Err(CellFault::Level);
    }
    Ok(gate)
}

/// Judges definition `j` after those before it: what is wrong with it, if anything is.
pub(crate) fn judge(
    tabled: &TabledNet,
    heights: &mut Heights,
    taken: &mut [bool],
    j: u32,
    def: &Def,
) -> Option<CellFault>
    requires table { IsTabled tabled.now }
    requires here { slice_get tabled.now.net.now.defs j ≡ Some def.now }
    requires judged { IsJudged (view_of tabled.now) j (trees heights.old) taken.old }
    ensures fault { IfSome result (λ kind. HasFault (view_of tabled.now) j def.now kind) }
    ensures next { IsNone result
        → IsJudged (view_of tabled.now) (j + 1) (trees heights.new) taken.new }
{
    let _gate = match checked(tabled, taken, j, def) {
        Ok(gate) => gate,
        Err(kind) => return Some(kind),
    };
    let added = add_cell(heights, tabled, j, def);
    if !added {
        return Some(CellFault::Level);
    }
    take_inputs(taken, def.inputs.as_slice());
    None
}

/// The first fault of a definition, with its line.
pub(crate) fn first_fault(
    tabled: &TabledNet,
    heights: &mut Heights,
    taken: &mut [bool],
    defs: &[Def],
) -> Option<(u64, CellFault)>
    requires table { IsTabled tabled.now }
    requires defs { defs.now ≡ tabled.now.net.now.defs }
    requires start { IsJudged (view_of tabled.now) 0 (trees heights.old) taken.old }
    ensures fault { IfSome result (λ p. IsFaultOfDef (view_of tabled.now) p.0 p.1) }
    ensures none { IsNone result
        → IsJudged (view_of tabled.now) (length tabled.now.net.now.defs) (trees heights.new) taken.new }
{
    tabled.net.known();
    for (j, def) in defs.iter().enumerate() {
        heights.known();
        if let Some(kind) = judge(tabled, heights, taken, j as u32, def) {
            return Some((def.line, kind));
        }
    }
    None
}
