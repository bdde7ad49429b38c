// The netlist of a design from its wires and its definitions.
ghost use Rattle.std.specs.Prelude.{◌≡◌, IfOk, IfErr, OnOk, Some, None};
ghost use Rattle.blif_read.specs.Faults.{line_of};
ghost use Rattle.blif_read.specs.Made.{IfCycle};
ghost use Rattle.blif_read.specs.Netlist.{AreParts};
ghost use Rattle.blif_read.specs.Walk.{first_cycle};
ghost use Rattle.blif_flat.specs.Code.Finished.{net_of, closed, IsUnfinished};
ghost use Rattle.blif_flat.specs.Code.Wired.{wires_of};

use crate::design::FlatRefusal;
use crate::expansion::wire_names::{kept_names, told_names};
use crate::expansion::wires::Place;
use aq_base::{List, Memory};
use blif_read::{BlifFault, Def, MakeRefusal, Netlist, make_netlist};
use std::alloc::Global;

/// The line of a signal's definition; 0 where it has none.
fn line_of(inputs: u32, defs: &[Def], signal: u32) -> u64
    ensures { result ≡ line_of inputs defs.now signal }
{
    match defs.get(signal.saturating_sub(inputs) as usize) {
        Some(def) => def.line,
        None => 0,
    }
}

/// A cycle, by the line of its first signal and by the names that the signals have in the design.
fn closed(
    alloc: Global,
    inputs: u32,
    places: &[Place<'_>],
    defs: &[Def],
    cycle: &[u32],
) -> Result<BlifFault, Memory>
    ensures { IfOk result (λ fault. fault ≡ closed inputs (wires_of places.now) defs.now cycle.now) }
{
    let first = cycle.first().copied().unwrap_or(0);
    let line = line_of(inputs, defs, first);
    let signals = told_names(alloc, places, cycle)?;
    Ok(BlifFault::Cycle { line, signals })
}

/// Why there is no netlist, by why its parts gave none.
fn refused(
    alloc: Global,
    inputs: u32,
    places: &[Place<'_>],
    defs: &[Def],
    refusal: &MakeRefusal,
) -> FlatRefusal
    requires { IfCycle refusal.now (λ signals. first_cycle inputs defs.now ≡ Some signals) }
    ensures { IsUnfinished inputs (wires_of places.now) defs.now result }
{
    match refusal {
        MakeRefusal::Cycle { signals } => {
            match closed(alloc, inputs, places, defs, signals.as_slice()) {
                Ok(fault) => FlatRefusal::Text(fault),
                Err(_) => FlatRefusal::Memory,
            }
        }
        MakeRefusal::Memory => FlatRefusal::Memory,
    }
}

/// The netlist of wires and definitions that have its parts. It is refused where the definitions have a cycle, by the
/// first, and else for want of memory alone.
pub fn finish(
    alloc: Global,
    inputs: u32,
    places: &[Place<'_>],
    defs: &List<Def>,
    outputs: &List<u32>,
) -> Result<Netlist, FlatRefusal>
    requires { AreParts (net_of inputs (wires_of places.now) defs.now outputs.now) }
    ensures ok { IfOk result (λ net. net ≡ net_of inputs (wires_of places.now) defs.now outputs.now) }
    ensures sound { OnOk result (first_cycle inputs defs.now ≡ None) }
    ensures refused { IfErr result (IsUnfinished inputs (wires_of places.now) defs.now) }
{
    let names = kept_names(alloc, places)?;
    match make_netlist(alloc, inputs, &names, defs, outputs) {
        Ok(net) => Ok(net),
        Err(refusal) => Err(refused(alloc, inputs, places, defs.as_slice(), &refusal)),
    }
}
