// The depth-first walk over the definitions, with a stack of its own.
ghost use Rattle.std.specs.Prelude.{◌≡◌, ◌<◌, ◌≤◌, ◌+◌, ◌^◌, length, map, IfOk, OnOk};
ghost use Rattle.blif_read.specs.Netlist.{IsNetlist};
ghost use Rattle.maj_mapping.specs.Plan.{gate_or, signals, leave};
ghost use Rattle.maj_mapping.specs.Code.Walks.{walk, mapping, IsStanding};

use crate::define::define;
use crate::maker::Maker;
use crate::tables::Tables;
use aq_base::{List, Memory};
use blif_read::Netlist;
use circuit::Answers;
use std::alloc::Global;

/// A signal whose inputs before `at` were walked.
#[derive(Clone, Copy)]
pub struct Visit {
    pub signal: u32,
    pub at: usize,
}

/// The gate of a signal, and 0 where it has none.
fn gate_of_signal(gate_of: &[Option<u32>], signal: u32) -> u32
    ensures { result ≡ gate_or gate_of.now signal }
{
    gate_of
        .get(signal as usize)
        .copied()
        .unwrap_or(None)
        .unwrap_or(0)
}

/// The gates of signals.
pub fn gates_of(alloc: Global, gate_of: &[Option<u32>], signals: &[u32]) -> Result<Vec<u32>, Memory>
    ensures { IfOk result (λ gates. gates.items ≡ map (gate_or gate_of.now) signals.now) }
{
    let mut gates = Vec::with_capacity(alloc, signals.len())?;
    for signal in signals {
        gates.push(gate_of_signal(gate_of, *signal))?;
    }
    Ok(gates)
}

/// Gives a signal the gate of its definition.
fn leave(
    alloc: Global,
    tables: &Tables,
    net: &Netlist,
    maker: &mut Maker,
    gate_of: &mut List<Option<u32>>,
    signal: u32,
) -> Result<(), Memory>
    requires net { IsNetlist net.now }
    requires defined { net.now.inputs ≤ signal }
    requires within { signal < signals net.now }
    requires standing { IsStanding net.now maker.old gate_of.old }
    requires room { length (leave net.now (mapping maker.old gate_of.old) signal).gates < 2 ^ 32 }
    ensures left { OnOk result (mapping maker.new gate_of.new ≡ leave net.now (mapping maker.old gate_of.old) signal) }
    ensures standing { OnOk result (IsStanding net.now maker.new gate_of.new) }
{
    let def = net.defs().get((signal - net.input_count()) as usize);
    let inputs = gates_of(alloc, gate_of.as_slice(), def.inputs.as_slice())?;
    let gate = define(alloc, tables, maker, &inputs, def)?;
    gate_of.set(signal as usize, Some(gate));
    Ok(())
}

/// Walks from a signal: gives gates to all signals that it needs, and to itself.
pub fn walk(
    alloc: Global,
    tables: &Tables,
    net: &Netlist,
    maker: &mut Maker,
    gate_of: &mut List<Option<u32>>,
    root: u32,
) -> Result<(), Memory>
    requires net { IsNetlist net.now }
    requires root { root < signals net.now }
    requires standing { IsStanding net.now maker.old gate_of.old }
    requires room { length (walk net.now (mapping maker.old gate_of.old) root).gates < 2 ^ 32 }
    ensures walked { OnOk result (mapping maker.new gate_of.new ≡ walk net.now (mapping maker.old gate_of.old) root) }
    ensures standing { OnOk result (IsStanding net.now maker.new gate_of.new) }
{
    let inputs = net.input_count();
    let mut stack: Vec<Visit> = Vec::new(alloc);
    if gate_of.get(root as usize).is_none() {
        stack.push(Visit {
            signal: root,
            at: 0,
        })?;
    }
    while let Some(visit) = stack.pop() {
        let reads = &net.defs().get((visit.signal - inputs) as usize).inputs;
        if visit.at < reads.len() {
            let below = *reads.get(visit.at);
            stack.push(Visit {
                signal: visit.signal,
                at: visit.at + 1,
            })?;
            if gate_of.get(below as usize).is_none() {
                stack.push(Visit {
                    signal: below,
                    at: 0,
                })?;
            }
        } else {
            leave(alloc, tables, net, maker, gate_of, visit.signal)?;
        }
    }
    Ok(())
}
