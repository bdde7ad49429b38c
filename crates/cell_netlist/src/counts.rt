// How often signals are named, and how often they are outputs.
ghost use Rattle.std.specs.Prelude.{◌≡◌, ◌+◌, ◌<◌, ◌^◌, ℕ, [], length, slice_index, IfOk};
ghost use Rattle.cell_netlist.specs.Uses.{named};
ghost use Rattle.cell_netlist.specs.Tables.{AreCounts, IsBumped, IsTableOf};

use crate::covers::gates_of;
use aq_base::Memory;
use blif_read::{Def, Netlist};
use circuit::{Answers, Gate};
use std::alloc::Global;

/// The signals that definitions name, each as often as it is named.
fn named(alloc: Global, defs: &[Def]) -> Result<Vec<u32>, Memory>
    ensures { IfOk result (λ signals. signals.items ≡ named defs.now) }
{
    let mut signals = Vec::new(alloc);
    for def in defs {
        signals.extend_from_slice(def.inputs.as_slice())?;
    }
    Ok(signals)
}

/// One more at a number, if there is such a place. The caller sees to it that each count has room for one more.
pub fn bump(counts: &mut [u32], number: u32)
    requires { (s : ℕ) → s < length counts.old → slice_index counts.old s + 1 < 2 ^ 32 }
    ensures { IsBumped counts.old counts.new number }
{
    let place = number as usize;
    if place < counts.len() {
        counts[place] += 1;
    }
}

/// How often each place of a list of zeros stands among numbers.
fn count_into(counts: &mut [u32], numbers: &[u32])
    requires few { length numbers.now < 2 ^ 32 }
    requires zeros { AreCounts counts.old (length counts.old) [] }
    ensures { AreCounts counts.new (length counts.old) numbers.now }
{
    for number in numbers {
        bump(counts, *number);
    }
}

/// How often each number below a bound stands among others.
fn counts(alloc: Global, numbers: &[u32], bound: u32) -> Result<Vec<u32>, Memory>
    requires { length numbers.now < 2 ^ 32 }
    ensures { IfOk result (λ counts. AreCounts counts.items bound numbers.now) }
{
    let mut counts = vec![in alloc; 0; bound as usize]?;
    count_into(&mut counts, numbers);
    Ok(counts)
}

/// What is counted of a netlist: the gates of its definitions, the uses of its signals, and how often each is an
/// output.
#[derive(Drop)]
pub struct CellTable {
    pub gates: Vec<Option<Gate>>,
    pub used: Vec<u32>,
    pub shown: Vec<u32>,
}

/// The table of a netlist.
pub fn cell_table(alloc: Global, net: &Netlist) -> Result<CellTable, Memory>
    ensures { IfOk result (λ table. IsTableOf net.now table.gates.items table.used.items table.shown.items) }
{
    net.known();
    let defs = net.defs().as_slice();
    let bound = net.name_count();
    let signals = named(alloc, defs)?;
    Ok(CellTable {
        gates: gates_of(alloc, defs)?,
        used: counts(alloc, &signals, bound)?,
        shown: counts(alloc, net.outputs().as_slice(), bound)?,
    })
}
