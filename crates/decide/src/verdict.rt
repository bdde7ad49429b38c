// The comparison of two circuits, for all words.
ghost use Rattle.std.specs.Prelude.{◌≡◌, ◌<◌, ◌^◌, length, IfOk, IfErr, IfSome};
ghost use Rattle.circuit.specs.PlainNets.{PlainView};
ghost use Rattle.circuit.specs.CellNets.{circuit, IsCells};
ghost use Rattle.decide.specs.Verdicts.{IsVerdict, IsRefusal};

use crate::both::Both;
use crate::gates::edge_of;
use crate::order::{ranks, renumbered, undoes};
use crate::walk::walked;
use crate::{Cells, DecideRefusal};
use aq_base::Memory;
use circuit::{Gate, Word};
use std::alloc::Global;

/// What a comparison finds.
#[derive(Drop)]
pub enum Verdict {
    /// Both circuits answer every word alike.
    Equal,
    /// `output` is the number, from 0, of the least output on which some word gives different values, and `word` the
    /// least such word: input 0 decides first, and false comes before true.
    LeastDifference { output: u32, word: Word },
    /// `output` is the number of an output that differs at `word`. Lower outputs may differ too, and lesser words may
    /// show it: the two circuits have more than 1,000,000 subfunctions. `decide` never says so.
    SomeDifference { output: u32, word: Word },
}

/// The comparison of two circuits of so many inputs, with these gates and outputs, in rising variable order.
fn compare(
    alloc: Global,
    inputs: u32,
    gates: &[Gate],
    outputs: &[u32],
    other_gates: &[Gate],
    other_outputs: &[u32],
) -> Result<Verdict, DecideRefusal>
    requires first { IsCells (circuit inputs gates.now outputs.now) }
    requires second { IsCells (circuit inputs other_gates.now other_outputs.now) }
    requires outputs { length other_outputs.now ≡ length outputs.now }
    ensures verdict { IfOk result
        (IsVerdict (circuit inputs gates.now outputs.now) (circuit inputs other_gates.now other_outputs.now)) }
    ensures refusal { IfErr result
        (IsRefusal (circuit inputs gates.now outputs.now) (circuit inputs other_gates.now other_outputs.now)) }
{
    let both = Both::new(alloc, inputs, gates, other_gates)?;
    match both.first_difference(outputs, other_outputs) {
        None => Ok(Verdict::Equal),
        Some(output) => {
            let left = edge_of(&both.first, outputs[output]);
            let right = edge_of(&both.second, other_outputs[output]);
            let word = both.diagram.least_word(alloc, inputs, left, right)?;
            Ok(Verdict::LeastDifference {
                output: output as u32,
                word,
            })
        }
    }
}

/// An order of variables: the inputs in this order, and the place of each input in it.
#[derive(Clone, Copy)]
struct VariableOrder<'a> {
    inputs: &'a [u32],
    rank: &'a [u32],
}

/// The comparison in a variable order, where its two lists undo each other and the diagram is large enough for it.
fn compare_in(
    alloc: Global,
    order: &VariableOrder,
    gates: &[Gate],
    outputs: &[u32],
    other_gates: &[Gate],
    other_outputs: &[u32],
) -> Result<Option<Verdict>, Memory>
    requires few { length order.now.rank.now < 2 ^ 32 }
    requires first { IsCells (circuit (length order.now.rank.now) gates.now outputs.now) }
    requires second { IsCells (circuit (length order.now.rank.now) other_gates.now other_outputs.now) }
    requires outputs { length other_outputs.now ≡ length outputs.now }
    ensures { IfOk result (λ found. IfSome found
        (IsVerdict (circuit (length order.now.rank.now) gates.now outputs.now)
        (circuit (length order.now.rank.now) other_gates.now other_outputs.now))) }
{
    if !undoes(order.inputs, order.rank) || !undoes(order.rank, order.inputs) {
        return Ok(None);
    }
    let again = renumbered(alloc, gates, order.rank)?;
    let other = renumbered(alloc, other_gates, order.rank)?;
    let mut both = match Both::new(alloc, order.rank.len() as u32, &again, &other) {
        Ok(both) => both,
        Err(_) => return Ok(None),
    };
    match both.first_difference(outputs, other_outputs) {
        None => Ok(Some(Verdict::Equal)),
        Some(output) => {
            let left = edge_of(&both.first, outputs[output]);
            let right = edge_of(&both.second, other_outputs[output]);
            match both.diagram.least_word_in(alloc, order.rank, left, right) {
                Ok(word) => Ok(Some(Verdict::LeastDifference {
                    output: output as u32,
                    word,
                })),
                Err(_) => Ok(None),
            }
        }
    }
}

/// Whether two circuits of the same counts answer every word alike, and where they do not, the least output on which
/// some word gives different values, and the least such word. `TooMany` comes only where the two circuits have more
/// than 1,000,000 subfunctions, and `Memory` only where memory is refused. How many majorities are made, and so the
/// time, is bounded by memory alone: the computed table grows with them.
pub fn decide(alloc: Global, a: &Cells, b: &Cells) -> Result<Verdict, DecideRefusal>
    requires inputs { b.now.inputs ≡ a.now.inputs }
    requires outputs { length b.now.outputs ≡ length a.now.outputs }
    ensures verdict { IfOk result (IsVerdict a.now b.now) }
    ensures refusal { IfErr result (IsRefusal a.now b.now) }
{
    let (gates, outputs) = (a.gates.as_slice(), a.outputs.as_slice());
    let (other_gates, other_outputs) = (b.gates.as_slice(), b.outputs.as_slice());
    // A diagram in an order that is mostly a good one; a refusal is justified by rising order alone.
    let inputs = walked(alloc, a.inputs, gates, outputs)?;
    let rank = ranks(alloc, a.inputs, &inputs)?;
    let order = VariableOrder {
        inputs: &inputs,
        rank: &rank,
    };
    match compare_in(alloc, &order, gates, outputs, other_gates, other_outputs)? {
        Some(verdict) => Ok(verdict),
        None => compare(alloc, a.inputs, gates, outputs, other_gates, other_outputs),
    }
}
