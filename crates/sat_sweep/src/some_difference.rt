// Some difference of two circuits, which need not be the first one.
ghost use Rattle.std.specs.Prelude.{◌≡◌, ◌<◌, ◌^◌, length, IfOk, IfSome};
ghost use Rattle.circuit.specs.CellNets.{IsCells};
ghost use Rattle.sat_sweep.specs.Code.Differences.{IsOther, DiffersAt, IsDifference};

use aq_base::{List, Memory};
use circuit::{Word, gate_values, value_at};
use decide::Cells;
use std::alloc::Global;

/// How many words are tried.
const WORDS: u64 = 64;

/// An output, and a word at which it differs.
#[derive(Drop)]
pub(crate) struct Difference {
    pub output: u32,
    pub word: Word,
}

/// The first place at which two lists of outputs show different values.
fn first_other(
    outputs: &[u32],
    values: &[bool],
    other_outputs: &[u32],
    other_values: &[bool],
) -> Option<u32>
    requires same { length other_outputs.now ≡ length outputs.now }
    requires few { length outputs.now < 2 ^ 32 }
    ensures { IfSome result (IsOther outputs.now values.now other_outputs.now other_values.now) }
{
    for place in 0..outputs.len() {
        let other = other_outputs[place];
        if value_at(values, outputs[place]) != value_at(other_values, other) {
            return Some(place as u32);
        }
    }
    None
}

/// The first output that differs at a word.
#[tactic(auto, using(crate::proofs::Differing::differs_at))]
fn output_at(alloc: Global, one: &Cells, other: &Cells, word: &Word) -> Result<Option<u32>, Memory>
    requires outputs { length other.now.outputs ≡ length one.now.outputs }
    ensures { IfOk result (λ found. IfSome found (λ output. DiffersAt one.now other.now output word.now)) }
{
    let values = gate_values(alloc, one.gates.as_slice(), word.as_slice())?;
    let others = gate_values(alloc, other.gates.as_slice(), word.as_slice())?;
    Ok(first_other(
        one.outputs.as_slice(),
        &values,
        other.outputs.as_slice(),
        &others,
    ))
}

/// The next state of a generator of words (Marsaglia's xorshift of 64 bits).
fn next_state(state: u64) -> u64 {
    let state = state ^ (state << 13);
    let state = state ^ (state >> 7);
    state ^ (state << 17)
}

/// A word of so many inputs, by its number. One word in four has few ones, and one few zeros.
fn word_of(alloc: Global, inputs: u32, number: u64) -> Result<Word, Memory>
    ensures { IfOk result (λ word. length word ≡ inputs) }
{
    let mut word = List::new(alloc);
    let mut state = number.wrapping_mul(0x9e37_79b9_7f4a_7c15) | 1;
    for _input in 0..inputs {
        state = next_state(state);
        let ones = state >> 32;
        word.push(match number % 4 {
            0 => ones % 8 == 0,
            1 => ones % 8 != 0,
            _ => ones % 2 == 0,
        })?;
    }
    Ok(word)
}

/// A difference of two circuits of the same counts, if one of a few words shows one.
pub(crate) fn some_difference(
    alloc: Global,
    one: &Cells,
    other: &Cells,
) -> Result<Option<Difference>, Memory>
    requires outputs { length other.now.outputs ≡ length one.now.outputs }
    ensures { IfOk result (λ found. IfSome found (λ found. IsDifference one.now other.now found.output found.word)) }
{
    for number in 0..WORDS {
        let word = word_of(alloc, one.inputs, number)?;
        if let Some(output) = output_at(alloc, one, other, &word)? {
            return Ok(Some(Difference { output, word }));
        }
    }
    Ok(None)
}
