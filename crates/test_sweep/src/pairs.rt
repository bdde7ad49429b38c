// Pairs of circuits, and what is found of them: by their structure, whether it is decided without their
// diagram, by the verdict, and by all words.
ghost use Rattle.std.specs.Prelude.{◌≡◌, length};

use aq_base::Memory;
use circuit::{Gate, answer_word};
use decide::{Cells, DecideRefusal, Verdict};
use sat_sweep::{are_structurally_equal, swept_verdict, verdict};
use std::alloc::Global;
use test_fixtures::{checked_cells, numbered_word};

// Whether two circuits answer a word alike.
fn agree_at(alloc: Global, one: &Cells, other: &Cells, number: u32) -> Result<bool, Memory>
    requires { other.now.inputs ≡ one.now.inputs }
{
    let word = numbered_word(alloc, one.inputs, number)?;
    let answer = answer_word(alloc, one, &word)?;
    Ok(answer == answer_word(alloc, other, &word)?)
}

// Whether two circuits of fewer than 16 inputs answer all words alike, and two of 32 the word of zeros.
fn agree(alloc: Global, one: &Cells, other: &Cells) -> Result<bool, Memory>
    requires { other.now.inputs ≡ one.now.inputs }
{
    for number in 0..1_u32 << (one.inputs % 16) {
        if !agree_at(alloc, one, other, number)? {
            return Ok(false);
        }
    }
    Ok(true)
}

// Two circuits of so many inputs: their gates and outputs.
#[derive(Clone, Copy)]
pub struct Pair<'a> {
    pub inputs: u32,
    pub gates: &'a [Gate],
    pub outputs: &'a [u32],
    pub other_gates: &'a [Gate],
    pub other_outputs: &'a [u32],
}

// What is found of a pair.
#[derive(Clone, Copy, PartialEq, Eq)]
pub struct Found {
    pub is_alike: bool,
    pub is_decided: bool,
    pub is_equal: bool,
}

// What is found of two circuits.
fn findings(alloc: Global, one: &Cells, other: &Cells) -> Result<Found, DecideRefusal>
    requires inputs { other.now.inputs ≡ one.now.inputs }
    requires outputs { length other.now.outputs ≡ length one.now.outputs }
{
    let is_alike = are_structurally_equal(alloc, one, other)?;
    let is_decided = swept_verdict(alloc, one, other)?.is_some();
    let is_equal = matches!(verdict(alloc, one, other)?, Verdict::Equal);
    Ok(Found {
        is_alike,
        is_decided,
        is_equal,
    })
}

// What is found of two circuits, and whether they answer all words alike.
fn judged(alloc: Global, one: &Cells, other: &Cells) -> Result<(Found, bool), DecideRefusal>
    requires inputs { other.now.inputs ≡ one.now.inputs }
    requires outputs { length other.now.outputs ≡ length one.now.outputs }
{
    let found = findings(alloc, one, other)?;
    let agree = agree(alloc, one, other)?;
    Ok((found, agree))
}

// The same of a circuit and another with its counts, where the other is one.
fn beside(
    alloc: Global,
    one: &Cells,
    gates: &[Gate],
    outputs: &[u32],
) -> Result<Option<(Found, bool)>, DecideRefusal>
    requires { length outputs.now ≡ length one.now.outputs }
{
    let Some(other) = checked_cells(alloc, one.inputs, gates, outputs)? else {
        return Ok(None);
    };
    Ok(Some(judged(alloc, one, &other)?))
}

// The same of a pair, where both are circuits.
pub fn compared(alloc: Global, pair: Pair) -> Result<Option<(Found, bool)>, DecideRefusal> {
    if pair.outputs.len() != pair.other_outputs.len() {
        return Ok(None);
    }
    let Some(one) = checked_cells(alloc, pair.inputs, pair.gates, pair.outputs)? else {
        return Ok(None);
    };
    beside(alloc, &one, pair.other_gates, pair.other_outputs)
}
