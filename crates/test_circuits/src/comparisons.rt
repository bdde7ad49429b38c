// Small circuits whose comparison is known, and random ones of which all words are tried as well.
ghost use Rattle.std.specs.Prelude.{◌≡◌, ◌<◌, length};

use aq_base::Memory;
use circuit::{Answers, Gate, Word, answer_word};
use decide::{Cells, DecideRefusal, Verdict, decide};
use std::alloc::Global;
use std::test::Fail;
use test_fixtures::{checked_cells, next_number, numbered_word, random_gate};

// An output and a word on which two circuits differ, or nothing where they are alike.
type Difference = Option<(u32, Word)>;

// What the comparison finds.
fn found(alloc: Global, a: &Cells, b: &Cells) -> Result<Difference, DecideRefusal>
    requires inputs { b.now.inputs ≡ a.now.inputs }
    requires outputs { length b.now.outputs ≡ length a.now.outputs }
{
    match decide(alloc, a, b)? {
        Verdict::Equal => Ok(None),
        Verdict::LeastDifference { output, word } => Ok(Some((output, word))),
        Verdict::SomeDifference { output, word } => Ok(Some((output, word))),
    }
}

// The value of an output at a word.
fn shown(alloc: Global, cells: &Cells, word: &Word, output: usize) -> Result<bool, Memory>
    requires { length word.now ≡ cells.now.inputs }
{
    let answer = answer_word(alloc, cells, word)?;
    Ok(answer.as_slice().get(output).copied().unwrap_or(false))
}

// The least word, of fewer than 2^16, on which an output of two circuits differs.
fn least(alloc: Global, a: &Cells, b: &Cells, output: usize) -> Result<Option<Word>, Memory>
    requires { b.now.inputs ≡ a.now.inputs }
{
    for number in 0..1_u32 << (a.inputs % 16) {
        let word = numbered_word(alloc, a.inputs, number)?;
        if shown(alloc, a, &word, output)? != shown(alloc, b, &word, output)? {
            return Ok(Some(word));
        }
    }
    Ok(None)
}

// What trying all words finds.
fn tried(alloc: Global, a: &Cells, b: &Cells) -> Result<Difference, Memory>
    requires { b.now.inputs ≡ a.now.inputs }
{
    for output in 0..a.outputs.len() {
        if let Some(word) = least(alloc, a, b, output)? {
            return Ok(Some((output as u32, word)));
        }
    }
    Ok(None)
}

// Whether a difference is at this output and this word.
fn is_this(found: &Difference, expected: Option<(u32, &[bool])>) -> bool {
    match found {
        None => expected.is_none(),
        Some((output, word)) => match expected {
            None => false,
            Some((expected, bits)) => *output == expected && word.as_slice() == bits,
        },
    }
}

// Two circuits of so many inputs: their gates and outputs.
#[derive(Clone, Copy)]
struct Pair<'a> {
    inputs: u32,
    gates: &'a [Gate],
    outputs: &'a [u32],
    other_gates: &'a [Gate],
    other_outputs: &'a [u32],
}

// What the comparison finds, and what trying all words does.
fn found_and_tried(
    alloc: Global,
    a: &Cells,
    b: &Cells,
) -> Result<(Difference, Difference), DecideRefusal>
    requires inputs { b.now.inputs ≡ a.now.inputs }
    requires outputs { length b.now.outputs ≡ length a.now.outputs }
{
    let found = found(alloc, a, b)?;
    Ok((found, tried(alloc, a, b)?))
}

// The same of a circuit and a pair's second one, where that is a circuit.
fn compared_with(
    alloc: Global,
    a: &Cells,
    pair: Pair,
) -> Result<Option<(Difference, Difference)>, DecideRefusal>
    requires inputs { pair.inputs ≡ a.now.inputs }
    requires outputs { length pair.other_outputs.now ≡ length a.now.outputs }
{
    match checked_cells(alloc, pair.inputs, pair.other_gates, pair.other_outputs)? {
        None => Ok(None),
        Some(b) => Ok(Some(found_and_tried(alloc, a, &b)?)),
    }
}

// The same of the pair, where both are circuits.
fn compared(alloc: Global, pair: Pair) -> Result<Option<(Difference, Difference)>, DecideRefusal> {
    if pair.outputs.len() != pair.other_outputs.len() {
        return Ok(None);
    }
    match checked_cells(alloc, pair.inputs, pair.gates, pair.outputs)? {
        None => Ok(None),
        Some(a) => compared_with(alloc, &a, pair),
    }
}

// Whether the comparison finds this, and trying all words as well.
fn is_right(
    alloc: Global,
    pair: Pair,
    expected: Option<(u32, &[bool])>,
) -> Result<bool, DecideRefusal> {
    match compared(alloc, pair)? {
        None => Ok(false),
        Some((found, tried)) => Ok(found == tried && is_this(&found, expected)),
    }
}

// A circuit of fewer than 32 inputs whose last gate is true at one word alone: gate `inputs` is false, the next one
// true, and then each input, or its complement, is joined to what stands before.
fn at_word(alloc: Global, inputs: u32, number: u32) -> Result<Vec<Gate>, Memory>
    requires { inputs < 32 }
{
    let mut gates = Vec::new(alloc);
    for input in 0..inputs {
        gates.push(Gate::Input(input))?;
    }
    gates.push(Gate::Zero)?;
    gates.push(Gate::One)?;
    for input in 0..inputs {
        let last = inputs + 1 + 2 * input;
        let digit = (number >> (inputs - 1 - input)) & 1;
        let side = if digit == 1 {
            Gate::Buf(input)
        } else {
            Gate::Inv(input)
        };
        gates.push(side)?;
        gates.push(Gate::Maj(last, last + 1, inputs))?;
    }
    Ok(gates)
}

// A random circuit of five inputs, both constants and so many more gates.
fn random_gates(alloc: Global, seed: u64, count: u32) -> Result<Vec<Gate>, Memory> {
    let first = [
        Gate::Input(0),
        Gate::Input(1),
        Gate::Input(2),
        Gate::Input(3),
        Gate::Input(4),
        Gate::Zero,
        Gate::One,
    ];
    let mut gates = Vec::from_array(alloc, first)?;
    let mut state = seed;
    for place in 7..7 + count % 1_000 {
        state = next_number(state);
        gates.push(random_gate(state, place))?;
    }
    Ok(gates)
}

// An exclusive or of two inputs, as their or and not their and.
fn exclusive_or() -> [Gate; 8] {
    [
        Gate::Input(0),
        Gate::Input(1),
        Gate::Zero,
        Gate::One,
        Gate::Maj(0, 3, 1),
        Gate::Maj(0, 2, 1),
        Gate::Inv(5),
        Gate::Maj(4, 2, 6),
    ]
}

// The same, as one without the other.
fn either_alone() -> [Gate; 10] {
    [
        Gate::Input(1),
        Gate::Input(0),
        Gate::Zero,
        Gate::One,
        Gate::Inv(0),
        Gate::Inv(1),
        Gate::Maj(2, 0, 5),
        Gate::Maj(4, 1, 2),
        Gate::Maj(6, 7, 3),
        Gate::Buf(1),
    ]
}

#[test]
fn differences(rt: HostRuntime) -> Result<(), Fail> {
    use Gate::{Input, Inv, One, Zero};
    let (one, other) = (exclusive_or(), either_alone());
    let (exclusive, either) = (one.as_slice(), other.as_slice());
    // inputs, the gates and outputs of both circuits, and where they differ
    let rows: [(
        u32,
        &[Gate],
        &[u32],
        &[Gate],
        &[u32],
        Option<(u32, &[bool])>,
    ); 12] = [
        (2, exclusive, &[0, 7], either, &[9, 8], None),
        (
            2,
            exclusive,
            &[7],
            exclusive,
            &[4],
            Some((0, &[true, true])),
        ),
        (
            2,
            exclusive,
            &[5],
            exclusive,
            &[4],
            Some((0, &[false, true])),
        ),
        (
            2,
            exclusive,
            &[0, 1, 7],
            either,
            &[9, 0, 4],
            Some((2, &[false, false])),
        ),
        (
            2,
            exclusive,
            &[0, 1, 7],
            either,
            &[0, 1, 8],
            Some((0, &[false, true])),
        ),
        (
            1,
            &[Input(0)],
            &[0],
            &[Input(0), Inv(0)],
            &[1],
            Some((0, &[false])),
        ),
        (
            1,
            &[Input(0), Inv(0)],
            &[0],
            &[Input(0), Inv(0), Inv(1)],
            &[2],
            None,
        ),
        (0, &[Zero], &[0], &[One], &[0], Some((0, &[]))),
        (0, &[Zero, One], &[0, 1], &[One, Inv(0)], &[1, 0], None),
        (0, &[], &[], &[One], &[], None),
        (
            3,
            &[Input(2)],
            &[0],
            &[Input(0)],
            &[0],
            Some((0, &[false, false, true])),
        ),
        (
            3,
            &[Input(1)],
            &[0],
            &[Zero],
            &[0],
            Some((0, &[false, true, false])),
        ),
    ];
    for (inputs, gates, outputs, other_gates, other_outputs, expected) in rows {
        let pair = Pair {
            inputs,
            gates,
            outputs,
            other_gates,
            other_outputs,
        };
        assert!(rt; is_right(rt.alloc(), pair, expected)?);
    }
    Ok(())
}

// Whether a circuit that is true at one word alone is found to be no constant there.
fn is_found(alloc: Global, number: u32) -> Result<bool, DecideRefusal> {
    let gates = at_word(alloc, 10, number)?;
    let expected = numbered_word(alloc, 10, number)?;
    let pair = Pair {
        inputs: 10,
        gates: &gates,
        outputs: &[31],
        other_gates: &[Gate::Zero],
        other_outputs: &[0],
    };
    is_right(alloc, pair, Some((0, expected.as_slice())))
}

#[test]
fn one_word_of_many(rt: HostRuntime) -> Result<(), Fail> {
    for number in [0, 1, 409, 512, 1_022, 1_023] {
        assert!(rt; is_found(rt.alloc(), number)?, "{number}");
    }
    Ok(())
}

// The gates, of which one is a random one.
fn with_gate_changed(alloc: Global, gates: &[Gate], seed: u64) -> Result<Vec<Gate>, Memory> {
    let mut other = Vec::from_slice(alloc, gates)?;
    let place = 7 + (seed % 24) as usize;
    if place < other.len() {
        let state = next_number(seed.wrapping_mul(0x1234_5678_9abc_def1));
        other[place] = random_gate(state, place as u32);
    }
    Ok(other)
}

// What the comparison finds of a random circuit and one with a gate changed, and what trying all words does.
fn random_differences(
    alloc: Global,
    seed: u64,
) -> Result<Option<(Difference, Difference)>, DecideRefusal> {
    let gates = random_gates(alloc, seed.wrapping_mul(0x9e37_79b9_7f4a_7c15), 24)?;
    let other = with_gate_changed(alloc, &gates, seed)?;
    let pair = Pair {
        inputs: 5,
        gates: &gates,
        outputs: &[30, 29, 28],
        other_gates: &other,
        other_outputs: &[30, 29, 28],
    };
    compared(alloc, pair)
}

#[test]
fn random_circuits(rt: HostRuntime) -> Result<(), Fail> {
    let mut alike: u32 = 0;
    for seed in 1..201_u64 {
        match random_differences(rt.alloc(), seed)? {
            None => assert!(rt; false),
            Some((found, tried)) => {
                alike = alike.saturating_add(u32::from(found.is_none()));
                assert!(rt; found == tried, "{seed}");
            }
        }
    }
    assert!(rt; 20 < alike && alike < 180);
    Ok(())
}
