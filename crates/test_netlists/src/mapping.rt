// Netlists that are read from texts: the gates of their nets, and what both answer.
ghost use Rattle.std.specs.Prelude.{◌≤◌, ◌<◌, ◌^◌, length};

use crate::fixtures::{answers_so, word_of};
use aq_base::{List, Memory};
use blif_read::{Netlist, blif_read};
use circuit::{Gate, Pass, PlainNet, Word};
use maj_mapping::MapPass;
use std::alloc::{AllocError, Global};
use std::test::Fail;

/// The netlist of a text, and the net that it is mapped to.
fn mapped(alloc: Global, text: &[u8]) -> Option<(Netlist, PlainNet)>
    requires { length text.now ≤ 2 ^ 28 }
{
    let Ok(netlist) = blif_read(alloc, text) else {
        return None;
    };
    let Ok(pass) = MapPass::new(alloc) else {
        return None;
    };
    let Ok(net) = pass.run(alloc, &netlist) else {
        return None;
    };
    Some((netlist, net))
}

/// Whether a net has these gates after its inputs and the two constants, and these outputs.
fn has_gates(net: &PlainNet, gates: &[Gate], outputs: &[u32]) -> bool {
    let made = net.gates.as_slice();
    let first = net.inputs as usize + 2;
    first <= made.len() && &made[first..] == gates && net.outputs.as_slice() == outputs
}

/// Whether the text has a net, and it has these gates and outputs.
fn is_mapped_so(alloc: Global, text: &[u8], gates: &[Gate], outputs: &[u32]) -> bool
    requires { length text.now ≤ 2 ^ 28 }
{
    match mapped(alloc, text) {
        Some((_netlist, net)) => has_gates(&net, gates, outputs),
        None => false,
    }
}

#[test]
fn gates(rt: HostRuntime) -> Result<(), Fail> {
    let nets = [
        // the exclusive or: the `or`, and not the `and`
        (
            ".inputs a b\n.outputs y\n.names a b y\n10 1\n01 1\n",
            [
                Gate::Maj(0, 3, 1),
                Gate::Maj(0, 2, 1),
                Gate::Inv(5),
                Gate::Maj(4, 2, 6),
            ]
            .as_slice(),
            [7].as_slice(),
        ),
        (
            ".model one\n.outputs y\n.names y\n1\n.end\n",
            [].as_slice(),
            [1].as_slice(),
        ),
        (
            ".inputs a b c\n.outputs y\n.names a b c y\n11- 1\n1-1 1\n-11 1\n",
            [Gate::Maj(0, 2, 1)].as_slice(),
            [5].as_slice(),
        ),
        // an unused definition makes no gate, and one inverter serves two uses
        (
            ".inputs a\n.outputs y z a\n.names a x\n1 1\n.names a y\n0 1\n.names a z\n0 1\n",
            [Gate::Inv(0)].as_slice(),
            [3, 3, 0].as_slice(),
        ),
        // a cover of four inputs, by its cubes: where it is false
        (
            ".inputs a b c d\n.outputs y\n.names a b c d y\n1-1- 0\n-0-0 0\n",
            [
                Gate::Maj(0, 4, 2),
                Gate::Inv(1),
                Gate::Inv(3),
                Gate::Maj(7, 4, 8),
                Gate::Maj(6, 5, 9),
                Gate::Inv(10),
            ]
            .as_slice(),
            [11].as_slice(),
        ),
    ];
    for (text, gates, outputs) in nets {
        let bytes = text.as_bytes();
        assert!(rt; bytes.len() < 300);
        assert!(rt; is_mapped_so(rt.alloc(), bytes, gates, outputs), "{text}");
    }
    Ok(())
}

/// The netlist of a text answers the word so, and so does the net that it is mapped to.
fn both_answer(alloc: Global, text: &[u8], word: &Word, want: &[bool]) -> Result<bool, Memory> {
    if text.len() > 300 {
        return Ok(false);
    }
    let Some((netlist, net)) = mapped(alloc, text) else {
        return Ok(false);
    };
    let said = answers_so(alloc, &netlist, word, want)?;
    let made = answers_so(alloc, &net, word, want)?;
    Ok(said && made)
}

/// The word whose value j is bit j of the index.
fn numbered(alloc: Global, inputs: u32, index: u16) -> Result<Word, Memory> {
    let mut word = List::new(alloc);
    let mut rest = index;
    for _input in 0..inputs {
        word.push(rest % 2 == 1)?;
        rest /= 2;
    }
    Ok(word)
}

/// Adds the row of an index to a cover.
fn push_row(text: &mut Vec<u8>, inputs: u32, index: u16) -> Result<(), AllocError> {
    let mut rest = index;
    for _input in 0..inputs {
        text.push(if rest % 2 == 1 { b'1' } else { b'0' })?;
        rest /= 2;
    }
    text.extend_from_slice(b" 1\n")
}

/// One definition, whose cover has a row for each bit of its truth number.
fn text_of(alloc: Global, inputs: u32, number: u16) -> Result<Vec<u8>, AllocError> {
    let head = if inputs == 2 {
        ".inputs a b\n.outputs y\n.names a b y\n"
    } else {
        ".inputs a b c\n.outputs y\n.names a b c y\n"
    };
    let mut text = Vec::new(alloc);
    text.extend_from_slice(head.as_bytes())?;
    for index in 0..8u16 {
        if (number >> index) % 2 == 1 {
            push_row(&mut text, inputs, index)?;
        }
    }
    Ok(text)
}

/// The definition of a truth number answers each word by its bit, and so does its net.
fn number_answers(alloc: Global, inputs: u32, number: u16) -> Result<bool, Memory> {
    let text = text_of(alloc, inputs, number)?;
    let words = if inputs == 2 { 4 } else { 8u16 };
    for index in 0..words {
        let word = numbered(alloc, inputs, index)?;
        let want = [(number >> index) % 2 == 1];
        if !both_answer(alloc, &text, &word, &want)? {
            return Ok(false);
        }
    }
    Ok(true)
}

#[test]
fn numbers_of_two_inputs(rt: HostRuntime) -> Result<(), Fail> {
    for number in 0..16u16 {
        let right = number_answers(rt.alloc(), 2, number)?;
        assert!(rt; right, "{number}");
    }
    Ok(())
}

#[test]
fn numbers_of_three_inputs(rt: HostRuntime) -> Result<(), Fail> {
    let numbers = [
        0u16, 1, 23, 30, 85, 105, 128, 150, 170, 202, 216, 232, 254, 255,
    ];
    for number in numbers {
        let right = number_answers(rt.alloc(), 3, number)?;
        assert!(rt; right, "{number}");
    }
    Ok(())
}

const OFF_SET: &str = ".inputs a b c d\n.outputs y z\n.names a b c d y\n1-1- 0\n.names z\n";

const CONSTANTS: &str =
    ".inputs a b\n.outputs y\n.names $false\n.names $true\n1\n.names a $true b $false y\n11-- 1\n--1- 1\n---1 1\n";

const REPEATED: &str = ".inputs a\n.outputs y z\n.names a a y\n10 1\n.names a a a a z\n1-1- 1\n";

/// The same, where the word and the answer are texts of zeros and ones.
fn both_answer_bits(alloc: Global, text: &str, word: &str, want: &str) -> Result<bool, Memory> {
    let word = word_of(alloc, word)?;
    let want = word_of(alloc, want)?;
    both_answer(alloc, text.as_bytes(), &word, want.as_slice())
}

#[test]
fn answers(rt: HostRuntime) -> Result<(), Fail> {
    let cases = [
        (OFF_SET, "0000", "10"),
        (OFF_SET, "1010", "00"),
        (OFF_SET, "1111", "00"),
        (OFF_SET, "1000", "10"),
        (CONSTANTS, "00", "0"),
        (CONSTANTS, "01", "1"),
        (CONSTANTS, "10", "1"),
        (REPEATED, "0", "00"),
        (REPEATED, "1", "01"),
    ];
    for (text, word, want) in cases {
        let right = both_answer_bits(rt.alloc(), text, word, want)?;
        assert!(rt; right, "{text} at {word}");
    }
    Ok(())
}
