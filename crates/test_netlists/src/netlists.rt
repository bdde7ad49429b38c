// Texts, small ones and such as ABC and Yosys write, with what they say, their answers and their faults.
ghost use Rattle.std.specs.Prelude.{◌≤◌, ◌^◌, length};

use crate::fixtures::answers_bits;
use aq_base::{List, Memory};
use blif_read::{BlifFault, BlifRefusal, LineKind, Netlist, blif_read};
use circuit::Answers;
use short_bytes::ShortBytes;
use std::alloc::{AllocError, Global};
use std::test::Fail;

/// The netlist's parts in one line: names, then each definition by its line, then the outputs.
fn told(alloc: Global, net: &Netlist) -> Result<Vec<u8>, AllocError> {
    let mut told = Vec::new(alloc);
    for signal in 0..net.name_count() {
        if signal == net.input_count() {
            told.push(b'|')?;
        }
        told.extend_from_slice(net.name(signal).as_slice())?;
        told.push(b' ')?;
    }
    for def in net.defs().as_slice() {
        let line = format!(in alloc; "{}:", def.line)?;
        told.extend_from_slice(line.as_str().as_bytes())?;
        for input in def.inputs.as_slice() {
            let input = format!(in alloc; "{} ", *input)?;
            told.extend_from_slice(input.as_str().as_bytes())?;
        }
        told.push(if def.on { b'+' } else { b'-' })?;
        for cube in def.cubes.as_slice() {
            told.extend_from_slice(cube.plane.as_slice())?;
            told.push(b',')?;
        }
        told.push(b' ')?;
    }
    for output in net.outputs().as_slice() {
        let output = format!(in alloc; ">{}", *output)?;
        told.extend_from_slice(output.as_str().as_bytes())?;
    }
    Ok(told)
}

/// The parts of the netlist that a text says; nothing where it says none.
fn told_of(alloc: Global, text: &[u8]) -> Result<Option<Vec<u8>>, AllocError>
    requires { length text.now ≤ 2 ^ 28 }
{
    match blif_read(alloc, text) {
        Ok(net) => Ok(Some(told(alloc, &net)?)),
        Err(_) => Ok(None),
    }
}

#[test]
fn netlists(rt: HostRuntime) -> Result<(), Fail> {
    let texts = [
        (
            ".inputs a b\n.outputs y\n.names a b y\n11 1\n",
            "a b |y 3:0 1 +11, >2",
        ),
        (
            ".inputs a b\r\n.outputs y\r\n.names a b y\r\n10 1\r\n01 1\r\n",
            "a b |y 3:0 1 +10,01, >2",
        ),
        (".model one\n.outputs y\n.names y\n1\n.end\n", "|y 3:+, >0"),
        (".inputs a b\n.outputs a a\n", "a b >0>0"),
        (
            ".inputs a b c d\n.outputs y z\n.names a b c d y\n1-1- 0\n.names z\n",
            "a b c d |y z 3:0 1 2 3 -1-1-, 5:+ >4>5",
        ),
        (
            "# head\n.model top\n.inputs a \\\nb\n.outputs y\n.names $false\n.names $true\n1\n.names $undef\n.names a b y\n1- 1\n-1 1\n.end\n",
            "a b |$false $true $undef y 6:+ 7:+, 9:+ 10:0 1 +1-,-1, >5",
        ),
        (
            ".outputs y\n.inputs a\n.names a a y # twice\n11 1\n.area 3\n.end\n.model late",
            "a |y 3:0 0 +11, >1",
        ),
        (
            ".inputs x \\# c\ny \\ # c\n.outputs é\\\n# end\n.names \\ é\n0 0\n\n.names b\\",
            "x y \\ |é b 5:2 -0, 8:+ >3",
        ),
    ];
    for (text, want) in texts {
        let text = text.as_bytes();
        assert!(rt; text.len() < 300);
        match told_of(rt.alloc(), text)? {
            Some(told) => assert_eq!(rt; told.as_slice(), want.as_bytes()),
            None => assert!(rt; false, "no netlist: {want}"),
        }
    }
    Ok(())
}

/// The fault of a text, if it has one.
fn fault_of(alloc: Global, text: &[u8]) -> Option<BlifFault>
    requires { length text.now ≤ 2 ^ 28 }
{
    match blif_read(alloc, text) {
        Err(BlifRefusal::Bad(fault)) => Some(fault),
        Err(BlifRefusal::Memory) => None,
        Ok(_net) => None,
    }
}

#[test]
fn faults(rt: HostRuntime) -> Result<(), Fail> {
    let texts = [
        ("", 0, LineKind::NoOutputs),
        ("1 1\n", 1, LineKind::RowAlone),
        (".model a\n.model b\n", 2, LineKind::SecondModel),
        (".end\n.inputs a\n", 2, LineKind::Unsupported),
        (
            ".inputs a\n.outputs a\n.names a\n1\n",
            3,
            LineKind::Duplicate,
        ),
        (".outputs y\n.names y\n1\n0\n", 4, LineKind::RowValue),
        (".outputs y\n.names y\n- 1\n", 3, LineKind::RowShape),
        (".outputs y\n.names a y\n1 1\n", 2, LineKind::Undefined),
        (
            ".model t\n.inputs a\n.outputs a\n.latch a b 0\n.end\n",
            4,
            LineKind::Unsupported,
        ),
        (".outputs y\n.names \ry\n", 2, LineKind::Token),
        (".outputs y\n.names y\r", 2, LineKind::Token),
        (".end\n.outputs \u{7f}\n", 2, LineKind::Token),
        (".end\n.names\n", 2, LineKind::Token),
        (".end\n1\n", 2, LineKind::Unsupported),
        (".end\n.model late\n.outputs y\n", 3, LineKind::Unsupported),
        (".names y\n.inputs a\n1\n", 3, LineKind::RowAlone),
        (".names y\n.area 2\n1\n", 3, LineKind::RowAlone),
        (".names a \\\ny\n1x 2\n", 3, LineKind::RowShape),
        (".names y\n.inputs a y\n", 2, LineKind::Duplicate),
        (".names a y\n1 2\n.latch\n", 2, LineKind::RowValue),
    ];
    for (text, line, kind) in texts {
        let bytes = text.as_bytes();
        assert!(rt; bytes.len() < 300);
        let told = BlifFault::Line { line, kind };
        assert_eq!(rt; fault_of(rt.alloc(), bytes), Some(told), "{text}");
    }
    Ok(())
}

/// The signals of a cycle, each before a blank.
fn names_of(alloc: Global, signals: &List<ShortBytes>) -> Result<Vec<u8>, AllocError> {
    let mut names = Vec::new(alloc);
    for name in signals.as_slice() {
        names.extend_from_slice(name.as_slice())?;
        names.push(b' ')?;
    }
    Ok(names)
}

/// The line and the signals of the cycle of a text; line 0 where it has none.
fn cycle_of(alloc: Global, text: &[u8]) -> Result<(u64, Vec<u8>), AllocError>
    requires { length text.now ≤ 2 ^ 28 }
{
    match fault_of(alloc, text) {
        Some(BlifFault::Cycle { line, signals }) => Ok((line, names_of(alloc, &signals)?)),
        _other => Ok((0, Vec::new(alloc))),
    }
}

#[test]
fn cycles(rt: HostRuntime) -> Result<(), Fail> {
    let texts = [
        (".outputs y\n.names y y\n1 1\n", 2, "y "),
        (
            ".model t\n.inputs a\n.outputs y\n.names q y\n1 1\n.names r q\n1 1\n.names y a r\n11 1\n.end\n",
            4,
            "y q r ",
        ),
        (
            ".inputs a\n.outputs a\n.names a p b\n.names c b p\n.names p c\n.names c c b q\n",
            4,
            "p c ",
        ),
    ];
    for (text, want_line, want) in texts {
        let bytes = text.as_bytes();
        assert!(rt; bytes.len() < 300);
        let (line, names) = cycle_of(rt.alloc(), bytes)?;
        assert_eq!(rt; line, want_line, "{text}");
        assert_eq!(rt; names.as_slice(), want.as_bytes(), "{text}");
    }
    Ok(())
}

fn net_answers(
    alloc: Global,
    net: &Netlist,
    words: &[&str],
    wants: &[&str],
) -> Result<bool, Memory> {
    let mut right = words.len() == wants.len();
    for (word, want) in words.iter().zip(wants) {
        right = right && answers_bits(alloc, net, word, want)?;
    }
    Ok(right)
}

/// Whether the netlist of a text answers each word so.
fn are_answers(alloc: Global, text: &[u8], words: &[&str], wants: &[&str]) -> Result<bool, Memory>
    requires { length text.now ≤ 2 ^ 28 }
{
    match blif_read(alloc, text) {
        Ok(net) => net_answers(alloc, &net, words, wants),
        Err(_) => Ok(false),
    }
}

#[test]
fn answers(rt: HostRuntime) -> Result<(), Fail> {
    let conjunction = ".inputs a b\n.outputs y\n.names a b y\n11 1\n";
    let parity = ".inputs a b\n.outputs y\n.names a b y\n10 1\n01 1\n";
    let complex = ".inputs a b c d\n.outputs y z\n.names a b c d y\n1-1- 0\n.names z\n";
    // as ABC writes a multiplexer and its complement, users before what they use
    let mapped =
        ".model mux\n.inputs s t0 t1\n.outputs f nf\n.names s t1 n5\n11 1\n.names s t0 n6\n01 1\n.names n5 n6 nf\n00 1\n.names nf f\n0 1\n.end\n";
    // as Yosys writes constants and a majority
    let synthesized =
        "# Generated by a tool\n\n.model top\n.inputs a[0] a[1] a[2]\n.outputs m k\n.names $false\n.names $true\n1\n.names $undef\n.names a[0] a[1] a[2] $abc$7$new_n4_\n11- 1\n1-1 1\n-11 1\n.names $abc$7$new_n4_ m\n1 1\n.names $true k\n1 1\n.end\n";
    let rows = [
        (conjunction, ["00", "10", "11"], ["0", "0", "1"]),
        (parity, ["01", "10", "11"], ["1", "1", "0"]),
        (complex, ["0000", "1010", "1000"], ["10", "00", "10"]),
        (mapped, ["010", "101", "110"], ["10", "10", "01"]),
        (synthesized, ["110", "101", "100"], ["11", "11", "01"]),
    ];
    for (text, words, wants) in rows {
        let bytes = text.as_bytes();
        assert!(rt; bytes.len() < 400);
        let right = are_answers(rt.alloc(), bytes, &words, &wants)?;
        assert!(rt; right, "{text}");
    }
    Ok(())
}
