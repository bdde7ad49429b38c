// Builds over a store in memory: what is stored, printed and refused.
use std::alloc::Global;
use std::test::Fail;
use test_runs::{AND, LIBRARY_A, Outcome, STREAM, WIRE, XOR, is_answered, ran, stored};

const TURNED: &str = ".inputs a b\n.outputs y\n.names b a y\n11 1\n";

// Four slots of 700 columns are too wide.
const WIDE_LIBRARY: &str =
    "wire = 1000\nspace = 1000\nvia = 600\nenclose = 200\npin = 1000\nheight = 10000\npitch = 1000000\ncolumns = 700\ncapacity = 4\nlimit = 2000000000\n[buffer]\ninputs = [1]\noutputs = [2]\n[inverter]\ninputs = [1]\noutputs = [2]\n[zero]\ninputs = []\noutputs = [2]\n[one]\ninputs = []\noutputs = [2]\n[split2]\ninputs = [1]\noutputs = [2, 702]\n[split3]\ninputs = [1]\noutputs = [2, 702, 1402]\n[majority]\ninputs = [1, 701, 1401]\noutputs = [2]\n";

// OUT may have the name of NET.
#[test]
fn a_wire_is_built(rt: HostRuntime) -> Result<(), Fail> {
    let alloc = rt.alloc();
    for (line, out) in [("build net lib out", "out"), ("build net lib net", "net")] {
        let ran = ran(alloc, stored(alloc, WIRE, LIBRARY_A, "")?, line)?;
        assert_eq!(rt; ran.status, 0, "{line}");
        assert_eq!(rt; ran.files.bytes(out), Some(STREAM.as_slice()), "{line}");
        assert_eq!(rt;
            ran.files.bytes("lib"),
            Some(LIBRARY_A.as_bytes()),
            "{line}"
        );
        assert_eq!(rt; ran.files.calls(), 5, "{line}");
        assert_eq!(rt;
            ran.out.bytes(),
            b"rows 2 cells 2 wires 1 delay 1\n".as_slice(),
            "{line}"
        );
        assert_eq!(rt; ran.err.bytes(), b"".as_slice(), "{line}");
    }
    Ok(())
}

// What is built is verified with the same library, and answers as its netlist.
#[test]
fn chips_answer(rt: HostRuntime) -> Result<(), Fail> {
    let cases = [
        (
            AND,
            "00\n01\n10\n11\n",
            "rows 3 cells 5 wires 4 delay 2\n0\n0\n0\n1\n",
        ),
        (
            XOR,
            "00\n01\n10\n11\n",
            "rows 6 cells 13 wires 14 delay 5\n0\n1\n1\n0\n",
        ),
        (
            ".inputs a\n.outputs a k\n.names k\n",
            "0\n1\n",
            "rows 2 cells 4 wires 2 delay 1\n00\n10\n",
        ),
        (
            ".inputs a\n.outputs a a a\n",
            "1\n",
            "rows 3 cells 5 wires 4 delay 2\n111\n",
        ),
        (
            ".inputs a b c d\n.outputs y z\n.names a b c d y\n1-1- 0\n.names z\n",
            "0000\n1010\n1111\n1000\n",
            "rows 4 cells 10 wires 6 delay 3\n10\n00\n00\n10\n",
        ),
    ];
    for (net, words, told) in cases {
        assert!(rt; is_answered(rt.alloc(), net, words, told)?, "{told}");
    }
    Ok(())
}

// A build of the turned `and` with library A, of which one part is replaced.
fn built_with(alloc: Global, from: &str, to: &str) -> Result<Outcome, Fail> {
    let lib = LIBRARY_A.replace(alloc, from, to)?;
    let files = stored(alloc, TURNED, lib.as_str(), "")?;
    Ok(ran(alloc, files, "build net lib out")?)
}

// With another library the same netlist needs other rows, or has no chip.
#[test]
fn libraries_differ(rt: HostRuntime) -> Result<(), Fail> {
    let alloc = rt.alloc();
    let cases = [
        (
            "limit = 180000",
            "limit = 78000",
            0,
            "rows 5 cells 11 wires 10 delay 4\n",
            "",
        ),
        (
            "capacity = 28",
            "capacity = 4",
            0,
            "rows 5 cells 11 wires 10 delay 4\n",
            "",
        ),
        (
            "capacity = 28",
            "capacity = 28",
            0,
            "rows 3 cells 5 wires 4 delay 2\n",
            "",
        ),
        (
            "capacity = 28",
            "capacity = 2",
            7,
            "",
            "aqfp: library: law 14\n",
        ),
        (
            "limit = 180000",
            "limit = 77999",
            7,
            "",
            "aqfp: library: law 11\n",
        ),
        (
            "wire = 1000",
            "wire = -7",
            7,
            "",
            "aqfp: library: wire = -7\n",
        ),
        (
            "[majority]\ninputs = [1, 5, 9]\noutputs = [2]\n",
            "",
            8,
            "",
            "aqfp: library: missing majority\n",
        ),
    ];
    for (from, to, status, printed, told) in cases {
        let ran = built_with(alloc, from, to)?;
        assert_eq!(rt; ran.status, status, "{to}");
        assert_eq!(rt; ran.out.bytes(), printed.as_bytes(), "{to}");
        assert_eq!(rt; ran.err.bytes(), told.as_bytes(), "{to}");
        assert_eq!(rt; ran.files.bytes("out").is_some(), status == 0, "{to}");
    }
    Ok(())
}

// A key of a library is told on one line, whatever bytes it has, and a long one is cut between two characters.
#[test]
fn keys_are_told_on_one_line(rt: HostRuntime) -> Result<(), Fail> {
    let alloc = rt.alloc();
    let bytes = [b'a'; 199];
    let most = std::str::from_utf8(&bytes)?;
    let cut = format!(in alloc; "{most}\u{e9}{most}")?;
    let cases = [
        ("\"a\\nb\" = 1\n", "a\\x0ab"),
        ("\"\\u001b[2J\\u007f\" = 1\n", "\\x1b[2J\\x7f"),
    ];
    for (lib, key) in cases {
        let ran = ran(alloc, stored(alloc, WIRE, lib, "")?, "build net lib out")?;
        let told = format!(in alloc; "aqfp: library: key {key}\n")?;
        assert_eq!(rt; ran.status, 7, "{key}");
        assert_eq!(rt; ran.err.bytes(), told.as_bytes(), "{key}");
    }
    let lib = format!(in alloc; "\"{cut}\" = 1\n")?;
    let ran = ran(
        alloc,
        stored(alloc, WIRE, lib.as_str(), "")?,
        "build net lib out",
    )?;
    let told = format!(in alloc; "aqfp: library: key {most}..\n")?;
    assert_eq!(rt; ran.status, 7);
    assert_eq!(rt; ran.err.bytes(), told.as_bytes());
    Ok(())
}

// An adder of one bit on eight words; the store is not asked.
#[test]
fn a_sample_is_printed(rt: HostRuntime) -> Result<(), Fail> {
    let alloc = rt.alloc();
    let ran = ran(alloc, stored(alloc, WIRE, LIBRARY_A, "")?, "sample 1")?;
    assert_eq!(rt; ran.status, 0);
    assert_eq!(rt;
        ran.out.bytes(),
        b"bits 1 rows 6 cells 18 wires 20 delay 5\n01\n00\n10\n10\n10\n10\n00\n10\n".as_slice()
    );
    assert_eq!(rt; ran.err.bytes(), b"".as_slice());
    assert_eq!(rt; ran.files.calls(), 0);
    Ok(())
}

#[test]
fn what_is_wrong_is_told(rt: HostRuntime) -> Result<(), Fail> {
    let alloc = rt.alloc();
    let usage =
        "aqfp: usage: build NET LIB OUT, compact NET LIB OUT, draw NET LIB OUT, verify GDS LIB WORDS, trace GDS LIB WORDS, sample N, netlist GDS LIB OUT, equal GDS LIB NET, report GDS LIB, shapes GDS A B\n";
    let four = ".inputs a b c d\n.outputs a b c d\n";
    let cycle =
        ".model t\n.inputs a\n.outputs y\n.names q y\n1 1\n.names r q\n1 1\n.names y a r\n11 1\n.end\n";
    let latch = ".model t\n.inputs a\n.outputs a\n.latch a b 0\n.end\n";
    let cases = [
        ("", WIRE, 1, usage),
        ("sample 0", WIRE, 1, usage),
        ("sample 65", WIRE, 1, usage),
        ("sample 064", WIRE, 1, usage),
        ("build x", WIRE, 1, usage),
        ("equal net lib", WIRE, 1, usage),
        ("build net lib out more", WIRE, 1, usage),
        ("build nothing lib out", WIRE, 2, "aqfp: nothing: absent\n"),
        ("build net nothing out", WIRE, 2, "aqfp: nothing: absent\n"),
        (
            "build net\x1b[2J\x7f lib out",
            WIRE,
            2,
            "aqfp: net\\x1b[2J\\x7f: absent\n",
        ),
        ("build net lib out", cycle, 6, "aqfp: line 4: cycle y q r\n"),
        ("build net lib out", latch, 6, "aqfp: line 4: unsupported\n"),
        ("build net lib out", four, 10, "aqfp: too large: 4 slots\n"),
    ];
    for (line, net, status, told) in cases {
        let ran = ran(alloc, stored(alloc, net, WIDE_LIBRARY, "")?, line)?;
        assert_eq!(rt; ran.status, status, "{line}");
        assert_eq!(rt; ran.err.bytes(), told.as_bytes(), "{line}");
        assert_eq!(rt; ran.out.bytes(), b"".as_slice(), "{line}");
        assert_eq!(rt; ran.files.bytes("out"), None, "{line}");
    }
    Ok(())
}
