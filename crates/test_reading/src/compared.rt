// Chips that are compared with netlists, for all words.
use std::alloc::Global;
use std::test::Fail;
use test_runs::{AND, LIBRARY_A, Outcome, STREAM, WIRE, XOR, ran, stored, stored_chip};

const OR: &str = ".inputs a b\n.outputs y\n.names a b y\n1- 1\n-1 1\n";

// The same in three steps.
const XOR_OF_THREE: &str =
    ".inputs a b\n.outputs y\n.names a b n\n11 0\n.names a b o\n00 0\n.names n o y\n11 1\n";

const HALF_ADDER: &str =
    ".inputs a b\n.outputs s c\n.names a b s\n10 1\n01 1\n.names a b c\n11 1\n";

// Its second output is 1 where one of the two inputs is.
const OTHER_CARRY: &str =
    ".inputs a b\n.outputs s c\n.names a b s\n10 1\n01 1\n.names a b c\n1- 1\n-1 1\n";

// A chip against a netlist.
fn against(alloc: Global, chip: &[u8], net: &str) -> Result<Outcome, Fail> {
    let files = stored_chip(alloc, chip, net, LIBRARY_A, "")?;
    Ok(ran(alloc, files, "equal chip lib net")?)
}

// The chip of the first netlist against the second.
fn compared(alloc: Global, chip: &str, net: &str) -> Result<Outcome, Fail> {
    let files = stored(alloc, chip, LIBRARY_A, "")?;
    let built = ran(alloc, files, "build net lib out")?;
    against(alloc, built.files.bytes("out").unwrap_or(&[]), net)
}

#[test]
fn chips_are_compared(rt: HostRuntime) -> Result<(), Fail> {
    let alloc = rt.alloc();
    let cases = [
        (XOR, XOR, "equal\n"),
        (XOR, XOR_OF_THREE, "equal\n"),
        (XOR, OR, "differ O0 at 11\n"),
        (XOR, AND, "differ O0 at 01\n"),
        (HALF_ADDER, HALF_ADDER, "equal\n"),
        (HALF_ADDER, OTHER_CARRY, "differ O1 at 01\n"),
        (
            WIRE,
            ".inputs a\n.outputs y\n.names a y\n0 1\n",
            "differ O0 at 0\n",
        ),
    ];
    for (chip, net, told) in cases {
        let ran = compared(alloc, chip, net)?;
        assert_eq!(rt; ran.status, 0, "{told}");
        assert_eq!(rt; ran.out.bytes(), told.as_bytes(), "{told}");
        assert_eq!(rt; ran.err.bytes(), b"".as_slice(), "{told}");
        assert_eq!(rt; ran.files.calls(), 3, "{told}");
    }
    Ok(())
}

#[test]
fn what_is_wrong_with_a_comparison_is_told(rt: HostRuntime) -> Result<(), Fail> {
    let alloc = rt.alloc();
    let cases = [
        (AND, WIRE, 17, "aqfp: widths: 2 1 and 1 1\n"),
        (WIRE, HALF_ADDER, 17, "aqfp: widths: 1 1 and 2 2\n"),
        (AND, HALF_ADDER, 17, "aqfp: widths: 2 1 and 2 2\n"),
        (
            AND,
            ".inputs a\n.outputs y\n",
            6,
            "aqfp: line 2: undefined\n",
        ),
    ];
    for (chip, net, status, told) in cases {
        let ran = compared(alloc, chip, net)?;
        assert_eq!(rt; ran.status, status, "{told}");
        assert_eq!(rt; ran.err.bytes(), told.as_bytes(), "{told}");
        assert_eq!(rt; ran.out.bytes(), b"".as_slice(), "{told}");
    }
    Ok(())
}

// The stream is judged before the library, and both before the netlist.
#[test]
fn the_first_fault_is_told(rt: HostRuntime) -> Result<(), Fail> {
    let alloc = rt.alloc();
    let cases = [
        (
            &STREAM[..1003],
            "",
            "",
            11,
            "aqfp: stream: byte 1000: truncated\n",
        ),
        (STREAM.as_slice(), "", "", 7, "aqfp: library: key wire\n"),
        (
            STREAM.as_slice(),
            LIBRARY_A,
            "",
            6,
            "aqfp: line 0: no outputs\n",
        ),
    ];
    for (stream, lib, net, status, told) in cases {
        let files = stored_chip(alloc, stream, net, lib, "")?;
        let ran = ran(alloc, files, "equal chip lib net")?;
        assert_eq!(rt; ran.status, status, "{told}");
        assert_eq!(rt; ran.err.bytes(), told.as_bytes(), "{told}");
    }
    Ok(())
}
