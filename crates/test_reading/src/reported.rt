// What is in chips: reports, and the shapes and labels of two numbers.
use std::alloc::{AllocError, Global};
use std::test::Fail;
use test_runs::{
    AND, LIBRARY_A, Outcome, STREAM, XOR, edited, holding, put_at, ran, stored, with_chip,
};

const FIRST_REPORT: &str =
    "rows 2 cells 2 wires 1 delay 1\nbuffers 2 inverters 0 zeros 0 ones 0 splitters 0 0 majorities 0\njunctions 4\nwidth 8000 height 24000\nlongest 10000 of 180000\nskew 8000 even 8000 odd 8000\nrow 0 phase 0 cells 1 wires 1 longest 10000 skew 8000\nrow 1 phase 1 cells 1 wires 0 longest 0 skew 0\n";

const AND_REPORT: &str =
    "rows 3 cells 5 wires 4 delay 2\nbuffers 3 inverters 0 zeros 1 ones 0 splitters 0 0 majorities 1\njunctions 14\nwidth 24000 height 38000\nlongest 10000 of 180000\nskew 86000 even 86000 odd 24000\nrow 0 phase 0 cells 3 wires 3 longest 10000 skew 24000\nrow 1 phase 1 cells 1 wires 1 longest 10000 skew 86000\nrow 2 phase 2 cells 1 wires 0 longest 0 skew 0\n";

const XOR_REPORT: &str =
    "rows 6 cells 13 wires 14 delay 5\nbuffers 4 inverters 1 zeros 2 ones 1 splitters 2 0 majorities 3\njunctions 38\nwidth 48000 height 84000\nlongest 30000 of 180000\nskew 138000 even 138000 odd 40000\nrow 0 phase 0 cells 2 wires 2 longest 30000 skew 40000\nrow 1 phase 1 cells 4 wires 6 longest 30000 skew 138000\nrow 2 phase 2 cells 2 wires 2 longest 18000 skew 32000\nrow 3 phase 3 cells 3 wires 3 longest 10000 skew 86000\nrow 4 phase 0 cells 1 wires 1 longest 10000 skew 24000\nrow 5 phase 1 cells 1 wires 0 longest 0 skew 0\n";

const BUFFER_REPORT: &str =
    "rows 1 cells 1 wires 0 delay 0\nbuffers 1 inverters 0 zeros 0 ones 0 splitters 0 0 majorities 0\njunctions 2\nwidth 8000 height 10000\nlongest 0 of 180000\nskew 8000 even 8000 odd 8000\nrow 0 phase 0 cells 1 wires 0 longest 0 skew 0\n";

// The same where the even line begins with a bar without frames below the chip.
const LATE_REPORT: &str =
    "rows 3 cells 5 wires 4 delay 2\nbuffers 3 inverters 0 zeros 1 ones 0 splitters 0 0 majorities 1\njunctions 14\nwidth 24000 height 38000\nlongest 10000 of 180000\nskew 150000 even 150000 odd 24000\nrow 0 phase 0 cells 3 wires 3 longest 10000 skew 88000\nrow 1 phase 1 cells 1 wires 1 longest 10000 skew 150000\nrow 2 phase 2 cells 1 wires 0 longest 0 skew 0\n";

// The corners of a start, a bar and a link that come before the first row.
const LATE_START: [i32; 10] = [
    24000, -30000, 28000, -30000, 28000, -20000, 24000, -20000, 24000, -30000,
];

const LATE_BAR: [i32; 10] = [
    0, -30000, 24000, -30000, 24000, -20000, 0, -20000, 0, -30000,
];

const LATE_LINK: [i32; 10] = [
    -4000, -30000, 0, -30000, 0, 10000, -4000, 10000, -4000, -30000,
];

// The left side of a start that is 66 micrometres long.
const FAR_LEFT: [u8; 4] = [255, 254, 254, 48];

// Whether a run ends well, prints this text, and stores nothing.
fn prints(run: &Outcome, told: &str) -> bool {
    run.status == 0 && run.out.bytes() == told.as_bytes() && run.err.bytes().is_empty()
}

// Whether the chip of a netlist, built with library A, has this report.
fn is_reported(alloc: Global, net: &str, told: &str) -> Result<bool, Fail> {
    let built = ran(
        alloc,
        stored(alloc, net, LIBRARY_A, "")?,
        "build net lib out",
    )?;
    let run = ran(alloc, built.files, "report out lib")?;
    Ok(prints(&run, told))
}

// The first chip's lower cell alone, with both labels.
fn buffer_alone(alloc: Global) -> Result<Outcome, Fail> {
    let short = edited(alloc, &STREAM, put_at(486, 476, b""))?;
    let stream = edited(alloc, &short, put_at(548, 4, &[0, 0, 37, 28]))?;
    Ok(ran(alloc, holding(alloc, &stream)?, "report chip lib")?)
}

#[test]
fn chips_are_reported(rt: HostRuntime) -> Result<(), Fail> {
    let alloc = rt.alloc();
    let first = ran(alloc, with_chip(alloc)?, "report chip lib")?;
    assert!(rt; prints(&first, FIRST_REPORT));
    assert_eq!(rt; first.files.calls(), 2);
    assert!(rt; is_reported(alloc, AND, AND_REPORT)?);
    assert!(rt; is_reported(alloc, XOR, XOR_REPORT)?);
    assert!(rt; prints(&buffer_alone(alloc)?, BUFFER_REPORT));
    Ok(())
}

// Adds a part of the even line.
fn add_part(kind: u8, corners: &[i32], stream: &mut Vec<u8>) -> Result<(), AllocError> {
    stream.extend_from_slice(&[
        0, 4, 8, 0, 0, 6, 13, 2, 0, 14, 0, 6, 14, 2, 0, kind, 0, 44, 16, 3,
    ])?;
    for each in corners {
        stream.extend_from_slice(&each.to_be_bytes())?;
    }
    stream.extend_from_slice(&[0, 4, 17, 0])?;
    Ok(())
}

// The parts with which the even line begins late.
fn late_parts(alloc: Global) -> Result<Vec<u8>, AllocError> {
    let mut parts = Vec::new(alloc);
    add_part(2, &LATE_START, &mut parts)?;
    add_part(0, &LATE_BAR, &mut parts)?;
    add_part(1, &LATE_LINK, &mut parts)?;
    Ok(parts)
}

// The chip of the conjunction, with another start of the odd line.
fn long_start(alloc: Global, stream: &[u8]) -> Result<Vec<u8>, AllocError> {
    let first = edited(alloc, stream, put_at(2078, 4, &FAR_LEFT))?;
    let second = edited(alloc, &first, put_at(2102, 4, &FAR_LEFT))?;
    edited(alloc, &second, put_at(2110, 4, &FAR_LEFT))
}

// Whether this chip has this report.
fn is_chip_reported(alloc: Global, stream: &[u8], told: &str) -> Result<bool, Fail> {
    let run = ran(alloc, holding(alloc, stream)?, "report chip lib")?;
    Ok(prints(&run, told))
}

#[test]
fn lines_begin_elsewhere(rt: HostRuntime) -> Result<(), Fail> {
    let alloc = rt.alloc();
    let files = stored(alloc, AND, LIBRARY_A, "")?;
    let built = ran(alloc, files, "build net lib out")?;
    let stream = built.files.bytes("out").unwrap_or(&[]);
    let parts = late_parts(alloc)?;
    let late = edited(alloc, stream, put_at(942, 64, &parts))?;
    assert!(rt; is_chip_reported(alloc, &late, LATE_REPORT)?);
    let long = long_start(alloc, stream)?;
    assert!(rt; is_chip_reported(alloc, &long, AND_REPORT)?);
    Ok(())
}

#[test]
fn shapes_are_named(rt: HostRuntime) -> Result<(), Fail> {
    let cases = [
        (
            "0 16",
            0,
            "shape 0 layer 20 datatype 1 box 0 0 8000 10000\nlabel 16 layer 30 at 5000 23500\n",
            "",
        ),
        (
            "15 3",
            0,
            "label 15 layer 30 at 3000 500\nshape 3 layer 14 datatype 2 box -4000 0 0 10000\n",
            "",
        ),
        (
            "8 8",
            0,
            "shape 8 layer 11 datatype 0 box 4700 11700 5300 12300\nshape 8 layer 11 datatype 0 box 4700 11700 5300 12300\n",
            "",
        ),
        ("18 17", 18, "", "aqfp: no shape 18 of 17\n"),
        ("0 17", 18, "", "aqfp: no shape 17 of 17\n"),
        (
            "18446744073709551615 0",
            18,
            "",
            "aqfp: no shape 18446744073709551615 of 17\n",
        ),
    ];
    for (numbers, status, printed, told) in cases {
        let line = format!(in rt.alloc(); "shapes chip {numbers}")?;
        let run = ran(rt.alloc(), with_chip(rt.alloc())?, line.as_str())?;
        assert_eq!(rt; run.status, status, "{numbers}");
        assert_eq!(rt; run.out.bytes(), printed.as_bytes(), "{numbers}");
        assert_eq!(rt; run.err.bytes(), told.as_bytes(), "{numbers}");
        assert_eq!(rt; run.files.calls(), 1, "{numbers}");
    }
    Ok(())
}

// A number has no leading zero, and at most 64 bits.
#[test]
fn other_numbers_are_no_command(rt: HostRuntime) -> Result<(), Fail> {
    let lines = [
        "shapes chip 01 0",
        "shapes chip 0 -1",
        "shapes chip 0 18446744073709551616",
        "shapes chip 0",
        "shapes chip 0 1 2",
        "report chip",
        "report chip lib 0",
    ];
    for line in lines {
        let run = ran(rt.alloc(), with_chip(rt.alloc())?, line)?;
        assert_eq!(rt; run.status, 1, "{line}");
        assert_eq!(rt; run.files.calls(), 0, "{line}");
        assert_eq!(rt; run.out.bytes(), b"".as_slice(), "{line}");
    }
    Ok(())
}

// The stream is judged before the numbers, and a library before the rules.
#[test]
fn what_is_wrong_with_a_layout_is_told(rt: HostRuntime) -> Result<(), Fail> {
    let alloc = rt.alloc();
    let misnumbered = edited(alloc, &STREAM, put_at(1033, 1, b"1"))?;
    let cases = [
        (
            &STREAM[..1003],
            "report chip net",
            11,
            "aqfp: stream: byte 1000: truncated\n",
        ),
        (
            &STREAM[..1003],
            "shapes chip 99 0",
            11,
            "aqfp: stream: byte 1000: truncated\n",
        ),
        (
            STREAM.as_slice(),
            "report chip net",
            7,
            "aqfp: library: text\n",
        ),
        (
            STREAM.as_slice(),
            "report gone lib",
            2,
            "aqfp: gone: absent\n",
        ),
        (
            STREAM.as_slice(),
            "report chip gone",
            2,
            "aqfp: gone: absent\n",
        ),
        (
            STREAM.as_slice(),
            "shapes gone 99 0",
            2,
            "aqfp: gone: absent\n",
        ),
    ];
    for (chip, line, status, told) in cases {
        let run = ran(alloc, holding(alloc, chip)?, line)?;
        assert_eq!(rt; run.status, status, "{line}");
        assert_eq!(rt; run.err.bytes(), told.as_bytes(), "{line}");
        assert_eq!(rt; run.out.bytes(), b"".as_slice(), "{line}");
    }
    let broken = ran(alloc, holding(alloc, &misnumbered)?, "report chip lib")?;
    assert_eq!(rt; broken.status, 12);
    assert_eq!(rt;
        broken.err.bytes(),
        b"aqfp: rule E6: shapes 16 16\n".as_slice()
    );
    Ok(())
}
