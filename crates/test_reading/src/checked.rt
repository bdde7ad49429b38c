// Checks of the first chip over a store in memory: what is printed and refused.
use aq_base::MemSink;
use aqfp_top::aqfp_run;
use std::alloc::{AllocError, Global};
use std::test::Fail;
use test_runs::{LIBRARY_A, Outcome, STREAM, ran, stored_chip, words_in};

// The first chip without its two leads, both bars on the layer of the even rows, the second as a link.
fn without_starts(alloc: Global) -> Result<Vec<u8>, AllocError> {
    let mut bytes = Vec::new(alloc);
    bytes.extend_from_slice(&STREAM[..358])?;
    bytes.extend_from_slice(&STREAM[422..834])?;
    bytes.extend_from_slice(&STREAM[898..907])?;
    bytes.extend_from_slice(&[14])?;
    bytes.extend_from_slice(&STREAM[908..913])?;
    bytes.extend_from_slice(&[1])?;
    bytes.extend_from_slice(&STREAM[914..])?;
    Ok(bytes)
}

// The first chip with its first via moved by a nanometre.
fn with_via_moved(alloc: Global) -> Result<Vec<u8>, AllocError> {
    let mut bytes = Vec::new(alloc);
    for (place, byte) in STREAM.iter().enumerate() {
        let moved = matches!(place, 701 | 709 | 717 | 725 | 733);
        bytes.push(if moved { byte.wrapping_add(1) } else { *byte })?;
    }
    Ok(bytes)
}

// A store of this stream, library A and these words.
fn checked(alloc: Global, gds: &[u8], words: &str, line: &str) -> Result<Outcome, Fail> {
    let files = stored_chip(alloc, gds, "", LIBRARY_A, words)?;
    Ok(ran(alloc, files, line)?)
}

#[test]
fn chips_are_checked(rt: HostRuntime) -> Result<(), Fail> {
    let alloc = rt.alloc();
    let cases = [
        ("verify chip lib words", "0\n1\n", 0, "0\n1\n", ""),
        ("verify chip lib words", "", 0, "", ""),
        ("verify chip lib words", "1\r\n0", 0, "1\n0\n", ""),
        (
            "trace chip lib words",
            "1\n",
            0,
            "0 0 +\n0 1 .\n1 0 +\n1 1 +\n",
            "",
        ),
        ("trace chip lib words", "", 0, "", ""),
        (
            "verify chip lib words",
            "0\nx\n",
            13,
            "",
            "aqfp: words: line 2\n",
        ),
        (
            "trace chip lib words",
            "0\n\n1\n",
            13,
            "",
            "aqfp: words: line 2\n",
        ),
        (
            "verify chip net words",
            "0\nx\n",
            7,
            "",
            "aqfp: library: key wire\n",
        ),
        ("verify chip lib none", "", 2, "", "aqfp: none: absent\n"),
    ];
    for (line, words, status, lines, told) in cases {
        let head = if status == 0 {
            "rows 2 cells 2 wires 1 delay 1\n"
        } else {
            ""
        };
        let text = format!(in alloc; "{head}{lines}")?;
        let ran = checked(alloc, STREAM.as_slice(), words, line)?;
        assert_eq!(rt; ran.status, status, "{told}");
        assert_eq!(rt; ran.err.bytes(), told.as_bytes(), "{told}");
        assert_eq!(rt; ran.out.bytes(), text.as_bytes(), "{lines}");
    }
    Ok(())
}

// Whether a command on a stream is refused with this status and this line.
fn is_judged(alloc: Global, gds: &[u8], line: &str, status: u8, told: &str) -> Result<bool, Fail> {
    let run = checked(alloc, gds, "", line)?;
    Ok(run.status == status && run.err.bytes() == told.as_bytes())
}

#[test]
fn streams_are_judged(rt: HostRuntime) -> Result<(), Fail> {
    let alloc = rt.alloc();
    let lines = without_starts(alloc)?;
    let moved = with_via_moved(alloc)?;
    let cases = [
        (
            &STREAM[..1003],
            "verify chip lib words",
            11,
            "aqfp: stream: byte 1000: truncated\n",
        ),
        (
            lines.as_slice(),
            "trace chip lib words",
            12,
            "aqfp: rule E2: shapes 3 3\n",
        ),
        (
            moved.as_slice(),
            "verify chip lib words",
            12,
            "aqfp: rule G3: shapes 8 8\n",
        ),
    ];
    for (gds, line, status, told) in cases {
        assert!(rt; is_judged(alloc, gds, line, status, told)?, "{told}");
    }
    Ok(())
}

#[test]
fn out_may_fail(rt: HostRuntime) -> Result<(), Fail> {
    let alloc = rt.alloc();
    let words = words_in(alloc, "verify chip lib words")?;
    let mut files = stored_chip(alloc, &STREAM, "", LIBRARY_A, "0\n1\n")?;
    let mut out = MemSink::new(alloc);
    out.fail_at(0, 4)?;
    let mut err = MemSink::new(alloc);
    err.fail_at(0, 2)?;
    let ending = aqfp_run(alloc, &words, &mut files, &mut out, &mut err);
    assert_eq!(rt; ending.status, 5);
    assert_eq!(rt; out.bytes(), b"rows".as_slice());
    assert_eq!(rt; err.bytes(), b"aq".as_slice());
    Ok(())
}
