// Each call of the store and of the sinks failing in turn, with what is told and what stands.
ghost use Rattle.std.specs.Prelude.{◌≡◌, None};
ghost use Rattle.aq_base.specs.MemoryStore.{store_of};

use aq_base::{MemFiles, MemSink};
use aqfp_top::aqfp_run;
use std::alloc::Global;
use std::test::Fail;
use test_runs::{
    FIRST_NETLIST, LIBRARY_A, Outcome, STREAM, WIRE, ran, ran_into, store, wires, with_chip,
    words_in,
};

// What a run told, and how many bytes `out` holds.
fn is_left(run: &Outcome, status: u8, told: &str, held: Option<usize>) -> bool {
    run.status == status
        && run.err.bytes() == told.as_bytes()
        && run.files.bytes("out").map(|bytes| bytes.len()) == held
}

// The first chip is built: its calls are two loads, a create, an append and a close.
#[test]
fn each_call_of_a_build_fails(rt: HostRuntime) -> Result<(), Fail> {
    let failed = "aqfp: write failed\n";
    let cases = [
        (0, 0, 4, "aqfp: net: read failed\n", None),
        (1, 0, 4, "aqfp: lib: read failed\n", None),
        (2, 0, 5, failed, None),
        (3, 0, 5, failed, Some(0)),
        (3, 100, 5, failed, Some(100)),
        (3, 900, 5, failed, Some(900)),
        (4, 0, 5, failed, Some(1046)),
        (5, 0, 0, "", Some(1046)),
    ];
    for (call, keep, status, told, held) in cases {
        let mut files = store(rt.alloc(), WIRE.as_bytes(), LIBRARY_A.as_bytes())?;
        files.fail_at(call, keep)?;
        let run = ran(rt.alloc(), files, "build net lib out")?;
        assert!(rt; is_left(&run, status, told, held), "call {call}");
        assert_eq!(rt; run.out.bytes().is_empty(), status != 0, "call {call}");
        // a file that was opened is closed
        let made = if call < 3 { call + 1 } else { 5 };
        assert_eq!(rt; run.files.calls(), made, "call {call}");
    }
    Ok(())
}

#[test]
fn a_failed_append_is_told_once(rt: HostRuntime) -> Result<(), Fail> {
    let mut files = store(rt.alloc(), WIRE.as_bytes(), LIBRARY_A.as_bytes())?;
    files.fail_at(3, 7)?;
    files.fail_at(4, 0)?;
    let run = ran(rt.alloc(), files, "build net lib out")?;
    assert!(rt; is_left(&run, 5, "aqfp: write failed\n", Some(7)));
    assert_eq!(rt; run.files.calls(), 5);
    Ok(())
}

// A stream of two pieces, of which the second is cut off.
#[test]
fn a_second_piece_fails(rt: HostRuntime) -> Result<(), Fail> {
    let net = wires(rt.alloc(), 200)?;
    let mut files = store(rt.alloc(), net.as_bytes(), LIBRARY_A.as_bytes())?;
    files.fail_at(4, 10)?;
    let run = ran(rt.alloc(), files, "build net lib out")?;
    assert!(rt; is_left(&run, 5, "aqfp: write failed\n", Some(65_546)));
    Ok(())
}

// The netlist of the first chip is stored: its calls are two loads, a create, an append and a close.
#[test]
fn each_call_of_a_netlist_fails(rt: HostRuntime) -> Result<(), Fail> {
    let failed = "aqfp: write failed\n";
    let whole = Some(FIRST_NETLIST.len());
    let cases = [
        (0, 4, "aqfp: chip: read failed\n", None),
        (1, 4, "aqfp: lib: read failed\n", None),
        (2, 5, failed, None),
        (4, 5, failed, whole),
        (5, 0, "", whole),
    ];
    for (call, status, told, held) in cases {
        let mut files = with_chip(rt.alloc())?;
        files.fail_at(call, 0)?;
        let run = ran(rt.alloc(), files, "netlist chip lib out")?;
        assert!(rt; is_left(&run, status, told, held), "call {call}");
        assert_eq!(rt; run.out.bytes().is_empty(), status != 0, "call {call}");
    }
    Ok(())
}

// Whether a netlist whose append keeps so many bytes leaves these and is closed.
fn is_kept(alloc: Global, keep: usize) -> Result<bool, Fail> {
    let mut files = with_chip(alloc)?;
    files.fail_at(3, keep as u64)?;
    let run = ran(alloc, files, "netlist chip lib out")?;
    Ok(
        is_left(&run, 5, "aqfp: write failed\n", Some(keep))
            && run.files.bytes("out") == FIRST_NETLIST.as_bytes().get(..keep)
            && run.files.bytes("chip") == Some(STREAM.as_slice())
            && run.files.calls() == 5
            && run.out.bytes().is_empty(),
    )
}

#[test]
fn an_append_of_a_netlist_keeps_its_first_bytes(rt: HostRuntime) -> Result<(), Fail> {
    for keep in 0..=FIRST_NETLIST.len() {
        assert!(rt; is_kept(rt.alloc(), keep)?, "keeping {keep}");
    }
    Ok(())
}

#[test]
fn each_load_of_a_chip_fails(rt: HostRuntime) -> Result<(), Fail> {
    let loads = [
        (0, "aqfp: chip: read failed\n"),
        (1, "aqfp: lib: read failed\n"),
        (2, "aqfp: words: read failed\n"),
    ];
    for command in ["verify", "trace", "equal"] {
        for (call, told) in loads {
            let mut files = with_chip(rt.alloc())?;
            files.fail_at(call, 0)?;
            let line = format!(in rt.alloc(); "{command} chip lib words")?;
            let run = ran(rt.alloc(), files, line.as_str())?;
            assert!(rt; is_left(&run, 4, told, None), "{command} {call}");
            assert!(rt; run.out.bytes().is_empty(), "{command} {call}");
        }
    }
    Ok(())
}

// A run over the first chip, whose `out` refuses a call once it has kept some bytes.
fn cut_off(alloc: Global, line: &str, call: u64, keep: u64) -> Result<Outcome, Fail> {
    let files = with_chip(alloc)?;
    let mut out = MemSink::new(alloc);
    out.fail_at(call, keep)?;
    Ok(ran_into(alloc, files, out, line)?)
}

// Whether a run whose `out` failed told so, and printed some first bytes of a text.
fn is_cut(run: &Outcome, text: &[u8]) -> bool {
    run.status == 5
        && run.err.bytes() == b"aqfp: write failed\n".as_slice()
        && text.starts_with(run.out.bytes())
}

// How many calls of `out` a command line makes, each of which may fail; none where one is not told.
fn failing_puts(alloc: Global, line: &str, text: &[u8], keep: u64) -> Result<Option<u64>, Fail> {
    for call in 0..100 {
        let run = cut_off(alloc, line, call, keep)?;
        if run.status == 0 {
            return Ok(Some(call));
        }
        if !is_cut(&run, text) {
            return Ok(None);
        }
    }
    Ok(None)
}

#[test]
fn each_put_fails(rt: HostRuntime) -> Result<(), Fail> {
    let lines = [
        "build net lib out",
        "verify chip lib words",
        "trace chip lib words",
        "netlist chip lib out",
        "equal chip lib net",
        "report chip lib",
        "shapes chip 0 16",
        "sample 1",
    ];
    for line in lines {
        let whole = ran(rt.alloc(), with_chip(rt.alloc())?, line)?;
        assert_eq!(rt; whole.status, 0, "{line}");
        for keep in [0, 1] {
            let puts = failing_puts(rt.alloc(), line, whole.out.bytes(), keep)?;
            assert!(rt; puts.is_some_and(|puts| puts > 0), "{line}, keeping {keep}");
        }
    }
    Ok(())
}

// Whether a run whose first put keeps so many bytes tells so, and prints these.
fn is_cut_at(alloc: Global, line: &str, text: &str, keep: usize) -> Result<bool, Fail> {
    let mut out = MemSink::new(alloc);
    out.fail_at(0, keep as u64)?;
    let run = ran_into(alloc, with_chip(alloc)?, out, line)?;
    Ok(is_cut(&run, text.as_bytes()) && run.out.bytes().len() == keep)
}

#[test]
fn a_put_keeps_its_first_bytes(rt: HostRuntime) -> Result<(), Fail> {
    let cases = [
        ("netlist chip lib out", "rows 2 cells 2 wires 1 delay 1\n"),
        ("equal chip lib net", "equal\n"),
    ];
    for (line, text) in cases {
        for keep in 0..=text.len() {
            let told = is_cut_at(rt.alloc(), line, text, keep)?;
            assert!(rt; told, "{line}, keeping {keep}");
        }
    }
    Ok(())
}

// A build whose line is refused has stored its chip, and a netlist its text.
#[test]
fn what_is_not_told_stands(rt: HostRuntime) -> Result<(), Fail> {
    let cases = [
        ("build net lib out", 1046),
        ("netlist chip lib out", FIRST_NETLIST.len()),
    ];
    for (line, held) in cases {
        let run = cut_off(rt.alloc(), line, 0, 0)?;
        assert!(rt;
            is_left(&run, 5, "aqfp: write failed\n", Some(held)),
            "{line}"
        );
    }
    Ok(())
}

// The status and what `err` holds, where its first call fails.
fn unheard(alloc: Global, mut files: MemFiles, line: &str) -> Result<(u8, usize), Fail>
    requires { (store_of files).opened ≡ None }
{
    let words = words_in(alloc, line)?;
    let mut out = MemSink::new(alloc);
    let mut err = MemSink::new(alloc);
    err.fail_at(0, 0)?;
    let ending = aqfp_run(alloc, &words, &mut files, &mut out, &mut err);
    Ok((ending.status, err.bytes().len()))
}

#[test]
fn a_line_that_is_not_heard_changes_no_status(rt: HostRuntime) -> Result<(), Fail> {
    for (line, status) in [
        ("", 1),
        ("build none lib out", 2),
        ("verify net lib words", 11),
    ] {
        let files = store(rt.alloc(), WIRE.as_bytes(), LIBRARY_A.as_bytes())?;
        assert_eq!(rt; unheard(rt.alloc(), files, line)?, (status, 0), "{line}");
    }
    Ok(())
}
