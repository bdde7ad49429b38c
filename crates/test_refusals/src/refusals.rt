// Texts and streams that are made against their readers, with the line that the program prints.
use std::alloc::{AllocError, Global};
use std::test::Fail;
use test_runs::{LIBRARY_A, Refusal, STREAM, WIRE, edited, holding, is_refused, put_at, store};

fn is_bad_netlist(alloc: Global, net: &str, refusal: Refusal<'_>) -> Result<bool, Fail> {
    let files = store(alloc, net.as_bytes(), LIBRARY_A.as_bytes())?;
    is_refused(alloc, files, "build net lib out", refusal)
}

#[test]
fn netlists_are_refused(rt: HostRuntime) -> Result<(), Fail> {
    let cases = [
        ("", "line 0: no outputs"),
        ("1 1\n", "line 1: row alone"),
        (".end\n.inputs a\n", "line 2: unsupported"),
        (".inputs a\n.outputs a\n.names a\n1\n", "line 3: duplicate"),
        (".outputs y\n.names y\n1\n0\n", "line 4: row value"),
        (".outputs y\n.names y\n- 1\n", "line 3: row shape"),
        (".outputs y\n.names a y\n1 1\n", "line 2: undefined"),
        (".outputs y\n.names y y\n1 1\n", "line 2: cycle y"),
        (".outputs y\n.names \u{1}\n", "line 2: token"),
    ];
    for (net, told) in cases {
        let refusal = Refusal { status: 6, told };
        assert!(rt; is_bad_netlist(rt.alloc(), net, refusal)?, "{told}");
    }
    Ok(())
}

#[test]
fn designs_are_refused(rt: HostRuntime) -> Result<(), Fail> {
    let cases = [
        (".model a\n.model b\n", 16, "line 0: subckt no outputs"),
        (
            ".model a\n.inputs x\n.outputs y\n.subckt a x=x y=y\n",
            16,
            "line 4: subckt recursive",
        ),
        (
            ".subckt b o=y\n.outputs y\n",
            16,
            "line 1: subckt unknown model",
        ),
        (
            ".outputs y\n.names y\n.model b\n.model b\n",
            16,
            "line 4: subckt model twice",
        ),
        (
            ".subckt b y\n.outputs y\n.model b\n.outputs o\n.names o\n",
            16,
            "line 1: subckt ports",
        ),
        (
            ".outputs y\n.subckt b o=y\n.names y\n.model b\n.outputs o\n.names o\n",
            16,
            "line 3: subckt duplicate",
        ),
        (
            ".outputs y\n.subckt b i=x o=y\n.model b\n.inputs i\n.outputs o\n.names i o\n1 1\n",
            16,
            "line 2: subckt undefined",
        ),
        (
            ".outputs y\n.subckt b i=y o=y\n.model b\n.inputs i\n.outputs o\n.names i o\n1 1\n",
            6,
            "line 2: cycle #1.i y #1.o",
        ),
        (
            ".outputs y\n.subckt b o=y\n.latch a b 0\n",
            6,
            "line 3: unsupported",
        ),
    ];
    for (net, status, told) in cases {
        let refusal = Refusal { status, told };
        assert!(rt; is_bad_netlist(rt.alloc(), net, refusal)?, "{told}");
    }
    Ok(())
}

fn is_bad_library(alloc: Global, lib: &[u8], told: &str, status: u8) -> Result<bool, Fail> {
    let files = store(alloc, WIRE.as_bytes(), lib)?;
    let told = format!(in alloc; "library: {told}")?;
    let refusal = Refusal {
        status,
        told: told.as_str(),
    };
    is_refused(alloc, files, "build net lib out", refusal)
}

#[test]
fn texts_of_libraries_are_refused(rt: HostRuntime) -> Result<(), Fail> {
    let cases: [(&[u8], &str); 5] = [
        (b"", "key wire"),
        (b"= =", "text"),
        (b"wire = 1 # \xff", "text"),
        (b"wire = 1.5", "key wire"),
        (b"wire = 0", "wire = 0"),
    ];
    for (lib, told) in cases {
        assert!(rt; is_bad_library(rt.alloc(), lib, told, 7)?, "{told}");
    }
    Ok(())
}

fn is_bad_change(alloc: Global, old: &str, new: &str, told: &str) -> Result<bool, Fail> {
    let lib = LIBRARY_A.replace(alloc, old, new)?;
    is_bad_library(alloc, lib.as_bytes(), told, 7)
}

#[test]
fn changes_of_libraries_are_refused(rt: HostRuntime) -> Result<(), Fail> {
    let cases = [
        ("wire = 1000", "color = 1\nwire = 1000", "key color"),
        ("[buffer]\n", "[buffer]\nx = 1\n", "key buffer.x"),
        (
            "[buffer]\ninputs = [1]",
            "[buffer]\ninputs = [\"a\"]",
            "key buffer.inputs",
        ),
        (
            "[buffer]\ninputs = [1]",
            "[buffer]\ninputs = [3000]",
            "buffer.inputs = 3000",
        ),
        (
            "[buffer]\ninputs = [1]",
            "[buffer]\ninputs = [1, 2]",
            "law 6",
        ),
        ("[buffer]\ninputs = [1]", "[buffer]\ninputs = [5]", "law 7"),
        ("via = 600", "via = 601", "law 1"),
        ("columns = 4", "columns = 3", "law 2"),
        ("wire = 1000", "wire = 998", "law 3"),
        ("pitch = 2000", "pitch = 1998", "law 4"),
        ("height = 10000", "height = 2998", "law 5"),
        ("pin = 1000", "pin = 998", "law 12"),
        ("outputs = [2, 6]\n", "outputs = [2, 5]\n", "law 10"),
    ];
    for (old, new, told) in cases {
        assert!(rt; is_bad_change(rt.alloc(), old, new, told)?, "{told}");
    }
    Ok(())
}

// Library A with cells of three slots that are wider than a coordinate.
fn wide_library(alloc: Global) -> Result<String, AllocError> {
    let mut lib = LIBRARY_A.to_string(alloc)?;
    for (old, new) in [
        ("columns = 4", "columns = 1000"),
        ("pitch = 2000", "pitch = 1000000"),
        ("capacity = 28", "capacity = 1"),
        ("limit = 180000", "limit = 2147483647"),
        ("[1, 5, 9]", "[1, 1001, 2001]"),
        ("[2, 6]", "[2, 1002]"),
        ("[2, 6, 10]", "[2, 1002, 2002]"),
    ] {
        lib = lib.replace(alloc, old, new)?;
    }
    Ok(lib)
}

#[test]
fn cells_that_are_too_wide_are_refused(rt: HostRuntime) -> Result<(), Fail> {
    let lib = wide_library(rt.alloc())?;
    assert!(rt; is_bad_library(rt.alloc(), lib.as_bytes(), "law 13", 7)?);
    Ok(())
}

fn is_bad_stream(alloc: Global, chip: &[u8], told: &str) -> Result<bool, Fail> {
    let told = format!(in alloc; "stream: byte {told}")?;
    let refusal = Refusal {
        status: 11,
        told: told.as_str(),
    };
    let files = holding(alloc, chip)?;
    is_refused(alloc, files, "verify chip lib words", refusal)
}

#[test]
fn streams_are_refused(rt: HostRuntime) -> Result<(), Fail> {
    let cases = [
        (put_at(0, 1046, b""), "0: truncated"),
        (put_at(0, 1046, b"\x00\x03\x00\x02"), "0: length"),
        (put_at(0, 1046, b"\x00\x04\x00\x02"), "0: length"),
        (put_at(0, 1046, b"\x00\x06\x00\x03\x02\x58"), "0: data type"),
        (put_at(0, 6, b""), "0: order"),
        (put_at(42, 20, b""), "42: order"),
        (put_at(54, 1, b"\x3a"), "42: value"),
        (put_at(62, 984, b"\x00\x04\x04\x00"), "62: no top"),
        (put_at(100, 1, b"\x09"), "114: order"),
        (put_at(100, 1, b"\x15"), "98: unsupported"),
        (put_at(133, 1, b"\x01"), "114: not a rectangle"),
        (put_at(326, 3, b"BUF"), "322: value"),
        (put_at(340, 1, b"G"), "334: unknown name"),
        (
            put_at(342, 0, b"\x00\x06\x1a\x01\x00\x02"),
            "342: unsupported",
        ),
        (put_at(1046, 0, b"\x01"), "1046: value"),
    ];
    for (edit, told) in cases {
        let bytes = edited(rt.alloc(), STREAM.as_slice(), edit)?;
        assert!(rt;
            is_bad_stream(rt.alloc(), bytes.as_slice(), told)?,
            "{told}"
        );
    }
    Ok(())
}

// The later place first, so that the other one stays.
#[test]
fn streams_with_other_references_are_refused(rt: HostRuntime) -> Result<(), Fail> {
    let cases = [
        (
            put_at(814, 3, b"TOP"),
            put_at(338, 3, b"TOP"),
            "294: unsupported",
        ),
        (
            put_at(806, 28, b""),
            put_at(330, 28, b""),
            "294: several tops",
        ),
    ];
    for (later, sooner, told) in cases {
        let once = edited(rt.alloc(), STREAM.as_slice(), later)?;
        let bytes = edited(rt.alloc(), once.as_slice(), sooner)?;
        assert!(rt;
            is_bad_stream(rt.alloc(), bytes.as_slice(), told)?,
            "{told}"
        );
    }
    Ok(())
}
