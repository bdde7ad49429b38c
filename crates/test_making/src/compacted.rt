// Compact chips over a store in memory: what is stored, printed and refused, beside what `build` does.
use std::alloc::Global;
use std::test::Fail;
use test_runs::{AND, LIBRARY_A, Outcome, STREAM, WIRE, XOR, ran, stored, stored_chip};

// The number of cells in a counts line, `rows R cells C ..`.
fn cells_told(line: &[u8]) -> u64 {
    let mut blanks = 0u32;
    let mut cells = 0u64;
    for byte in line {
        if *byte == b' ' {
            blanks = blanks.saturating_add(1);
        } else if blanks == 3 && byte.is_ascii_digit() {
            cells = cells
                .saturating_mul(10)
                .saturating_add(u64::from(byte.wrapping_sub(b'0')));
        }
    }
    cells
}

// What a command makes of a netlist with library A, of which one part is replaced.
fn made(alloc: Global, command: &str, net: &str, from: &str, to: &str) -> Result<Outcome, Fail> {
    let lib = LIBRARY_A.replace(alloc, from, to)?;
    Ok(ran(alloc, stored(alloc, net, lib.as_str(), "")?, command)?)
}

// What `verify` prints of a chip with the same library, behind the counts line.
fn answers(alloc: Global, chip: &[u8], from: &str, to: &str, words: &str) -> Result<Outcome, Fail> {
    let lib = LIBRARY_A.replace(alloc, from, to)?;
    let files = stored_chip(alloc, chip, "", lib.as_str(), words)?;
    Ok(ran(alloc, files, "verify chip lib words")?)
}

// Whether the compact chip of the netlist answers so, and has at most as many cells as that of `build`.
fn is_compacted(
    alloc: Global,
    net: &str,
    from: &str,
    to: &str,
    words: &str,
    told: &str,
) -> Result<bool, Fail> {
    let compact = made(alloc, "compact net lib out", net, from, to)?;
    let built = made(alloc, "build net lib out", net, from, to)?;
    let chip = compact.files.bytes("out").unwrap_or(&[]);
    let shown = answers(alloc, chip, from, to, words)?;
    let smaller = cells_told(compact.out.bytes()) <= cells_told(built.out.bytes());
    let line = compact.out.bytes();
    let answered = shown.out.bytes().starts_with(line)
        && shown.out.bytes().ends_with(told.as_bytes());
    Ok(compact.status == 0 && built.status == 0 && shown.status == 0 && smaller && answered)
}

// A chip that can't be smaller is that of `build`.
#[test]
fn a_wire_is_compacted(rt: HostRuntime) -> Result<(), Fail> {
    let alloc = rt.alloc();
    let ran = ran(
        alloc,
        stored(alloc, WIRE, LIBRARY_A, "")?,
        "compact net lib net",
    )?;
    assert_eq!(rt; ran.status, 0);
    assert_eq!(rt; ran.files.bytes("net"), Some(STREAM.as_slice()));
    assert_eq!(rt;
        ran.out.bytes(),
        b"rows 2 cells 2 wires 1 delay 1\n".as_slice()
    );
    Ok(())
}

#[test]
fn compact_chips_answer(rt: HostRuntime) -> Result<(), Fail> {
    let same = "capacity = 28";
    let cases = [
        (AND, same, "00\n01\n10\n11\n", "\n0\n0\n0\n1\n"),
        (XOR, same, "00\n01\n10\n11\n", "\n0\n1\n1\n0\n"),
        (
            ".model one\n.outputs y\n.names y\n1\n.end\n",
            same,
            "\n\n\n",
            "\n1\n1\n1\n",
        ),
        (
            ".inputs a b\n.outputs a a\n",
            same,
            "10\n01\n",
            "\n11\n00\n",
        ),
        (
            ".inputs a b c d\n.outputs y z\n.names a b c d y\n1-1- 0\n.names z\n",
            same,
            "0000\n1010\n1111\n1000\n",
            "\n10\n00\n00\n10\n",
        ),
        (
            "# head\n.model top\n.inputs a \\\nb\n.outputs y\n.names $false\n.names $true\n1\n.names $undef\n.names a b y\n1- 1\n-1 1\n.end\n",
            same,
            "00\n01\n10\n11\n",
            "\n0\n1\n1\n1\n",
        ),
        (
            ".inputs a b\n.outputs y\n.names b a y\n11 1\n",
            "capacity = 4",
            "00\n01\n10\n11\n",
            "\n0\n0\n0\n1\n",
        ),
        (
            ".inputs a\n.outputs a k\n.names k\n",
            same,
            "0\n1\n",
            "\n00\n10\n",
        ),
        (
            ".inputs a\n.outputs a a a\n",
            same,
            "1\n0\n",
            "\n111\n000\n",
        ),
        (
            ".inputs a b c\n.outputs y\n.names a b c y\n100 1\n010 1\n001 1\n111 1\n",
            same,
            "000\n100\n110\n111\n",
            "\n0\n1\n0\n1\n",
        ),
    ];
    for (net, to, words, told) in cases {
        let good = is_compacted(rt.alloc(), net, same, to, words, told)?;
        assert!(rt; good, "{net}");
    }
    Ok(())
}

// Five outputs of one signal of three inputs, among eight inputs.
#[test]
fn one_tree_serves_all_uses(rt: HostRuntime) -> Result<(), Fail> {
    let net =
        ".inputs i0 i1 i2 i3 i4 i5 i6 i7\n.outputs n20 n20 n20 n20 n20\n.names i1 i7 i5 n20\n0-1 1\n100 1\n";
    let compact = made(rt.alloc(), "compact net lib out", net, "", "")?;
    assert_eq!(rt; compact.status, 0);
    assert!(rt; cells_told(compact.out.bytes()) <= 30);
    Ok(())
}

// What `build` refuses and no search can mend is refused alike.
#[test]
fn a_wide_cell_is_refused(rt: HostRuntime) -> Result<(), Fail> {
    let alloc = rt.alloc();
    let lib =
        "wire = 1000\nspace = 1000\nvia = 600\nenclose = 200\npin = 1000\nheight = 10000\npitch = 1000000\ncolumns = 700\ncapacity = 4\nlimit = 2000000000\n[buffer]\ninputs = [1]\noutputs = [2]\n[inverter]\ninputs = [1]\noutputs = [2]\n[zero]\ninputs = []\noutputs = [2]\n[one]\ninputs = []\noutputs = [2]\n[split2]\ninputs = [1]\noutputs = [2, 702]\n[split3]\ninputs = [1]\noutputs = [2, 702, 1402]\n[majority]\ninputs = [1, 701, 1401]\noutputs = [2]\n";
    let net = ".inputs a b c d\n.outputs a b c d\n";
    let ran = ran(alloc, stored(alloc, net, lib, "")?, "compact net lib out")?;
    assert_eq!(rt; ran.status, 10);
    assert_eq!(rt; ran.err.bytes(), b"aqfp: too large: 4 slots\n".as_slice());
    assert!(rt; ran.files.bytes("out").is_none());
    Ok(())
}
