// The first chip as other tools may draw it, with a path or an array, and structures that refer to each other.
ghost use Rattle.std.specs.Prelude.{◌≡◌, None, IfOk};
ghost use Rattle.aq_base.specs.MemoryStore.{store_of};

use aq_base::MemFiles;
use std::alloc::Global;
use std::test::Fail;
use test_runs::{
    Edit, FIRST_NETLIST, Refusal, STREAM, edited, holding, is_refused, put_at, ran, with_chip,
};

// A path 1000 wide on the layer M1, from 5000, 9000 to 5000, 12500.
const PATH: [u8; 48] = [
    0, 4, 9, 0, 0, 6, 13, 2, 0, 10, 0, 6, 14, 2, 0, 0, 0, 8, 15, 3, 0, 0, 3, 232, 0, 20, 16, 3, 0,
    0, 19, 136, 0, 0, 35, 40, 0, 0, 19, 136, 0, 0, 48, 212, 0, 4, 17, 0,
];

// BUF in one column and two rows from 0, 0 on, with the ends of the grid at 8000, 0 and 0, 28000.
const ARRAY: [u8; 52] = [
    0, 4, 11, 0, 0, 8, 18, 6, 66, 85, 70, 0, 0, 8, 19, 2, 0, 1, 0, 2, 0, 28, 16, 3, 0, 0, 0, 0, 0,
    0, 0, 0, 0, 0, 31, 64, 0, 0, 0, 0, 0, 0, 0, 0, 0, 0, 109, 96, 0, 4, 17, 0,
];

// A reference to TOP at 0, 0.
const TOP: [u8; 28] = [
    0, 4, 10, 0, 0, 8, 18, 6, 84, 79, 80, 0, 0, 12, 16, 3, 0, 0, 0, 0, 0, 0, 0, 0, 0, 4, 17, 0,
];

// A store with the first chip, changed at two places, of which the later one comes first.
fn with_changes(alloc: Global, later: Edit<'_>, sooner: Edit<'_>) -> Result<MemFiles, Fail>
    ensures { IfOk result (λ files. (store_of files).opened ≡ None) }
{
    let once = edited(alloc, STREAM.as_slice(), later)?;
    let bytes = edited(alloc, once.as_slice(), sooner)?;
    Ok(holding(alloc, bytes.as_slice())?)
}

// Whether a command line prints the same of the first chip and of another, and stores its netlist or nothing.
fn is_the_same(alloc: Global, files: MemFiles, line: &str) -> Result<bool, Fail>
    requires { (store_of files).opened ≡ None }
{
    let first = ran(alloc, with_chip(alloc)?, line)?;
    let other = ran(alloc, files, line)?;
    let stored = line.ends_with("out").then_some(FIRST_NETLIST.as_bytes());
    Ok(
        other.status == 0
            && other.out.bytes() == first.out.bytes()
            && other.files.bytes("out") == stored,
    )
}

// One boundary as a path; and both references as one array.
#[test]
fn drawn_otherwise_a_chip_is_the_same(rt: HostRuntime) -> Result<(), Fail> {
    let changes = [
        (put_at(486, 64, &PATH), put_at(0, 0, b"")),
        (put_at(806, 28, b""), put_at(330, 28, &ARRAY)),
    ];
    let lines = [
        "verify chip lib words",
        "trace chip lib words",
        "netlist chip lib out",
        "equal chip lib net",
    ];
    for (later, sooner) in changes {
        for line in lines {
            let files = with_changes(rt.alloc(), later, sooner)?;
            assert!(rt; is_the_same(rt.alloc(), files, line)?, "{line}");
        }
    }
    Ok(())
}

#[test]
fn structures_in_a_loop_are_refused(rt: HostRuntime) -> Result<(), Fail> {
    let files = with_changes(rt.alloc(), put_at(290, 0, &TOP), put_at(0, 0, b""))?;
    let refusal = Refusal {
        status: 11,
        told: "stream: byte 62: unsupported",
    };
    assert!(rt; is_refused(rt.alloc(), files, "verify chip lib words", refusal)?);
    Ok(())
}
