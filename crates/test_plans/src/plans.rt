// Netlists whose chips are worked by hand: how many rows and cells they have, or which limit they pass.
use blif_read::{Netlist, blif_read};
use cell_library::{Library, read_library};
use plan_build::{PlanRefusal, plan_chip, plan_laws};
use rowed::Placed;
use std::test::Fail;

const LIBRARY_A: &str =
    "wire = 1000\nspace = 1000\nvia = 600\nenclose = 200\npin = 1000\nheight = 10000\npitch = 2000\ncolumns = 4\ncapacity = 28\nlimit = 180000\n[buffer]\ninputs = [1]\noutputs = [2]\n[inverter]\ninputs = [1]\noutputs = [2]\n[zero]\ninputs = []\noutputs = [2]\n[one]\ninputs = []\noutputs = [2]\n[split2]\ninputs = [1]\noutputs = [2, 6]\n[split3]\ninputs = [1]\noutputs = [2, 6, 10]\n[majority]\ninputs = [1, 5, 9]\noutputs = [2]\n";

// Slots of 700 millimetres.
const WIDE: &str =
    "wire = 1000\nspace = 1000\nvia = 600\nenclose = 200\npin = 1000\nheight = 10000\npitch = 1000000\ncolumns = 700\ncapacity = 4\nlimit = 2000000000\n[buffer]\ninputs = [1]\noutputs = [2]\n[inverter]\ninputs = [1]\noutputs = [2]\n[zero]\ninputs = []\noutputs = [2]\n[one]\ninputs = []\noutputs = [2]\n[split2]\ninputs = [1]\noutputs = [2, 702]\n[split3]\ninputs = [1]\noutputs = [2, 702, 1402]\n[majority]\ninputs = [1, 701, 1401]\noutputs = [2]\n";

const WIRE: &str = ".model t\n.inputs a\n.outputs a\n.end\n";

const AND: &str = ".inputs a b\n.outputs y\n.names a b y\n11 1\n";

const TURNED_AND: &str = ".inputs a b\n.outputs y\n.names b a y\n11 1\n";

const EXCLUSIVE_OR: &str = ".inputs a b\n.outputs y\n.names a b y\n10 1\n01 1\n";

const CONSTANT: &str = ".inputs a\n.outputs a k\n.names k\n";

const THREE_USES: &str = ".inputs a\n.outputs a a a\n";

const FOUR: &str = ".inputs a b c d\n.outputs a b c d\n";

const TWO: &str = ".inputs a b\n.outputs a b\n";

// A part of a library that is replaced by itself: the library stays as it is.
const SAME: &str = "wire";

// What the plan gives.
#[derive(Clone, Copy, PartialEq)]
enum Plan {
    Chip { rows: usize, cells: usize },
    Refused(PlanRefusal),
}

fn size_of(chip: &Placed) -> Plan {
    let mut cells: usize = 0;
    for row in chip.net.rows.as_slice() {
        cells = cells.saturating_add(row.len());
    }
    let rows = chip.net.rows.len();
    Plan::Chip { rows, cells }
}

fn netlist(rt: &HostRuntime, text: &str) -> Result<Netlist, Fail> {
    if text.len() > 100_000 {
        return Err("a longer text".into());
    }
    match blif_read(rt.alloc(), text.as_bytes()) {
        Ok(net) => Ok(net),
        Err(_) => Err("no netlist".into()),
    }
}

// Library A, or another text, with one part replaced.
fn library(rt: &HostRuntime, text: &str, old: &str, new: &str) -> Result<Library, Fail> {
    let Some((before, after)) = text.split_once(old) else {
        return Err("a part that the text doesn't have".into());
    };
    let text = format!(in rt.alloc(); "{before}{new}{after}")?;
    if text.len() > 100_000 {
        return Err("a longer text".into());
    }
    match read_library(rt.alloc(), text.as_bytes()) {
        Ok(library) => Ok(library),
        Err(_) => Err("no library".into()),
    }
}

fn plan_of(rt: &HostRuntime, net: &Netlist, library: &Library) -> Plan {
    match plan_chip(rt.alloc(), library, net) {
        Ok(chip) => size_of(&chip),
        Err(refusal) => Plan::Refused(refusal),
    }
}

// What the plan of a text gives with a library, or with another text of one, with one part replaced.
fn plan_with(rt: &HostRuntime, text: &str, base: &str, old: &str, new: &str) -> Result<Plan, Fail> {
    let net = netlist(rt, text)?;
    let library = library(rt, base, old, new)?;
    Ok(plan_of(rt, &net, &library))
}

// With library A, and with changes of it: text, part, new part, rows, cells. An and has two buffers of inputs, a
// constant, the majority, and a buffer of the output; three uses have a splitter of three, or without it two of two and
// a buffer.
#[test]
fn chips(rt: HostRuntime) -> Result<(), Fail> {
    let split3 = "[split3]\ninputs = [1]\noutputs = [2, 6, 10]\n";
    for (text, old, new, rows, cells) in [
        (WIRE, SAME, SAME, 2, 2),
        (AND, SAME, SAME, 3, 5),
        (EXCLUSIVE_OR, SAME, SAME, 6, 13),
        (CONSTANT, SAME, SAME, 2, 4),
        (TURNED_AND, SAME, SAME, 3, 5),
        (TURNED_AND, "capacity = 28", "capacity = 4", 5, 11),
        (WIRE, "limit = 180000", "limit = 78000", 2, 2),
        (THREE_USES, SAME, SAME, 3, 5),
        (THREE_USES, split3, "", 4, 7),
    ] {
        let plan = plan_with(&rt, text, LIBRARY_A, old, new)?;
        assert!(rt; plan == Plan::Chip { rows, cells }, "{text}");
    }
    Ok(())
}

// Four slots are wider than may be, and two are not; six rows are taller than may be, and two are not.
#[test]
fn limits(rt: HostRuntime) -> Result<(), Fail> {
    let sizes = "pitch = 2000\ncolumns = 4\ncapacity = 28\nlimit = 180000";
    let tall = "pitch = 1000000\ncolumns = 4\ncapacity = 1000\nlimit = 2000000000";
    for (text, base, old, new, plan) in [
        (
            FOUR,
            WIDE,
            SAME,
            SAME,
            Plan::Refused(PlanRefusal::Slots { span: 4 }),
        ),
        (TWO, WIDE, SAME, SAME, Plan::Chip { rows: 2, cells: 4 }),
        (
            EXCLUSIVE_OR,
            LIBRARY_A,
            sizes,
            tall,
            Plan::Refused(PlanRefusal::Rows { rows: 6 }),
        ),
        (
            WIRE,
            LIBRARY_A,
            sizes,
            tall,
            Plan::Chip { rows: 2, cells: 2 },
        ),
    ] {
        assert!(rt; plan_with(&rt, text, base, old, new)? == plan, "{text}");
    }
    Ok(())
}

#[test]
fn laws(_rt: HostRuntime) {
    plan_laws();
}
