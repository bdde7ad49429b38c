// The first chip and changed ones, on both sides of the bound of each rule of geometry and of the rule of lengths.
ghost use Rattle.std.specs.Prelude.{◌+◌, ◌<◌, length};
ghost use Rattle.shape_extract.specs.Extracts.{Extracts};

use crate::fixtures::{INPUT, Named, OUTPUT, Told, chip, drawn};
use aq_base::Memory;
use cell_library::{Library, library_a, read_library};
use geom::{Flat, Shape};
use layout_rules::Rule;
use layout_rules::layers::{BAR, EVEN_LINE, FRAME, LINK, M1, M2, OUTPUT_PIN, VIA};
use rule_check::{CheckRefusal, check};
use shape_extract::{ExtractRefusal, Extracted, extract};
use std::alloc::Global;
use std::process::Abort;
use std::test::Fail;

const LIBRARY_A: &str =
    "wire = 1000\nspace = 1000\nvia = 600\nenclose = 200\npin = 1000\nheight = 10000\npitch = 2000\ncolumns = 4\ncapacity = 28\nlimit = 180000\n[buffer]\ninputs = [1]\noutputs = [2]\n[inverter]\ninputs = [1]\noutputs = [2]\n[zero]\ninputs = []\noutputs = [2]\n[one]\ninputs = []\noutputs = [2]\n[split2]\ninputs = [1]\noutputs = [2, 6]\n[split3]\ninputs = [1]\noutputs = [2, 6, 10]\n[majority]\ninputs = [1, 5, 9]\noutputs = [2]\n";

// Library A, where the wires of a net have this length at most.
fn limited(rt: &HostRuntime, limit: u32) -> Result<Library, Fail> {
    let Some((before, after)) = LIBRARY_A.split_once("limit = 180000") else {
        return Err("no limit in library A".into());
    };
    let text = format!(in rt.alloc(); "{before}limit = {limit}{after}")?;
    if text.len() > 100_000 {
        return Err("a longer text".into());
    }
    match read_library(rt.alloc(), text.as_bytes()) {
        Ok(library) => Ok(library),
        Err(_) => Err("no library".into()),
    }
}

fn checked(
    alloc: Global,
    flat: &Flat,
    circuit: &Extracted,
    library: &Library,
) -> Result<Told, Memory>
    requires few { length flat.now.shapes + length flat.now.labels < 1000 }
    requires circuit { Extracts flat.now circuit.now }
{
    match check(alloc, flat, circuit, library) {
        Ok(()) => Ok(None),
        Err(
            CheckRefusal::Broken {
                rule,
                first,
                second,
            },
        ) => Ok(Some((rule, first, second))),
        Err(CheckRefusal::Memory) => Err(Memory),
    }
}

// What is told of a chip when its circuit is extracted, or else when it is checked with a library.
fn told_of(alloc: Global, flat: &Flat, library: &Library) -> Result<Told, Memory>
    requires { length flat.now.shapes + length flat.now.labels < 1000 }
{
    match extract(alloc, flat) {
        Ok(circuit) => checked(alloc, flat, &circuit, library),
        Err(
            ExtractRefusal::Broken {
                rule,
                first,
                second,
            },
        ) => Ok(Some((rule, first, second))),
        Err(ExtractRefusal::Memory) => Err(Memory),
    }
}

// The same of the first chip with these changes and labels.
fn told(
    alloc: Global,
    rt: &impl Abort,
    changes: &[(usize, Shape)],
    labels: &[Named],
    library: &Library,
) -> Result<Told, Memory> {
    let flat = chip(alloc, changes, labels)?;
    assert!(rt; flat.shapes.len() < 100 && flat.labels.len() < 100);
    told_of(alloc, &flat, library)
}

#[test]
fn one_shape_changed_or_added(rt: HostRuntime) -> Result<(), Fail> {
    let library = library_a(rt.alloc()).or(Err("out of memory"))?;
    let cases = [
        // a wire too narrow by one
        (
            5,
            drawn(M1, 0, 4_500, 9_000, 999, 3_500),
            Some((Rule::G1, 5, 5)),
        ),
        // metal 900 from a wire, and as far as it has to be
        (
            15,
            drawn(M2, 0, 6_400, 11_500, 1_000, 1_000),
            Some((Rule::G2, 7, 15)),
        ),
        (15, drawn(M2, 0, 6_500, 11_500, 1_000, 1_000), None),
        // a via that reaches past its margin by one, and one that doesn't
        (
            8,
            drawn(VIA, 0, 4_699, 11_700, 601, 600),
            Some((Rule::G3, 8, 8)),
        ),
        (8, drawn(VIA, 0, 4_700, 11_700, 600, 600), None),
        // a wire over a cell beside its pin, and metal of the upper plane over a cell
        (
            5,
            drawn(M1, 0, 4_500, 9_000, 1_100, 3_500),
            Some((Rule::G4, 5, 0)),
        ),
        (
            15,
            drawn(M2, 0, 6_600, 9_500, 1_000, 1_500),
            Some((Rule::G4, 15, 0)),
        ),
        (15, drawn(M2, 0, 6_600, 10_000, 1_000, 1_000), None),
    ];
    for (number, shape, expected) in cases {
        let told = told(
            rt.alloc(),
            &rt,
            &[(number, shape)],
            &[INPUT, OUTPUT],
            &library,
        )?;
        assert_eq!(rt; told, expected);
    }
    Ok(())
}

// A cell of the constant zero, 8,000 wide, in the lowest row from this edge on, with the row's line over it.
fn beside(left: u16) -> [(usize, Shape); 3] {
    let (edge, bar) = (i32::from(left), u32::from(left) + 8_000);
    [
        (15, drawn(FRAME, 3, edge, 0, 8_000, 10_000)),
        (16, drawn(OUTPUT_PIN, 0, edge + 4_500, 9_000, 1_000, 1_000)),
        (4, drawn(EVEN_LINE, BAR, 0, 0, bar, 10_000)),
    ]
}

// A cell of the constant zero, far to the right, in a third row from this height on, with the line of the even rows led
// over both.
fn above(low: u16) -> [(usize, Shape); 5] {
    let edge = i32::from(low);
    [
        (15, drawn(FRAME, 3, 30_000, edge, 8_000, 3_000)),
        (16, drawn(OUTPUT_PIN, 0, 34_500, edge + 2_000, 1_000, 1_000)),
        (4, drawn(EVEN_LINE, BAR, 0, 0, 38_000, 10_000)),
        (17, drawn(EVEN_LINE, LINK, 38_000, 0, 4_000, 27_000)),
        (18, drawn(EVEN_LINE, BAR, 30_000, edge, 8_000, 3_000)),
    ]
}

// A frame over another, and beside it; and one whose heights meet those of another row by one, and don't.
#[test]
fn frames_that_collide(rt: HostRuntime) -> Result<(), Fail> {
    let library = library_a(rt.alloc()).or(Err("out of memory"))?;
    for (left, expected) in [(7_000, Some((Rule::G5, 0, 15))), (8_000, None)] {
        let labels = [INPUT, OUTPUT];
        let told = told(rt.alloc(), &rt, &beside(left), &labels, &library)?;
        assert_eq!(rt; told, expected, "{left}");
    }
    for (low, expected) in [(23_999, Some((Rule::G5, 10, 15))), (24_000, None)] {
        let labels = [INPUT, Named(35_000, 26_500, b"O0")];
        let told = told(rt.alloc(), &rt, &above(low), &labels, &library)?;
        assert_eq!(rt; told, expected, "{low}");
    }
    Ok(())
}

// Wires of 100,000 in all: two of 3,500, and one that goes on to the right past its via.
#[test]
fn lengths_of_the_wires(rt: HostRuntime) -> Result<(), Fail> {
    let changes = [(7, drawn(M2, 0, 2_500, 11_500, 93_000, 1_000))];
    for (limit, expected) in [(100_000, None), (99_999, Some((Rule::E5, 5, 5)))] {
        let library = limited(&rt, limit)?;
        let told = told(rt.alloc(), &rt, &changes, &[INPUT, OUTPUT], &library)?;
        assert_eq!(rt; told, expected, "{limit}");
    }
    Ok(())
}

#[test]
fn a_chip_that_keeps_all_rules(rt: HostRuntime) -> Result<(), Fail> {
    let library = library_a(rt.alloc()).or(Err("out of memory"))?;
    let told = told(rt.alloc(), &rt, &[], &[INPUT, OUTPUT], &library)?;
    assert_eq!(rt; told, None);
    Ok(())
}
