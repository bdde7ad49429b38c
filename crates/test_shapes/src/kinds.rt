// One row with a cell of each kind, in the order of their numbers, and its netlist.
use crate::fixtures::{Named, drawn, labels_of};
use aq_base::{Files, List, MemFiles};
use blif_flat::write_blif;
use geom::{Flat, Shape};
use layout_rules::layers::{BAR, EVEN_LINE, FRAME, INPUT_PIN, OUTPUT_PIN, START};
use shape_extract::{Extracted, extract};
use std::test::Fail;

fn shapes() -> [Shape; 26] {
    [
        drawn(FRAME, 1, 0, 0, 8_000, 10_000),
        drawn(INPUT_PIN, 0, 2_500, 0, 1_000, 1_000),
        drawn(OUTPUT_PIN, 0, 4_500, 9_000, 1_000, 1_000),
        drawn(FRAME, 2, 8_000, 0, 8_000, 10_000),
        drawn(INPUT_PIN, 0, 10_500, 0, 1_000, 1_000),
        drawn(OUTPUT_PIN, 0, 12_500, 9_000, 1_000, 1_000),
        drawn(FRAME, 3, 16_000, 0, 8_000, 10_000),
        drawn(OUTPUT_PIN, 0, 20_500, 9_000, 1_000, 1_000),
        drawn(FRAME, 4, 24_000, 0, 8_000, 10_000),
        drawn(OUTPUT_PIN, 0, 28_500, 9_000, 1_000, 1_000),
        drawn(FRAME, 5, 32_000, 0, 16_000, 10_000),
        drawn(INPUT_PIN, 0, 34_500, 0, 1_000, 1_000),
        drawn(OUTPUT_PIN, 0, 36_500, 9_000, 1_000, 1_000),
        drawn(OUTPUT_PIN, 1, 44_500, 9_000, 1_000, 1_000),
        drawn(FRAME, 6, 48_000, 0, 24_000, 10_000),
        drawn(INPUT_PIN, 0, 50_500, 0, 1_000, 1_000),
        drawn(OUTPUT_PIN, 0, 52_500, 9_000, 1_000, 1_000),
        drawn(OUTPUT_PIN, 1, 60_500, 9_000, 1_000, 1_000),
        drawn(OUTPUT_PIN, 2, 68_500, 9_000, 1_000, 1_000),
        drawn(FRAME, 7, 72_000, 0, 24_000, 10_000),
        drawn(INPUT_PIN, 0, 74_500, 0, 1_000, 1_000),
        drawn(INPUT_PIN, 1, 82_500, 0, 1_000, 1_000),
        drawn(INPUT_PIN, 2, 90_500, 0, 1_000, 1_000),
        drawn(OUTPUT_PIN, 0, 76_500, 9_000, 1_000, 1_000),
        drawn(EVEN_LINE, START, -4_000, 0, 4_000, 10_000),
        drawn(EVEN_LINE, BAR, 0, 0, 96_000, 10_000),
    ]
}

// The inputs are numbered from right to left, the outputs from left to right.
const NAMES: [Named; 17] = [
    Named(3_000, 500, b"I6"),
    Named(11_000, 500, b"I5"),
    Named(35_000, 500, b"I4"),
    Named(51_000, 500, b"I3"),
    Named(75_000, 500, b"I2"),
    Named(83_000, 500, b"I1"),
    Named(91_000, 500, b"I0"),
    Named(5_000, 9_500, b"O0"),
    Named(13_000, 9_500, b"O1"),
    Named(21_000, 9_500, b"O2"),
    Named(29_000, 9_500, b"O3"),
    Named(37_000, 9_500, b"O4"),
    Named(45_000, 9_500, b"O5"),
    Named(53_000, 9_500, b"O6"),
    Named(61_000, 9_500, b"O7"),
    Named(69_000, 9_500, b"O8"),
    Named(77_000, 9_500, b"O9"),
];

const NETLIST: &str =
    ".model aqfp\n.inputs I0 I1 I2 I3 I4 I5 I6\n.outputs O0 O1 O2 O3 O4 O5 O6 O7 O8 O9\n.names I6 n0\n1 1\n.names I5 n1\n0 1\n.names n2\n.names n3\n1\n.names I4 n4\n1 1\n.names I3 n5\n1 1\n.names I2 I1 I0 n6\n11- 1\n1-1 1\n-11 1\n.names n0 O0\n1 1\n.names n1 O1\n1 1\n.names n2 O2\n1 1\n.names n3 O3\n1 1\n.names n4 O4\n1 1\n.names n4 O5\n1 1\n.names n5 O6\n1 1\n.names n5 O7\n1 1\n.names n5 O8\n1 1\n.names n6 O9\n1 1\n.end\n";

/// The shapes and labels of the row.
pub fn row_of_kinds(rt: &HostRuntime) -> Result<Flat, Fail> {
    let labels = labels_of(rt.alloc(), &NAMES)?;
    Ok(Flat {
        shapes: List::from_vec(shapes().to_vec(rt.alloc())?),
        labels,
    })
}

fn circuit(rt: &HostRuntime) -> Result<Extracted, Fail> {
    let flat = row_of_kinds(rt)?;
    if flat.shapes.len() > 100 || flat.labels.len() > 100 {
        return Err("more shapes".into());
    }
    match extract(rt.alloc(), &flat) {
        Ok(circuit) => Ok(circuit),
        Err(_) => Err("no circuit".into()),
    }
}

#[test]
fn the_netlist_of_a_row_of_kinds(rt: HostRuntime) -> Result<(), Fail> {
    let circuit = circuit(&rt)?;
    let mut files = MemFiles::new(rt.alloc());
    assert!(rt; files.create("net").is_ok());
    assert!(rt; write_blif(rt.alloc(), &circuit, &mut files).is_ok());
    assert!(rt; files.bytes("net") == Some(NETLIST.as_bytes()));
    Ok(())
}
