// What is in the first chip and in a row with a cell of each kind, and the lines of shapes and labels.
ghost use Rattle.std.specs.Prelude.{◌+◌, ◌<◌, length};
ghost use Rattle.poly_cut.specs.Conditions.{IsFlattenable};
ghost use Rattle.shape_extract.specs.Extracts.{Extracts};

use crate::fixtures::{FIRST as STREAM, INPUT, OUTPUT, chip, read};
use crate::kinds::row_of_kinds;
use aq_base::MemSink;
use cell_library::library_a;
use geom::Flat;
use poly_cut::{Drawn, WideLayout, drawn_at};
use rule_check::check;
use shape_extract::{Extracted, extract};
use std::alloc::Global;
use std::test::Fail;
use text_report::{print_label, print_report, print_shape};

const FIRST: &[u8] =
    b"rows 2 cells 2 wires 1 delay 1\nbuffers 2 inverters 0 zeros 0 ones 0 splitters 0 0 majorities 0\njunctions 4\nwidth 8000 height 24000\nlongest 10000 of 180000\nskew 8000 even 8000 odd 8000\nrow 0 phase 0 cells 1 wires 1 longest 10000 skew 8000\nrow 1 phase 1 cells 1 wires 0 longest 0 skew 0\n";

const KINDS: &[u8] =
    b"rows 1 cells 7 wires 0 delay 0\nbuffers 1 inverters 1 zeros 1 ones 1 splitters 1 1 majorities 1\njunctions 18\nwidth 96000 height 10000\nlongest 0 of 180000\nskew 24000 even 24000 odd 24000\nrow 0 phase 0 cells 7 wires 0 longest 0 skew 0\n";

// Whether the chip keeps the rules of library A and its report was printed.
fn is_reported(
    alloc: Global,
    flat: &Flat,
    circuit: &Extracted,
    out: &mut MemSink,
) -> Result<bool, Fail>
    requires few { length flat.now.shapes + length flat.now.labels < 1000 }
    requires circuit { Extracts flat.now circuit.now }
{
    let library = library_a(alloc)?;
    match check(alloc, flat, circuit, &library) {
        Ok(()) => Ok(print_report(alloc, flat, circuit, &library, out).is_ok()),
        Err(_) => Ok(false),
    }
}

// Whether a circuit was extracted and its report printed.
fn is_read(alloc: Global, flat: &Flat, out: &mut MemSink) -> Result<bool, Fail> {
    if flat.shapes.len() > 100 || flat.labels.len() > 100 {
        return Err("more shapes".into());
    }
    match extract(alloc, flat) {
        Ok(circuit) => is_reported(alloc, flat, &circuit, out),
        Err(_) => Ok(false),
    }
}

#[test]
fn reports(rt: HostRuntime) -> Result<(), Fail> {
    let mut first = MemSink::new(rt.alloc());
    let flat = chip(rt.alloc(), &[], &[INPUT, OUTPUT])?;
    assert!(rt; is_read(rt.alloc(), &flat, &mut first)?);
    assert_eq!(rt; first.bytes(), FIRST);
    let mut kinds = MemSink::new(rt.alloc());
    let flat = row_of_kinds(&rt)?;
    assert!(rt; is_read(rt.alloc(), &flat, &mut kinds)?);
    assert_eq!(rt; kinds.bytes(), KINDS);
    Ok(())
}

// Prints the line of the number, if there is one.
fn print(alloc: Global, wide: &WideLayout, number: u64, out: &mut MemSink) -> Result<bool, Fail>
    requires { IsFlattenable wide.now }
{
    match drawn_at(alloc, wide, number)? {
        Some(Drawn::Shape(shape)) => Ok(print_shape(alloc, number, &shape, out).is_ok()),
        Some(Drawn::Label(label)) => Ok(print_label(alloc, number, &label, out).is_ok()),
        None => Ok(false),
    }
}

#[test]
fn lines_of_shapes(rt: HostRuntime) -> Result<(), Fail> {
    let Ok(wide) = read(rt.alloc(), &STREAM) else {
        return Err("refused".into());
    };
    let rows: [(u64, bool, &[u8]); 6] = [
        (0, true, b"shape 0 layer 20 datatype 1 box 0 0 8000 10000\n"),
        (
            3,
            true,
            b"shape 3 layer 14 datatype 2 box -4000 0 0 10000\n",
        ),
        (
            8,
            true,
            b"shape 8 layer 11 datatype 0 box 4700 11700 5300 12300\n",
        ),
        (15, true, b"label 15 layer 30 at 3000 500\n"),
        (16, true, b"label 16 layer 30 at 5000 23500\n"),
        (17, false, b""),
    ];
    for (number, there, line) in rows {
        let mut out = MemSink::new(rt.alloc());
        assert_eq!(rt; print(rt.alloc(), &wide, number, &mut out)?, there);
        assert_eq!(rt; out.bytes(), line);
    }
    Ok(())
}
