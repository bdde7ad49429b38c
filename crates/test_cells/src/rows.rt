// Netlists of cells, placed into rows by hand.
ghost use Rattle.std.specs.Prelude.{◌≤◌, ◌^◌, length};

use blif_read::{Netlist, blif_read};
use cell_netlist::cell_levels;
use cell_rows::cell_rows;
use circuit::CellKind;
use rowed::{RowCell, Source};
use std::alloc::{AllocError, Global};
use std::test::Fail;

/// A short word for a kind.
fn word_of(kind: CellKind) -> &'static str {
    match kind {
        CellKind::Buffer => "buf",
        CellKind::Inverter => "inv",
        CellKind::Zero => "zero",
        CellKind::One => "one",
        CellKind::Split2 => "two",
        CellKind::Split3 => "three",
        CellKind::Majority => "maj",
    }
}

/// Adds a source: the cell's place, and the output.
fn add_source(alloc: Global, told: &mut String, source: Option<Source>) -> Result<(), AllocError> {
    if let Some(source) = source {
        let source = format!(in alloc; " {}.{}", source.cell, source.output)?;
        told.push_str(source.as_str())?;
    }
    Ok(())
}

/// Adds what a cell shows: an input or an output.
fn add_shown(
    alloc: Global,
    told: &mut String,
    word: &str,
    shown: Option<u32>,
) -> Result<(), AllocError> {
    if let Some(number) = shown {
        let number = format!(in alloc; " {word} {number}")?;
        told.push_str(number.as_str())?;
    }
    Ok(())
}

/// Adds a cell: its kind, its sources, and what it shows.
fn add_cell(alloc: Global, told: &mut String, cell: &RowCell) -> Result<(), AllocError> {
    told.push_str(word_of(cell.kind))?;
    add_source(alloc, told, cell.source0)?;
    add_source(alloc, told, cell.source1)?;
    add_source(alloc, told, cell.source2)?;
    add_shown(alloc, told, "in", cell.input)?;
    add_shown(alloc, told, "out", cell.output)?;
    told.push_str(", ")
}

/// Adds a row.
fn add_row(alloc: Global, told: &mut String, row: &[RowCell]) -> Result<(), AllocError> {
    for cell in row {
        add_cell(alloc, told, cell)?;
    }
    told.push_str("/ ")
}

/// The rows of a netlist of cells; nothing where it is none, or memory is short.
fn rows_told(alloc: Global, net: &Netlist, told: &mut String) -> Result<(), AllocError> {
    let Ok(cells) = cell_levels(alloc, net, true) else {
        return Ok(());
    };
    let Ok(net) = cell_rows(alloc, net, true, &cells) else {
        return Ok(());
    };
    for row in net.rows.as_slice() {
        add_row(alloc, told, row.as_slice())?;
    }
    Ok(())
}

/// The rows of the netlist that a text says.
fn rows_of(alloc: Global, text: &[u8]) -> Result<String, AllocError>
    requires { length text.now ≤ 2 ^ 28 }
{
    let mut told = String::new(alloc);
    if let Ok(net) = blif_read(alloc, text) {
        rows_told(alloc, &net, &mut told)?;
    }
    Ok(told)
}

#[test]
fn full_adder(rt: HostRuntime) -> Result<(), Fail> {
    let text =
        b".inputs a b c\n.outputs s k\n.names a m\n1 1\n.names b n\n1 1\n.names c o\n1 1\n.names m p\n1 1\n.names n q\n1 1\n.names o r\n1 1\n.names p q r t\n11- 1\n1-1 1\n-11 1\n.names p p2\n1 1\n.names q q2\n1 1\n.names r r2\n0 1\n.names r r3\n1 1\n.names t t2\n1 1\n.names p2 q2 r2 u\n11- 1\n1-1 1\n-11 1\n.names r3 r4\n1 1\n.names t2 t3\n0 1\n.names t2 t4\n1 1\n.names u u2\n1 1\n.names r4 r5\n1 1\n.names t3 u2 r5 v\n11- 1\n1-1 1\n-11 1\n.names t4 t5\n1 1\n.names v v2\n1 1\n.names t5 t6\n1 1\n.names v2 s\n1 1\n.names t6 k\n1 1\n";
    assert!(rt; text.len() < 900);
    let told = rows_of(rt.alloc(), text)?;
    let want =
        "buf in 0, buf in 1, buf in 2, / two 0.0, two 1.0, three 2.0, / maj 0.0 1.0 2.0, buf 0.1, buf 1.1, inv 2.1, buf 2.2, / two 0.0, maj 1.0 2.0 3.0, buf 4.0, / inv 0.0, buf 0.1, buf 1.0, buf 2.0, / maj 0.0 2.0 3.0, buf 1.0, / buf 0.0 out 0, buf 1.0 out 1, / ";
    assert_eq!(rt; told.as_str(), want);
    Ok(())
}

#[test]
fn small_netlists(rt: HostRuntime) -> Result<(), Fail> {
    let texts = [
        // a chain with an inverter, and the buffer of another input that feeds nothing
        (
            ".inputs a b\n.outputs y\n.names a m\n1 1\n.names b n\n1 1\n.names n i\n0 1\n.names i p\n1 1\n.names p y\n1 1\n",
            "buf in 0, buf in 1, / inv 1.0, / buf 0.0 out 0, / ",
        ),
        // a splitter below the buffers of two outputs
        (
            ".inputs a\n.outputs x y\n.names a m\n1 1\n.names m i\n0 1\n.names i s\n1 1\n.names s p\n1 1\n.names s q\n1 1\n.names p x\n1 1\n.names q y\n1 1\n",
            "buf in 0, / inv 0.0, / two 0.0, / buf 0.0 out 0, buf 0.1 out 1, / ",
        ),
        // a splitter of three, told last line first: its outputs go by the text, not by the order of the netlist's
        (
            ".inputs a\n.outputs x y z\n.names r z\n1 1\n.names q y\n1 1\n.names p x\n1 1\n.names s r\n1 1\n.names s q\n1 1\n.names s p\n1 1\n.names m s\n1 1\n.names a m\n1 1\n",
            "buf in 0, / three 0.0, / buf 0.0 out 2, buf 0.1 out 1, buf 0.2 out 0, / ",
        ),
        // constants
        (
            ".outputs x y\n.names j\n.names k\n1\n.names k p\n1 1\n.names j q\n1 1\n.names p x\n1 1\n.names q y\n1 1\n",
            "zero, one, / buf 1.0 out 0, buf 0.0 out 1, / ",
        ),
    ];
    for (text, want) in texts {
        let text = text.as_bytes();
        assert!(rt; text.len() < 300);
        let told = rows_of(rt.alloc(), text)?;
        assert_eq!(rt; told.as_str(), want);
    }
    Ok(())
}
