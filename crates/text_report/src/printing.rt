// The report of a chip, line by line.
ghost use Rattle.std.specs.Prelude.{◌≡◌, ℕ, ◌++◌, ◌<◌, ◌≤◌, ◌^◌, length, max, OnOk, IfErr};
ghost use Rattle.std.specs.Fmt.{decimal};
ghost use Rattle.aq_base.specs.Output.{printed};
ghost use Rattle.geom.specs.FlatForm.{flat_count};
ghost use Rattle.cell_library.specs.Library.{limits_of};
ghost use Rattle.layout_rules.specs.Rules.{KeepsRules};
ghost use Rattle.shape_extract.specs.CellPlaces.{AreCellPlaces};
ghost use Rattle.shape_extract.specs.Extracts.{Extracts};
ghost use Rattle.text_answers.specs.Counts.{counts_line};
ghost use Rattle.text_answers.specs.Printing.{PrintsWithin, PrintsLine, RefusesLine};
ghost use Rattle.text_report.specs.ReportText.{small_cells, splitters_head, majorities_end, kinds_line};
ghost use Rattle.text_report.specs.ReportText.{junctions_line, size_line, longest_line, skew_line};
ghost use Rattle.text_report.specs.ReportText.{row_head, row_counts, row_end, report_text};
ghost use Rattle.text_report.specs.Code.Figures.{head_of, row_of_table, text_of};

use crate::figures::{Figures, read_figures};
use crate::kinds::Kinds;
use crate::tables::RowTable;
use aq_base::{Memory, Sink, StoreRefusal};
use cell_library::Library;
use circuit_extracted::Extracted;
use geom::Flat;
use pulse_sim::skew_is_computed;
use shape_extract::{cell_spans, cells_have_places};
use std::alloc::Global;
use text_answers::{print_answers, put_full_page, put_page, read_words};

#[tactic(auto, unfolding(crate::specs::ReportText::small_cells))]
fn add_small_cells(alloc: Global, kinds: &Kinds, page: &mut Vec<u8>) -> Result<(), Memory>
    ensures { OnOk result (page.new.items ≡ page.old.items ++ small_cells kinds.now) }
{
    let (buffers, inverters) = (kinds.buffers, kinds.inverters);
    let (zeros, ones) = (kinds.zeros, kinds.ones);
    let text = format!(in alloc;
        "buffers {buffers} inverters {inverters} zeros {zeros} ones {ones}"
    )?;
    page.extend_from_slice(text.as_bytes())?;
    Ok(())
}

#[tactic(auto, unfolding(crate::specs::ReportText::splitters_head))]
fn add_splitters_head(alloc: Global, of_two: u64, page: &mut Vec<u8>) -> Result<(), Memory>
    ensures { OnOk result (page.new.items ≡ page.old.items ++ splitters_head of_two) }
{
    let text = format!(in alloc; " splitters {of_two} ")?;
    page.extend_from_slice(text.as_bytes())?;
    Ok(())
}

fn add_number(alloc: Global, number: u64, page: &mut Vec<u8>) -> Result<(), Memory>
    ensures { OnOk result (page.new.items ≡ page.old.items ++ decimal number) }
{
    let text = format!(in alloc; "{number}")?;
    page.extend_from_slice(text.as_bytes())?;
    Ok(())
}

#[tactic(auto, unfolding(crate::specs::ReportText::majorities_end))]
fn add_majorities(alloc: Global, kinds: &Kinds, page: &mut Vec<u8>) -> Result<(), Memory>
    ensures { OnOk result (page.new.items ≡ page.old.items ++ majorities_end kinds.now) }
{
    let majorities = kinds.majorities;
    let text = format!(in alloc; " majorities {majorities}\n")?;
    page.extend_from_slice(text.as_bytes())?;
    Ok(())
}

#[tactic(auto, unfolding(crate::specs::ReportText::kinds_line))]
fn add_kinds(alloc: Global, kinds: &Kinds, page: &mut Vec<u8>) -> Result<(), Memory>
    ensures { OnOk result (page.new.items ≡ page.old.items ++ kinds_line kinds.now) }
{
    add_small_cells(alloc, kinds, page)?;
    add_splitters_head(alloc, kinds.splitters_of_two, page)?;
    add_number(alloc, kinds.splitters_of_three, page)?;
    add_majorities(alloc, kinds, page)
}

#[tactic(auto, unfolding(crate::specs::ReportText::junctions_line))]
fn add_junctions(alloc: Global, junctions: u64, page: &mut Vec<u8>) -> Result<(), Memory>
    ensures { OnOk result (page.new.items ≡ page.old.items ++ junctions_line junctions) }
{
    let line = format!(in alloc; "junctions {junctions}\n")?;
    page.extend_from_slice(line.as_bytes())?;
    Ok(())
}

#[tactic(auto, unfolding(crate::specs::ReportText::size_line))]
fn add_size(alloc: Global, width: u64, height: u64, page: &mut Vec<u8>) -> Result<(), Memory>
    ensures { OnOk result (page.new.items ≡ page.old.items ++ size_line width height) }
{
    let line = format!(in alloc; "width {width} height {height}\n")?;
    page.extend_from_slice(line.as_bytes())?;
    Ok(())
}

#[tactic(auto, unfolding(crate::specs::ReportText::longest_line))]
fn add_longest(alloc: Global, longest: u64, limit: u64, page: &mut Vec<u8>) -> Result<(), Memory>
    ensures { OnOk result (page.new.items ≡ page.old.items ++ longest_line longest limit) }
{
    let line = format!(in alloc; "longest {longest} of {limit}\n")?;
    page.extend_from_slice(line.as_bytes())?;
    Ok(())
}

#[tactic(auto, unfolding(crate::specs::ReportText::skew_line))]
fn add_skew(alloc: Global, even: u128, odd: u128, page: &mut Vec<u8>) -> Result<(), Memory>
    ensures { OnOk result (page.new.items ≡ page.old.items ++ skew_line (max even odd) even odd) }
{
    let skew = even.max(odd);
    let line = format!(in alloc; "skew {skew} even {even} odd {odd}\n")?;
    page.extend_from_slice(line.as_bytes())?;
    Ok(())
}

/// Adds the lines before those of the rows to the page.
#[tactic(auto, unfolding(crate::specs::Code::Figures::head_of))]
fn add_head(alloc: Global, figures: &Figures, limit: u64, page: &mut Vec<u8>) -> Result<(), Memory>
    ensures { OnOk result (page.new.items ≡ page.old.items ++ head_of figures.now limit) }
{
    add_kinds(alloc, &figures.kinds, page)?;
    add_junctions(alloc, figures.junctions, page)?;
    add_size(alloc, figures.width, figures.height, page)?;
    add_longest(alloc, figures.longest, limit, page)?;
    add_skew(alloc, figures.even, figures.odd, page)
}

#[tactic(auto, unfolding(crate::specs::ReportText::row_head))]
fn add_row_head(alloc: Global, row: u32, page: &mut Vec<u8>) -> Result<(), Memory>
    ensures { OnOk result (page.new.items ≡ page.old.items ++ row_head row) }
{
    let phase = row % 4;
    let text = format!(in alloc; "row {row} phase {phase}")?;
    page.extend_from_slice(text.as_bytes())?;
    Ok(())
}

#[tactic(auto, unfolding(crate::specs::ReportText::row_counts))]
fn add_row_counts(
    alloc: Global,
    cells: u64,
    wires: u64,
    longest: u64,
    page: &mut Vec<u8>,
) -> Result<(), Memory>
    ensures { OnOk result (page.new.items ≡ page.old.items ++ row_counts cells wires longest) }
{
    let text = format!(in alloc; " cells {cells} wires {wires} longest {longest}")?;
    page.extend_from_slice(text.as_bytes())?;
    Ok(())
}

#[tactic(auto, unfolding(crate::specs::ReportText::row_end))]
fn add_row_end(alloc: Global, skew: u128, page: &mut Vec<u8>) -> Result<(), Memory>
    ensures { OnOk result (page.new.items ≡ page.old.items ++ row_end skew) }
{
    let text = format!(in alloc; " skew {skew}\n")?;
    page.extend_from_slice(text.as_bytes())?;
    Ok(())
}

/// Adds the line of a row to the page.
#[tactic(auto, unfolding(crate::specs::ReportText::row_text))]
fn add_row(alloc: Global, table: &RowTable, row: u32, page: &mut Vec<u8>) -> Result<(), Memory>
    requires cells { row < length table.now.cells.items }
    requires wires { row < length table.now.wires.items }
    requires longest { row < length table.now.longest.items }
    requires skews { row < length table.now.skews.items }
    ensures { OnOk result (page.new.items ≡ page.old.items ++ row_of_table table.now row) }
{
    let place = row as usize;
    add_row_head(alloc, row, page)?;
    add_row_counts(
        alloc,
        table.cells[place],
        table.wires[place],
        table.longest[place],
        page,
    )?;
    add_row_end(alloc, table.skews[place], page)
}

/// Prints the line of a row.
fn print_row<O: Sink>(
    alloc: Global,
    table: &RowTable,
    row: u32,
    page: &mut Vec<u8>,
    out: &mut O,
) -> Result<(), StoreRefusal>
    requires cells { row < length table.now.cells.items }
    requires wires { row < length table.now.wires.items }
    requires longest { row < length table.now.longest.items }
    requires skews { row < length table.now.skews.items }
    ensures put { OnOk result (PrintsLine (O.output out.old) (O.output out.new) page.old.items page.new.items
        (row_of_table table.now row)) }
    ensures refused { IfErr result (RefusesLine (O.output out.old) (O.output out.new) page.old.items
        (row_of_table table.now row)) }
{
    match add_row(alloc, table, row, page) {
        Ok(()) => put_full_page(out, page),
        Err(Memory) => Err(StoreRefusal::Memory),
    }
}

/// Prints all lines but the counts line. On a refusal some first bytes of that text were put.
fn print_figures<O: Sink>(
    alloc: Global,
    figures: &Figures,
    limit: u64,
    rows: u32,
    out: &mut O,
) -> Result<(), StoreRefusal>
    requires cells { rows ≤ length figures.now.rows.cells.items }
    requires wires { rows ≤ length figures.now.rows.wires.items }
    requires longest { rows ≤ length figures.now.rows.longest.items }
    requires skews { rows ≤ length figures.now.rows.skews.items }
    ensures added { OnOk result (O.output out.new
        ≡ printed (text_of figures.now limit rows) (O.output out.old)) }
    ensures part { IfErr result (PrintsWithin (O.output out.old) (O.output out.new)
        (text_of figures.now limit rows)) }
{
    let mut page = Vec::new(alloc);
    let Ok(()) = add_head(alloc, figures, limit, &mut page) else {
        return Err(StoreRefusal::Memory);
    };
    for row in 0..rows {
        print_row(alloc, &figures.rows, row, &mut page, out)?;
    }
    put_page(out, &mut page)
}

/// Prints the counts line: what is printed of a circuit to which no word is given.
fn print_counts<O: Sink>(
    alloc: Global,
    circuit: &Extracted,
    out: &mut O,
) -> Result<(), StoreRefusal>
    ensures added { OnOk result (O.output out.new
        ≡ printed (counts_line circuit.now) (O.output out.old)) }
    ensures part { IfErr result (PrintsWithin (O.output out.old) (O.output out.new) (counts_line circuit.now)) }
{
    match read_words(b"", circuit.inputs) {
        Ok(words) => print_answers(alloc, circuit, &words, out),
        Err(_) => unreachable!(),
    }
}

/// Prints the counts line, and then all others.
#[tactic(auto, using(text_answers::proofs::Pages::texts))]
fn print_lines<O: Sink>(
    alloc: Global,
    circuit: &Extracted,
    figures: &Figures,
    limit: u64,
    out: &mut O,
) -> Result<(), StoreRefusal>
    requires cells { circuit.now.rows ≤ length figures.now.rows.cells.items }
    requires wires { circuit.now.rows ≤ length figures.now.rows.wires.items }
    requires longest { circuit.now.rows ≤ length figures.now.rows.longest.items }
    requires skews { circuit.now.rows ≤ length figures.now.rows.skews.items }
    ensures added { OnOk result (O.output out.new
        ≡ printed (counts_line circuit.now ++ text_of figures.now limit circuit.now.rows) (O.output out.old)) }
    ensures part { IfErr result (PrintsWithin (O.output out.old) (O.output out.new)
        (counts_line circuit.now ++ text_of figures.now limit circuit.now.rows)) }
{
    print_counts(alloc, circuit, out)?;
    print_figures(alloc, figures, limit, circuit.rows, out)
}

/// Prints the report of a chip that keeps the rules of the library: the counts line, the lines of its cells by kind, of
/// its junctions, of its size, of its longest wire and of its skew, and a line for each row. Where its cells lie along
/// the excitation lines follows from the shapes. On a refusal some first bytes of that text were put.
pub fn print_report<O: Sink>(
    alloc: Global,
    flat: &Flat,
    circuit: &Extracted,
    library: &Library,
    out: &mut O,
) -> Result<(), StoreRefusal>
    requires few { flat_count flat.now < 2 ^ 32 }
    requires circuit { Extracts flat.now circuit.now }
    requires rules { KeepsRules flat.now (limits_of library.now) }
    ensures added { (near far : ℕ → ℕ) → AreCellPlaces flat.now.shapes near far → OnOk result (O.output out.new
        ≡ printed (report_text flat.now circuit.now near far library.now.limit) (O.output out.old)) }
    ensures part { (near far : ℕ → ℕ) → AreCellPlaces flat.now.shapes near far
        → IfErr result (PrintsWithin (O.output out.old) (O.output out.new)
        (report_text flat.now circuit.now near far library.now.limit)) }
{
    cells_have_places();
    skew_is_computed();
    let limit = library.limit();
    let Ok(spans) = cell_spans(alloc, flat.shapes.as_slice()) else {
        return Err(StoreRefusal::Memory);
    };
    let Ok(figures) = read_figures(alloc, flat, circuit, &spans) else {
        return Err(StoreRefusal::Memory);
    };
    print_lines(alloc, circuit, &figures, limit, out)
}
