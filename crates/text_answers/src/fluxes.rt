// The fluxes of a circuit's cells, row by row and time by time.
ghost use Rattle.std.specs.Prelude.{◌≡◌, ◌++◌, ◌+◌, ◌^◌, ◌<◌, ◌≤◌, ℕ, All, length, codes, IfOk, OnOk, IfErr};
ghost use Rattle.std.specs.Fmt.{decimal};
ghost use Rattle.std.specs.List.Sorted.{IsNonDecreasingBy};
ghost use Rattle.aq_base.specs.Output.{printed};
ghost use Rattle.pulse_sim.specs.Settled.{settled_run};
ghost use Rattle.text_answers.specs.Counts.{counts_line};
ghost use Rattle.text_answers.specs.FluxLines.{sign_of, flux_line, signs_in, row_lines, ticks_for, trace_text};
ghost use Rattle.text_answers.specs.Printing.{PrintsWithin, PrintsLine, RefusesLine};
ghost use Rattle.text_answers.specs.RowStarts.{IsRowStart, StandsIn};

use crate::counts::add_counts;
use crate::page::{put_full_page, put_page};
use crate::run::Run;
use crate::words::GivenWords;
use aq_base::{Memory, Sink, StoreRefusal};
use circuit_extracted::{ExCell, Extracted};
use pulse_sim::Flux;
use std::alloc::Global;

fn sign_of(flux: Flux) -> u8
    ensures { result ≡ sign_of flux }
{
    match flux {
        Flux::Minus => b'-',
        Flux::Off => b'.',
        Flux::Plus => b'+',
    }
}

/// Whether there is a cell of this number and it stands in the row.
fn stands_in(cells: &[ExCell], number: usize, row: u32) -> bool
    ensures { StandsIn cells.now number row result }
{
    number < cells.len() && cells[number].row == row
}

/// Adds the signs of the cells of a row, which begins at a cell's number, and answers where the next row begins.
fn add_signs(
    cells: &[ExCell],
    run: &Run<'_>,
    row: u32,
    first: usize,
    page: &mut Vec<u8>,
) -> Result<usize, Memory>
    requires cells { cells.now ≡ run.now.circuit.cells }
    requires few { length cells.now < 2 ^ 32 }
    requires rising { IsNonDecreasingBy (λ cell. cell.row) cells.now }
    requires first { IsRowStart cells.now row first }
    ensures signs { IfOk result (λ next. page.new.items ≡ page.old.items
        ++ signs_in row cells.now (settled_run run.now.circuit run.now.words run.now.time)) }
    ensures next { IfOk result (λ next. IsRowStart cells.now (row + 1) next) }
{
    let mut next = first;
    while stands_in(cells, next, row) {
        page.push(sign_of(run.flux(next as u32)))?;
        next += 1;
    }
    Ok(next)
}

/// A row at a time, and the number of its first cell.
#[derive(Clone, Copy)]
struct TracedRow {
    time: u64,
    row: u32,
    first: usize,
}

/// Adds the line of a row at a time to the page, and answers where the next row begins.
fn add_row(
    alloc: Global,
    cells: &[ExCell],
    run: &Run<'_>,
    traced: TracedRow,
    page: &mut Vec<u8>,
) -> Result<usize, Memory>
    requires cells { cells.now ≡ run.now.circuit.cells }
    requires few { length cells.now < 2 ^ 32 }
    requires rising { IsNonDecreasingBy (λ cell. cell.row) cells.now }
    requires first { IsRowStart cells.now traced.row traced.first }
    ensures line { IfOk result (λ next. page.new.items ≡ page.old.items
        ++ flux_line traced.time traced.row
        (signs_in traced.row cells.now (settled_run run.now.circuit run.now.words run.now.time))) }
    ensures next { IfOk result (λ next. IsRowStart cells.now (traced.row + 1) next) }
{
    let TracedRow { time, row, first } = traced;
    let head = format!(in alloc; "{time} {row} ")?;
    page.extend_from_slice(head.as_bytes())?;
    let next = add_signs(cells, run, row, first, page)?;
    page.push(b'\n')?;
    Ok(next)
}

/// Adds the lines of all rows at the time before that of the run.
fn add_rows(
    alloc: Global,
    circuit: &Extracted,
    run: &Run<'_>,
    time: u64,
    page: &mut Vec<u8>,
) -> Result<(), Memory>
    requires circuit { run.now.circuit ≡ circuit.now }
    requires time { run.now.time ≡ time + 1 }
    ensures { OnOk result (page.new.items ≡ page.old.items
        ++ row_lines circuit.now time (settled_run circuit.now run.now.words (time + 1)) circuit.now.rows) }
{
    circuit.known();
    let cells = circuit.cells.as_slice();
    let mut first = 0;
    for row in 0..circuit.rows {
        first = add_row(alloc, cells, run, TracedRow { time, row, first }, page)?;
    }
    Ok(())
}

/// Prints the lines of all rows at the time before that of the run.
fn print_rows<O: Sink>(
    alloc: Global,
    circuit: &Extracted,
    run: &Run<'_>,
    time: u64,
    page: &mut Vec<u8>,
    out: &mut O,
) -> Result<(), StoreRefusal>
    requires circuit { run.now.circuit ≡ circuit.now }
    requires time { run.now.time ≡ time + 1 }
    ensures put { OnOk result (PrintsLine (O.output out.old) (O.output out.new) page.old.items page.new.items
        (row_lines circuit.now time (settled_run circuit.now run.now.words (time + 1)) circuit.now.rows)) }
    ensures refused { IfErr result (RefusesLine (O.output out.old) (O.output out.new) page.old.items
        (row_lines circuit.now time (settled_run circuit.now run.now.words (time + 1)) circuit.now.rows)) }
{
    match add_rows(alloc, circuit, run, time, page) {
        Ok(()) => put_full_page(out, page),
        Err(Memory) => Err(StoreRefusal::Memory),
    }
}

/// What printing fluxes needs: a page that begins with the counts line, and the run.
#[derive(Drop)]
struct Tracing<'a> {
    page: Vec<u8>,
    run: Run<'a>,
}

fn begin<'a>(
    alloc: Global,
    circuit: &Extracted,
    words: &GivenWords<'a>,
) -> Result<Tracing<'a>, Memory>
    requires { All (λ word. length word ≡ circuit.now.inputs) words.now }
    ensures page { IfOk result (λ t. t.page.items ≡ counts_line circuit.now) }
    ensures run { IfOk result (λ t. t.run ≡ record { circuit = circuit.now; words = words.now; time = 0 }) }
{
    let mut page = Vec::new(alloc);
    add_counts(alloc, circuit, &mut page)?;
    let run = Run::new(alloc, circuit, words)?;
    Ok(Tracing { page, run })
}

/// How many ticks it takes until the last of so many words is answered.
fn ticks_for(delay: u64, words: u64) -> u64
    requires delay { delay < 2 ^ 32 }
    requires words { words < 2 ^ 32 }
    ensures count { result ≡ ticks_for delay words }
    ensures few { result < 2 ^ 60 }
{
    if words == 0 {
        0
    } else {
        4 * (words - 1) + delay + 1
    }
}

/// Prints the counts line of a circuit, and the flux of each cell of each row at each time of the settled run, until
/// the last word is answered. The words have a value for each input. On a refusal some first bytes of that text were
/// put.
pub fn print_fluxes<O: Sink>(
    alloc: Global,
    circuit: &Extracted,
    words: &GivenWords<'_>,
    out: &mut O,
) -> Result<(), StoreRefusal>
    requires { All (λ word. length word ≡ circuit.now.inputs) words.now }
    ensures added { OnOk result (O.output out.new ≡ printed (trace_text circuit.now words.now) (O.output out.old)) }
    ensures part { IfErr result
        (PrintsWithin (O.output out.old) (O.output out.new) (trace_text circuit.now words.now)) }
{
    circuit.known();
    let Ok(tracing) = begin(alloc, circuit, words) else {
        return Err(StoreRefusal::Memory);
    };
    let Tracing { mut page, mut run } = tracing;
    for time in 0..ticks_for(u64::from(circuit.rows - 1), words.count()) {
        run.tick();
        print_rows(alloc, circuit, &run, time, &mut page, out)?;
    }
    put_page(out, &mut page)
}
