// The answers of a circuit to words, line by line.
ghost use Rattle.std.specs.Prelude.{◌≡◌, ◌++◌, ◌+◌, ◌<◌, ◌≤◌, All, length, IfOk, OnOk, IfErr};
ghost use Rattle.aq_base.specs.Output.{printed};
ghost use Rattle.text_answers.specs.Counts.{counts_line};
ghost use Rattle.text_answers.specs.Printing.{PrintsWithin};
ghost use Rattle.text_answers.specs.WordLines.{word_line, answers_to, answers_text};

use crate::blocks::{digit_of, enter_block, print_block};
use crate::counts::add_counts;
use crate::lanes::{LANES, Lanes, empty_lanes};
use crate::laws::answers_are_shown;
use crate::page::put_page;
use crate::words::GivenWords;
use aq_base::{Memory, Sink, StoreRefusal};
use circuit::Word;
use circuit_extracted::Extracted;
use std::alloc::Global;

/// Adds the line of a word to the page.
pub fn add_word(word: &Word, page: &mut Vec<u8>) -> Result<(), Memory>
    ensures { OnOk result (page.new.items ≡ page.old.items ++ word_line word.now) }
{
    for value in word.as_slice() {
        page.push(digit_of(*value))?;
    }
    page.push(b'\n')?;
    Ok(())
}

/// What printing answers needs: a page that begins with the counts line, and room for a block of words.
#[derive(Drop)]
struct Answering {
    page: Vec<u8>,
    lanes: Lanes,
}

fn begin(alloc: Global, circuit: &Extracted) -> Result<Answering, Memory>
    ensures page { IfOk result (λ a. a.page.items ≡ counts_line circuit.now) }
    ensures long { IfOk result (λ a. length a.lanes.words.items ≡ circuit.now.inputs) }
{
    let mut page = Vec::new(alloc);
    add_counts(alloc, circuit, &mut page)?;
    let lanes = empty_lanes(alloc, circuit)?;
    Ok(Answering { page, lanes })
}

/// How many of so many words, of which some are left, make up the next block.
fn block_of(words: u64, done: u64) -> u32
    requires { done < words }
    ensures some { 0 < result }
    ensures few { result ≤ 128 }
    ensures there { done + result ≤ words }
{
    u64::from(LANES).min(words - done) as u32
}

/// Prints the counts line of a circuit, and for each word the answer that the circuit's settled run shows: every run
/// shows the answer of the circuit's functions, so these are evaluated. The words have a value for each input. On a
/// refusal some first bytes of that text were put.
pub fn print_answers<O: Sink>(
    alloc: Global,
    circuit: &Extracted,
    words: &GivenWords<'_>,
    out: &mut O,
) -> Result<(), StoreRefusal>
    requires { All (λ word. length word ≡ circuit.now.inputs) words.now }
    ensures added { OnOk result (O.output out.new
        ≡ printed (answers_text circuit.now (answers_to circuit.now words.now)) (O.output out.old)) }
    ensures part { IfErr result (PrintsWithin (O.output out.old) (O.output out.new)
        (answers_text circuit.now (answers_to circuit.now words.now))) }
{
    circuit.known();
    answers_are_shown();
    let Ok(answering) = begin(alloc, circuit) else {
        return Err(StoreRefusal::Memory);
    };
    let Answering {
        mut page,
        mut lanes,
    } = answering;
    let mut rest = words.text();
    let mut done = 0;
    while done < words.count() {
        let count = block_of(words.count(), done);
        rest = enter_block(rest, count, &mut lanes);
        print_block(circuit, count, &mut lanes, &mut page, out)?;
        done += u64::from(count);
    }
    put_page(out, &mut page)
}
