// The text of the sample.
ghost use Rattle.std.specs.Prelude.{◌≡◌, ◌++◌, ◌≤◌, IfOk, OnOk, IfErr};
ghost use Rattle.std.specs.List.{flat_map};
ghost use Rattle.aq_base.specs.Output.{printed};
ghost use Rattle.text_answers.specs.Printing.{PrintsWithin};
ghost use Rattle.text_answers.specs.WordLines.{word_line};
ghost use Rattle.sample_adder.specs.SampleText.{sample_line, sample_text};

use aq_base::{List, Memory, Sink, StoreRefusal};
use circuit::Word;
use std::alloc::Global;
use text_answers::add_word;

/// The bits of each number that the sample adds, and the counts of its chip.
#[derive(Clone, Copy)]
pub struct SampleCounts {
    pub bits: u32,
    pub rows: u64,
    pub cells: u64,
    pub wires: u64,
}

/// Adds the line of the counts.
#[tactic(auto, using(std::proofs::Common::append_assoc), unfolding(crate::specs::SampleText::sample_line))]
fn add_counts(alloc: Global, counts: SampleCounts, text: &mut Vec<u8>) -> Result<(), Memory>
    requires { 1 ≤ counts.rows }
    ensures { OnOk result (text.new.items
        ≡ text.old.items ++ sample_line counts.bits counts.rows counts.cells counts.wires) }
{
    let SampleCounts {
        bits,
        rows,
        cells,
        wires,
    } = counts;
    let delay = rows - 1;
    let own = format!(in alloc; "rows {rows} cells {cells} wires {wires} delay {delay}\n")?;
    let head = format!(in alloc; "bits {bits} ")?;
    text.extend_from_slice(head.as_bytes())?;
    text.extend_from_slice(own.as_bytes())?;
    Ok(())
}

/// Adds a line for each answer.
#[tactic(auto, using(std::proofs::Common::append_assoc))]
fn add_answers(answers: &List<Word>, text: &mut Vec<u8>) -> Result<(), Memory>
    ensures { OnOk result (text.new.items ≡ text.old.items ++ flat_map word_line answers.now) }
{
    for answer in answers.as_slice() {
        add_word(answer, text)?;
    }
    Ok(())
}

#[tactic(auto, unfolding(crate::specs::SampleText::sample_text))]
fn text_of(alloc: Global, counts: SampleCounts, answers: &List<Word>) -> Result<Vec<u8>, Memory>
    requires { 1 ≤ counts.rows }
    ensures { IfOk result (λ text. text.items
        ≡ sample_text counts.bits counts.rows counts.cells counts.wires answers.now) }
{
    let mut text = Vec::new(alloc);
    add_counts(alloc, counts, &mut text)?;
    add_answers(answers, &mut text)?;
    Ok(text)
}

/// Prints the text of the sample: its counts, with at least one row, and a line for each answer. On a refusal some
/// first bytes of that text were put.
#[tactic(auto, using(text_answers::proofs::Pages::texts))]
pub fn print_sample<O: Sink>(
    alloc: Global,
    counts: SampleCounts,
    answers: &List<Word>,
    out: &mut O,
) -> Result<(), StoreRefusal>
    requires { 1 ≤ counts.rows }
    ensures added { OnOk result (O.output out.new
        ≡ printed (sample_text counts.bits counts.rows counts.cells counts.wires answers.now) (O.output out.old)) }
    ensures part { IfErr result (PrintsWithin (O.output out.old) (O.output out.new)
        (sample_text counts.bits counts.rows counts.cells counts.wires answers.now)) }
{
    match text_of(alloc, counts, answers) {
        Ok(text) => out.put(text.as_slice()),
        Err(Memory) => Err(StoreRefusal::Memory),
    }
}
