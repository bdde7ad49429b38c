// The values of the cells of a circuit under a word, and what its outputs show.
ghost use Rattle.std.specs.Prelude.{◌≡◌, IfOk};
ghost use Rattle.circuit.specs.Gates.{valuation};
ghost use Rattle.circuit_extracted.specs.Answers.{feed_value, cell_value, values_at};
ghost use Rattle.circuit_extracted.specs.Code.Evaluation.{AreFedBefore, AreValues};

use crate::cells::{ExCell, Feed};
use aq_base::{List, Memory};
use circuit::{Word, value_at};
use rowed::Source;
use std::alloc::Global;

fn feed_value(word: &[bool], values: &[bool], feed: Feed) -> bool
    ensures { result ≡ feed_value word.now (valuation values.now) feed }
{
    match feed {
        Feed::Nothing => false,
        Feed::Pin { cell, output: _ } => value_at(values, cell),
        Feed::Label(number) => value_at(word, number),
    }
}

fn cell_value(word: &[bool], values: &[bool], cell: &ExCell) -> bool
    ensures { result ≡ cell_value word.now (valuation values.now) cell.now }
{
    cell.kind.value(
        feed_value(word, values, cell.feed0),
        feed_value(word, values, cell.feed1),
        feed_value(word, values, cell.feed2),
    )
}

/// The value of each cell, where each is fed by cells before it.
pub fn values(alloc: Global, cells: &[ExCell], word: &[bool]) -> Result<Vec<bool>, Memory>
    requires { AreFedBefore cells.now }
    ensures { IfOk result (λ values. AreValues cells.now word.now values.items) }
{
    let mut values = Vec::new(alloc);
    for cell in cells {
        values.push(cell_value(word, &values, cell))?;
    }
    Ok(values)
}

/// The values that the outputs show.
pub fn shown(alloc: Global, outputs: &[Source], values: &[bool]) -> Result<Word, Memory>
    ensures { IfOk result (λ word. word ≡ values_at outputs.now (valuation values.now)) }
{
    let mut word = List::new(alloc);
    for source in outputs {
        word.push(value_at(values, source.cell))?;
    }
    Ok(word)
}
