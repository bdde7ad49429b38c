// The answer of an extracted circuit to a word.
ghost use Rattle.std.specs.Prelude.{◌≡◌, List, Bool, length};
ghost use Rattle.circuit_extracted.specs.Circuits.{CircuitView, KeepsFacts};
ghost use Rattle.circuit_extracted.specs.Answers.{IsAnswer};

use crate::evaluation::{shown, values};
use crate::layout_circuit::Extracted;
use aq_base::Memory;
use circuit::{Answers, Word};
use std::alloc::Global;

/// An extracted circuit has exactly one answer to each word, with a value for each of its outputs.
pub fn one_answer()
    ensures some { (circuit : CircuitView) (word : List Bool)
        → KeepsFacts circuit → (answer : List Bool) × IsAnswer circuit word answer }
    ensures only { (circuit : CircuitView) (word first second : List Bool)
        → KeepsFacts circuit → IsAnswer circuit word first → IsAnswer circuit word second
        → first ≡ second }
    ensures whole { (circuit : CircuitView) (word answer : List Bool)
        → IsAnswer circuit word answer → length answer ≡ length circuit.outputs }
{}

impl Answers for Extracted {
    ghost use Rattle.std.specs.Prelude.{length};
    ghost use Rattle.circuit_extracted.specs.Answers.{IsAnswer};

    ghost inputs = { λ c. c.inputs };

    ghost outputs = { λ c. length c.outputs };

    ghost meaning = { IsAnswer };

    #[tactic(auto, using(crate::proofs::Valuations::circuit_once))]
    fn input_count(&self) -> u32 {
        self.inputs
    }

    fn output_count(&self) -> u32 {
        self.outputs.len() as u32
    }

    fn answer(&self, alloc: Global, word: &Word) -> Result<Word, Memory> {
        let values = values(alloc, self.cells.as_slice(), word.as_slice())?;
        shown(alloc, self.outputs.as_slice(), &values)
    }
}
