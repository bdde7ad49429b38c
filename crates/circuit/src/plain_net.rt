// Nets of gates, and their answers.
ghost use Rattle.circuit.specs.PlainNets.{IsPlainNet};

use crate::values::{gate_values, shown_values};
use crate::{Answers, Gate, Word};
use aq_base::{List, Memory};
use std::alloc::Global;
use std::marker::Model;

/// A net of gates. First stand the inputs, by rising number, then `Zero` and `One`, and then buffers, inverters and
/// majorities, each of which names lower gates only. No buffer or inverter names a constant, and at most one of the
/// three operands of a majority is one. There is some output, and each output names a gate.
#[derive(Drop)]
pub struct PlainNet {
    pub inputs: u32,
    pub gates: List<Gate>,
    pub outputs: List<u32>,
}

impl Model for PlainNet {
    ghost use Rattle.circuit.specs.PlainNets.{PlainView, IsPlainNet};

    ghost Value = { PlainView };

    ghost view = { λ n. record { inputs = n.inputs; gates = n.gates; outputs = n.outputs } };

    ghost invariant = { λ n. IsPlainNet (record { inputs = n.inputs; gates = n.gates; outputs = n.outputs }) };
}

impl PlainNet {
    /// The net keeps its facts.
    pub fn known(&self)
        ensures { IsPlainNet self.now }
    {
        let _inputs = &self.inputs;
    }
}

impl Answers for PlainNet {
    ghost use Rattle.std.specs.Prelude.{length};
    ghost use Rattle.circuit.specs.PlainNets.{IsAnswer};

    ghost inputs = { λ n. n.inputs };

    ghost outputs = { λ n. length n.outputs };

    ghost meaning = { IsAnswer };

    #[tactic(auto, using(crate::proofs::CellAnswers::plain_once))]
    fn input_count(&self) -> u32 {
        self.inputs
    }

    fn output_count(&self) -> u32 {
        self.outputs.len() as u32
    }

    fn answer(&self, alloc: Global, word: &Word) -> Result<Word, Memory> {
        let values = gate_values(alloc, self.gates.as_slice(), word.as_slice())?;
        shown_values(alloc, self.outputs.as_slice(), &values)
    }
}
