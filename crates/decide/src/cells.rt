// Circuits of gates of which each names lower ones.
ghost use Rattle.std.specs.Prelude.{◌≡◌, IfOk};

use aq_base::{List, Memory};
use circuit::{Answers, Gate, PlainNet, Word, gate_values, shown_values};
use std::alloc::Global;
use std::marker::Model;

/// A circuit of gates, in any order in which each gate names lower ones. An `Input` has a number below `inputs`, each
/// output names a gate, and there are fewer than 2^32 outputs.
#[derive(Drop)]
pub struct Cells {
    /// How many inputs.
    pub inputs: u32,
    pub gates: List<Gate>,
    /// The number of the gate that each output shows.
    pub outputs: List<u32>,
}

impl Model for Cells {
    ghost use Rattle.circuit.specs.PlainNets.{PlainView};
    ghost use Rattle.circuit.specs.CellNets.{IsCells};

    ghost Value = { PlainView };

    ghost view = { λ c. record { inputs = c.inputs; gates = c.gates; outputs = c.outputs } };

    ghost invariant = { λ c. IsCells (record { inputs = c.inputs; gates = c.gates; outputs = c.outputs }) };
}

/// A plain net as such a circuit: the same gates and outputs.
#[tactic(auto, using(circuit::proofs::CellAnswers::plain_is_cells))]
pub fn plain_cells(alloc: Global, net: &PlainNet) -> Result<Cells, Memory>
    ensures { IfOk result (λ cells. cells ≡ net.now) }
{
    net.known();
    let gates = Vec::from_slice(alloc, net.gates.as_slice())?;
    let outputs = Vec::from_slice(alloc, net.outputs.as_slice())?;
    Ok(Cells {
        inputs: net.inputs,
        gates: List::from_vec(gates),
        outputs: List::from_vec(outputs),
    })
}

impl Answers for Cells {
    ghost use Rattle.std.specs.Prelude.{length};
    ghost use Rattle.circuit.specs.PlainNets.{IsAnswer};

    ghost inputs = { λ c. c.inputs };

    ghost outputs = { λ c. length c.outputs };

    ghost meaning = { IsAnswer };

    #[tactic(auto, using(circuit::proofs::CellAnswers::cells_once))]
    fn input_count(&self) -> u32 {
        self.inputs
    }

    fn output_count(&self) -> u32 {
        self.outputs.len() as u32
    }

    fn answer(&self, alloc: Global, word: &Word) -> Result<Word, Memory> {
        let values = gate_values(alloc, self.gates.as_slice(), word.as_slice())?;
        shown_values(alloc, self.outputs.as_slice(), &values)
    }
}
