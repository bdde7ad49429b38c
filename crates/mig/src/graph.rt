// Graphs, and their answers.
ghost use Rattle.std.specs.Prelude.{◌≡◌, ◌<◌, Some, length, slice_get};

use crate::Node;
use crate::levels::{depth, levels};
use crate::values::{node_values, shown};
use aq_base::{List, Memory};
use circuit::{Answers, Word};
use std::alloc::Global;
use std::marker::Model;

/// A graph of majorities. Node 0 is false, nodes 1 to the number of inputs are the inputs, and the later ones are
/// majorities, each of literals of lower nodes. There is some output, each output is a literal, and there are fewer
/// than 2^30 nodes.
#[derive(Drop)]
pub struct Graph {
    pub(crate) inputs: u32,
    pub(crate) nodes: Vec<Node>,
    pub(crate) outputs: Vec<u32>,
}

impl Model for Graph {
    ghost use Rattle.mig.specs.Graphs.{GraphView, IsGraph};

    ghost Value = { GraphView };

    ghost view = { λ g. record { inputs = g.inputs; nodes = g.nodes.items; outputs = g.outputs.items } };

    ghost invariant = { λ g. IsGraph (record { inputs = g.inputs; nodes = g.nodes.items; outputs = g.outputs.items }) };
}

impl Graph {
    ghost use Rattle.mig.specs.Graphs.{IsGraph};

    /// The graph keeps its facts.
    pub fn known(&self)
        ensures { IsGraph self.now }
    {
        let _inputs = &self.inputs;
    }

    /// How many inputs it has.
    pub fn inputs(&self) -> u32
        ensures { result ≡ self.now.inputs }
    {
        self.inputs
    }

    /// How many majorities it has.
    pub fn node_count(&self) -> usize
        ensures { result ≡ length self.now.nodes }
    {
        self.nodes.len()
    }

    /// The majority of this number, counted from 0.
    pub fn node(&self, number: usize) -> Node
        requires { number < length self.now.nodes }
        ensures { slice_get self.now.nodes number ≡ Some result }
    {
        self.nodes[number]
    }

    /// The majorities, in order.
    pub fn nodes(&self) -> &[Node]
        ensures { result.now ≡ self.now.nodes }
    {
        self.nodes.as_slice()
    }

    /// The literals that the outputs show, in order.
    pub fn outputs(&self) -> &[u32]
        ensures { result.now ≡ self.now.outputs }
    {
        self.outputs.as_slice()
    }

    /// The greatest level of an output: the constant and the inputs have level 0, and a majority one more than the
    /// greatest of its operands. It tells searches how good a graph is, and no clause speaks of it.
    pub fn depth(&self, alloc: Global) -> Result<u32, Memory> {
        let levels = levels(alloc, self.inputs, self.nodes.as_slice())?;
        Ok(depth(&levels, self.outputs.as_slice()))
    }
}

impl Answers for Graph {
    ghost use Rattle.std.specs.Prelude.{length};
    ghost use Rattle.mig.specs.Graphs.{IsAnswer};

    ghost inputs = { λ g. g.inputs };

    ghost outputs = { λ g. length g.outputs };

    ghost meaning = { IsAnswer };

    #[tactic(auto, using(crate::proofs::Valued::one_answer))]
    fn input_count(&self) -> u32 {
        self.inputs
    }

    fn output_count(&self) -> u32 {
        self.outputs.len() as u32
    }

    fn answer(&self, alloc: Global, word: &Word) -> Result<Word, Memory> {
        let values = node_values(alloc, self.nodes.as_slice(), word.as_slice())?;
        shown(alloc, self.outputs.as_slice(), &values)
    }
}
