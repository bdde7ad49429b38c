// Both circuits of a comparison in one diagram.
ghost use Rattle.std.specs.Prelude.{◌≡◌, ℕ, ◌<◌, List, length, IfOk, IfErr, IfSome, IfNone};
ghost use Rattle.std.specs.List.{AllByRecursion};
ghost use Rattle.circuit.specs.CellNets.{circuit, AreCells};
ghost use Rattle.decide.specs.Verdicts.{IsRefusal};
ghost use Rattle.decide.specs.Code.Diagrams.{inputs_of};
ghost use Rattle.decide.specs.Code.GateFunctions.{AreValues};
ghost use Rattle.decide.specs.Code.Outputs.{IsShared, IsFirstDifference};

use crate::DecideRefusal;
use crate::diagram::Diagram;
use crate::edge::{Edge, same_edge};
use crate::gates::edge_of;
use circuit::Gate;
use std::alloc::Global;

/// A diagram, and in it the functions of all gates of two circuits.
#[derive(Drop)]
pub struct Both {
    pub diagram: Diagram,
    pub first: Vec<Edge>,
    pub second: Vec<Edge>,
}

impl Both {
    /// The functions of the gates of two circuits of so many inputs, with these gates.
    pub fn new(
        alloc: Global,
        inputs: u32,
        gates: &[Gate],
        other_gates: &[Gate],
    ) -> Result<Self, DecideRefusal>
        requires first { AreCells inputs gates.now }
        requires second { AreCells inputs other_gates.now }
        ensures inputs { IfOk result (λ both. inputs_of both.diagram.table.nodes.keys ≡ inputs) }
        ensures first { IfOk result
            (λ both. AreValues both.diagram.table.nodes.keys both.first.items gates.now (length gates.now)) }
        ensures second { IfOk result
            (λ both. AreValues both.diagram.table.nodes.keys both.second.items other_gates.now
            (length other_gates.now)) }
        ensures refusal { (outputs other_outputs : List ℕ) → IfErr result
            (IsRefusal (circuit inputs gates.now outputs) (circuit inputs other_gates.now other_outputs)) }
    {
        let mut diagram = Diagram::new(alloc, inputs)?;
        let first = diagram.gates(alloc, gates)?;
        let second = diagram.gates(alloc, other_gates)?;
        Ok(Both {
            diagram,
            first,
            second,
        })
    }

    /// The first output at which the two circuits have different edges.
    pub fn first_difference(&self, outputs: &[u32], other_outputs: &[u32]) -> Option<usize>
        requires first { AllByRecursion (λ x. x < length self.now.first.items) outputs.now }
        requires second { AllByRecursion (λ x. x < length self.now.second.items) other_outputs.now }
        requires outputs { length other_outputs.now ≡ length outputs.now }
        ensures some { IfSome result
            (IsFirstDifference self.now.first.items outputs.now self.now.second.items other_outputs.now) }
        ensures none { IfNone result ((k : ℕ) → k < length outputs.now
            → IsShared self.now.first.items outputs.now self.now.second.items other_outputs.now k) }
    {
        for output in 0..outputs.len() {
            let left = edge_of(&self.first, outputs[output]);
            let right = edge_of(&self.second, other_outputs[output]);
            if !same_edge(left, right) {
                return Some(output);
            }
        }
        None
    }
}
