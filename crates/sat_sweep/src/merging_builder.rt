// A graph that grows and whose nodes of one value are merged.
ghost use Rattle.std.specs.Prelude.{◌≡◌, ◌<◌, ◌^◌, [], IfOk, length};
ghost use Rattle.std.specs.List.{AllByRecursion};
ghost use Rattle.mig.specs.Graphs.{node_value, AreBelow};
ghost use Rattle.mig.specs.Building.{IsBuilder, Grown, Gives, limit};

use crate::budget::budget_of;
use crate::merged::Merged;
use crate::sweep::{Sweep, sweep_of};
use mig::{Graph, GraphRefusal};
use sat_solver::Budget;
use std::alloc::Global;
use std::marker::Model;

/// How many conflicts a search may come to: few nodes of one value take more, and what they merge makes the searches
/// for later nodes shorter.
const CONFLICTS: u32 = 200;

/// How many majorities of a cone a search looks at.
const CONE: u32 = 4_000;

/// How much work the searches may take for each node, and at most.
const NODE_WORK: u64 = 5_000;

const MERGE_WORK: u64 = 20_000_000;

/// A graph that grows: majorities that are equal as far as simulation and short searches of the solver tell are one
/// node (FRAIG in the field, for and-inverter graphs).
#[derive(Drop)]
pub struct MergingBuilder {
    alloc: Global,
    merged: Merged,
    sweep: Sweep,
    budget: Budget,
}

impl Model for MergingBuilder {
    ghost use Rattle.mig.specs.Building.{BuilderView};

    ghost Value = { BuilderView };

    ghost view = { λ m. m.merged };
}

impl MergingBuilder {
    /// The graph of so many inputs without majorities. The searches are shared out for about so many to come.
    pub fn new(alloc: Global, inputs: u32, nodes: usize) -> Result<MergingBuilder, GraphRefusal>
        ensures { IfOk result (λ merging. merging ≡ record { inputs = inputs; nodes = [] }) }
    {
        let merged = Merged::new(alloc, inputs)?;
        let mut sweep = sweep_of(alloc, inputs)?;
        sweep.begin(alloc, &merged, nodes)?;
        let work = (nodes as u64).saturating_mul(NODE_WORK).min(MERGE_WORK);
        Ok(MergingBuilder {
            alloc,
            merged,
            sweep,
            budget: budget_of(CONFLICTS, CONE, work),
        })
    }

    /// The graph keeps its facts.
    pub fn known(&self)
        ensures { IsBuilder self.now }
    {
        self.merged.known();
    }

    /// A literal whose value is the majority of the values of three literals: that of a node that is equal to it, if
    /// one is found among those that were there.
    pub fn maj(&mut self, x: u32, y: u32, z: u32) -> Result<u32, GraphRefusal>
        requires { AreBelow (limit self.old) (record { x = x; y = y; z = z }) }
        ensures grown { Grown self.old self.new }
        ensures given { IfOk result (λ literal.
            Gives self.new literal (λ v. node_value v (record { x = x; y = y; z = z }))) }
    {
        let literal = self.merged.maj(x, y, z)?;
        let node = literal / 2;
        self.sweep
            .merge_new(self.alloc, &mut self.merged, node, &mut self.budget)?;
        Ok(self.merged.resolved(literal))
    }

    /// The graph whose outputs show these literals.
    pub fn finish(self, outputs: Vec<u32>) -> Graph
        requires some { 0 < length outputs.items }
        requires few { length outputs.items < 2 ^ 32 }
        requires below { AllByRecursion (λ l. l < limit self) outputs.items }
        ensures { result ≡ record { inputs = self.inputs; nodes = self.nodes; outputs = outputs.items } }
    {
        self.merged.finish(outputs)
    }
}
