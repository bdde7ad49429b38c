// A graph whose nodes are merged into representatives of the same value.
ghost use Rattle.std.specs.Prelude.{◌≡◌, ◌⊎◌, ◌*◌, ◌/◌, ◌<◌, ◌^◌, ℕ, Some, [], IfOk, IfSome, IfNone, IsTrue, length};
ghost use Rattle.std.specs.List.{AllByRecursion};
ghost use Rattle.sat_solver.specs.declared.answer.Answer.TheVariants as answers;
ghost use Rattle.mig.specs.Graphs.{node_value, AreBelow};
ghost use Rattle.mig.specs.Building.{IsBuilder, Grown, Gives, limit};
ghost use Rattle.sat_sweep.specs.Code.Merging.{AreAlike, StandsFor, AreAllAlike, AreAlikeBelow};
ghost use Rattle.sat_sweep.specs.Code.Merging.{representative_at, turned_as};

use crate::comparison::compare_literals;
use aq_base::Memory;
use mig::{Builder, Graph, GraphRefusal, turned};
use sat_solver::{Answer, Budget, Clause, Solver};
use std::alloc::Global;
use std::marker::Model;

/// How many representatives of representatives are looked up: each round of a sweep adds at most one.
const MOST_STEPS: usize = 4;

/// The representative of a literal: the literal that its node was merged into, if it was, turned as the literal is.
fn representative(representatives: &[Option<u32>], literal: u32) -> Option<u32>
    ensures { (found : ℕ) → result ≡ Some found
        → (own : ℕ) × (representative_at representatives.now (literal / 2) ≡ Some own)
        × (found ≡ turned_as literal own) }
{
    let own = representatives
        .get((literal / 2) as usize)
        .copied()
        .unwrap_or(None)?;
    Some(if literal % 2 == 1 { turned(own) } else { own })
}

/// Gives a node a representative.
fn set_representative(
    representatives: &mut Vec<Option<u32>>,
    node: u32,
    literal: u32,
) -> Result<(), Memory>
    ensures { (k own : ℕ) → representative_at representatives.new.items k ≡ Some own
        → (representative_at representatives.old.items k ≡ Some own) ⊎ ((k ≡ node) × (own ≡ literal)) }
{
    let place = node as usize;
    if representatives.len() <= place {
        representatives.resize(place + 1, None)?;
    }
    representatives[place] = Some(literal);
    Ok(())
}

/// A graph, for each node that was merged its representative, and the clauses that comparisons learned.
/// Clauses see the graph.
#[derive(Drop)]
pub(crate) struct Merged {
    builder: Builder,
    representatives: Vec<Option<u32>>,
    clauses: Vec<Clause>,
}

impl Model for Merged {
    ghost use Rattle.mig.specs.Building.{BuilderView};
    ghost use Rattle.sat_sweep.specs.Code.Merging.{IsKnown};

    ghost Value = { BuilderView };

    ghost view = { λ m. m.builder };

    ghost invariant = { λ m. IsKnown m.builder m.representatives.items m.clauses.items };
}

impl Merged {
    /// The graph of so many inputs without majorities.
    pub(crate) fn new(alloc: Global, inputs: u32) -> Result<Merged, GraphRefusal>
        ensures { IfOk result (λ merged. merged ≡ record { inputs = inputs; nodes = [] }) }
    {
        let builder = Builder::new(alloc, inputs)?;
        Ok(Merged {
            builder,
            representatives: Vec::new(alloc),
            clauses: Vec::new(alloc),
        })
    }

    /// The graph keeps its facts.
    pub(crate) fn known(&self)
        ensures { IsBuilder self.now }
    {
        self.builder.known();
    }

    /// The graph.
    pub(crate) fn graph(&self) -> &Builder
        ensures { result.now ≡ self.now }
    {
        &self.builder
    }

    /// Whether a node was merged into another one.
    pub(crate) fn is_merged(&self, node: u32) -> bool {
        self.representatives
            .get(node as usize)
            .copied()
            .unwrap_or(None)
            .is_some()
    }

    /// The literal that stands for a literal: the representative of its representatives.
    pub(crate) fn resolved(&self, literal: u32) -> u32
        ensures { StandsFor self.now literal result }
    {
        let mut now = literal;
        for _ in 0..MOST_STEPS {
            match representative(&self.representatives, now) {
                None => return now,
                Some(next) => now = next,
            }
        }
        now
    }

    /// Merges a node into a literal.
    #[tactic(auto, using(crate::proofs::Merging::merged_more))]
    pub(crate) fn merge(&mut self, node: u32, literal: u32) -> Result<(), Memory>
        requires below { literal < limit self.old }
        requires alike { AreAlike self.old (2 * node) literal }
        ensures { self.new ≡ self.old }
    {
        set_representative(&mut self.representatives, node, literal)
    }

    /// Whether two literals have one value, by searches, as far as they get with the limits and the work of a round:
    /// `Unsatisfiable` says that they never have two. The clauses that were learned before serve, and there may be
    /// more.
    pub(crate) fn compare(
        &mut self,
        solver: &mut Solver,
        one: u32,
        other: u32,
        budget: &mut Budget,
    ) -> Result<Answer, Memory>
        ensures same { self.new ≡ self.old }
        ensures alike { IfOk result (λ found. found ≡ answers.Unsatisfiable → AreAlike self.new one other) }
    {
        compare_literals(&self.builder, &mut self.clauses, solver, one, other, budget)
    }

    /// A literal whose value is the majority of the values of three literals.
    pub(crate) fn maj(&mut self, x: u32, y: u32, z: u32) -> Result<u32, GraphRefusal>
        requires { AreBelow (limit self.old) (record { x = x; y = y; z = z }) }
        ensures grown { Grown self.old self.new }
        ensures given { IfOk result (λ literal.
            Gives self.new literal (λ v. node_value v (record { x = x; y = y; z = z }))) }
    {
        self.builder.maj(x, y, z)
    }

    /// The graph whose outputs show these literals.
    pub(crate) fn finish(self, outputs: Vec<u32>) -> Graph
        requires some { 0 < length outputs.items }
        requires few { length outputs.items < 2 ^ 32 }
        requires below { AllByRecursion (λ l. l < limit self) outputs.items }
        ensures { result ≡ record { inputs = self.inputs; nodes = self.nodes; outputs = outputs.items } }
    {
        self.builder.finish(outputs)
    }

    /// A literal of a node's value, made of what stands for its operands.
    #[tactic(auto, using(crate::proofs::Merging::if_remade))]
    pub(crate) fn remade(&mut self, node: u32) -> Result<u32, GraphRefusal>
        requires { 2 * node < limit self.old }
        ensures grown { Grown self.old self.new }
        ensures alike { IfOk result (λ literal. StandsFor self.new (2 * node) literal) }
    {
        self.builder.known();
        match self.builder.operands(2 * node) {
            None => Ok(2 * node),
            Some(operands) => {
                let x = self.resolved(operands.x);
                let y = self.resolved(operands.y);
                let z = self.resolved(operands.z);
                self.builder.maj(x, y, z)
            }
        }
    }
}

/// The first place at which the literals of two lists are not known to have one value.
pub(crate) fn first_unmerged(merged: &Merged, ones: &[u32], others: &[u32]) -> Option<usize>
    requires { length others.now ≡ length ones.now }
    ensures none { IfNone result (AreAllAlike merged.now ones.now others.now) }
    ensures some { IfSome result
        (λ place. (place < length ones.now) × AreAlikeBelow merged.now ones.now others.now place) }
{
    for place in 0..ones.len() {
        if merged.resolved(ones[place]) != merged.resolved(others[place]) {
            return Some(place);
        }
    }
    None
}

/// Whether the literals of two lists have one value each.
pub(crate) fn are_all_alike(merged: &Merged, ones: &[u32], others: &[u32]) -> bool
    requires { length others.now ≡ length ones.now }
    ensures { IsTrue result → AreAllAlike merged.now ones.now others.now }
{
    first_unmerged(merged, ones, others).is_none()
}
