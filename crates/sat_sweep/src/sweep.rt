// A sweep over a graph: nodes that may be equal by their signatures are compared, and merged where the solver proves
// it.
ghost use Rattle.std.specs.Prelude.{◌≡◌, ◌*◌, ◌<◌, ℕ, List, IfOk, IfSome, length};
ghost use Rattle.mig.specs.Building.{Grown, limit};
ghost use Rattle.sat_sweep.specs.Code.Least.{IsLeastWord, IsSweepResult};

use crate::budget::budget_of;
use crate::classes::Classes;
use crate::least::Miter;
use crate::merged::{Merged, are_all_alike, first_unmerged};
use crate::needed::{is_marked, needed};
use crate::numbers::{first_node, node_limit};
use crate::signatures::Signatures;
use crate::sweep_result::SweepResult;
use aq_base::{List, Memory};
use circuit::Word;
use mig::GraphRefusal;
use sat_solver::{Answer, Budget, Limits, Solver};
use std::alloc::Global;

/// How many conflicts a search may come to, in each round. Few are enough for most nodes, and what these merge makes
/// the searches for the others shorter.
const ROUND_CONFLICTS: [u32; 3] = [20, 200, 2_000];

/// How much work the searches of all rounds may take for each node of the graph, and at most.
const NODE_WORK: u64 = 20_000;

const SWEEP_WORK: u64 = 150_000_000;

/// How much work the searches for a least word may take.
const LEAST_WORK: u64 = 50_000_000;

/// From so many nodes on a search looks at parts of cones alone, of so many majorities.
const LARGE: u32 = 100_000;

const PART: u32 = 4_000;

/// How many nodes a node is compared with, and how many of its class are looked at for that.
const MOST_COMPARED: u32 = 2;

const MOST_LOOKED_AT: usize = 64;

/// How many conflicts a search for a least word may come to.
const LEAST_CONFLICTS: u32 = 20_000;

/// How many majorities of a cone a search looks at, in a graph of so many nodes.
fn cone_of(nodes: u32) -> u32 {
    if nodes > LARGE { PART } else { nodes }
}

/// How much work the searches of all rounds may take in a graph of so many nodes.
fn work_of(nodes: u32) -> u64 {
    u64::from(nodes).saturating_mul(NODE_WORK).min(SWEEP_WORK)
}

/// What tells which nodes may be equal, and what compares them.
#[derive(Drop)]
pub(crate) struct Sweep {
    signatures: Signatures,
    classes: Classes,
    solver: Solver,
}

impl Sweep {
    /// Begins a round: all nodes get signatures, and the constant and the inputs come first in their classes. There are
    /// about so many nodes.
    pub(crate) fn begin(
        &mut self,
        alloc: Global,
        merged: &Merged,
        nodes: usize,
    ) -> Result<(), Memory> {
        let graph = merged.graph();
        self.signatures.grow(graph)?;
        self.solver.grow(graph)?;
        self.classes = Classes::new(alloc, nodes)?;
        for node in 0..first_node(graph) {
            let key = self.signatures.class_key(node);
            self.classes.add(key, node)?;
        }
        Ok(())
    }

    /// Refines the signatures by the word that the last search found, a counterexample to the equality of two literals.
    fn refine(
        &mut self,
        alloc: Global,
        merged: &Merged,
        one: u32,
        other: u32,
        budget: &mut Budget,
    ) -> Result<(), Memory> {
        let graph = merged.graph();
        let word = self.solver.word();
        if self
            .signatures
            .add_counterexample(alloc, graph, word, one, other)?
        {
            let cost = u64::from(node_limit(graph)) / 4;
            budget.work.left = budget.work.left.saturating_sub(cost);
        }
        Ok(())
    }

    /// Compares a node with a literal, and merges it into that where both are found to be alike. Says whether it did.
    fn merge_if_alike(
        &mut self,
        alloc: Global,
        merged: &mut Merged,
        node: u32,
        literal: u32,
        budget: &mut Budget,
    ) -> Result<bool, Memory>
        requires node { 2 * node < limit merged.old }
        requires literal { literal < limit merged.old }
        ensures { merged.new ≡ merged.old }
    {
        merged.known();
        let own = 2 * node;
        match merged.compare(&mut self.solver, own, literal, budget)? {
            Answer::Unsatisfiable => {
                merged.merge(node, literal)?;
                Ok(true)
            }
            Answer::Word => {
                self.refine(alloc, merged, own, literal, budget)?;
                Ok(false)
            }
            Answer::Unknown => Ok(false),
        }
    }

    /// Compares a node with the oldest nodes of its class, its representatives, and puts it into the class where it is
    /// merged into none.
    fn compare_with_class(
        &mut self,
        alloc: Global,
        merged: &mut Merged,
        node: u32,
        budget: &mut Budget,
    ) -> Result<(), Memory>
        requires { 2 * node < limit merged.old }
        ensures { merged.new ≡ merged.old }
    {
        if self.classes.has(node) {
            return Ok(());
        }
        let key = self.signatures.class_key(node);
        let mut candidate = self.classes.first(key);
        let mut compared = 0;
        for _ in 0..MOST_LOOKED_AT {
            let Some(other) = candidate else {
                break;
            };
            if let Some(literal) = self.signatures.candidate_literal(other, node) {
                if compared >= MOST_COMPARED || literal / 2 >= node_limit(merged.graph()) {
                    break;
                }
                compared += 1;
                if self.merge_if_alike(alloc, merged, node, literal, budget)? {
                    return Ok(());
                }
            }
            candidate = self.classes.after(other);
        }
        self.classes.add(key, node)
    }

    /// Merges a node that is new into the node of its class that the solver finds alike, if there is one.
    pub(crate) fn merge_new(
        &mut self,
        alloc: Global,
        merged: &mut Merged,
        node: u32,
        budget: &mut Budget,
    ) -> Result<(), Memory>
        requires { 2 * node < limit merged.old }
        ensures { merged.new ≡ merged.old }
    {
        if merged.is_merged(node) {
            return Ok(());
        }
        self.signatures.grow(merged.graph())?;
        self.solver.grow(merged.graph())?;
        self.compare_with_class(alloc, merged, node, budget)
    }

    /// Makes a node anew of what its operands were merged into, and merges it where what comes of it is another node.
    #[tactic(auto, using(crate::proofs::Merging::stands_then))]
    fn sweep_node(
        &mut self,
        alloc: Global,
        merged: &mut Merged,
        node: u32,
        budget: &mut Budget,
    ) -> Result<(), GraphRefusal>
        requires { 2 * node < limit merged.old }
        ensures { Grown merged.old merged.new }
    {
        if merged.is_merged(node) {
            return Ok(());
        }
        let literal = merged.remade(node)?;
        self.signatures.grow(merged.graph())?;
        self.solver.grow(merged.graph())?;
        self.compare_with_class(alloc, merged, literal / 2, budget)?;
        if literal / 2 != node {
            let representative = merged.resolved(literal);
            merged.merge(node, representative)?;
        }
        Ok(())
    }

    /// Passes over the nodes that are needed, lowest first.
    fn sweep_nodes(
        &mut self,
        alloc: Global,
        merged: &mut Merged,
        needed: &[bool],
        budget: &mut Budget,
    ) -> Result<(), GraphRefusal>
        ensures { Grown merged.old merged.new }
    {
        for node in first_node(merged.graph())..node_limit(merged.graph()) {
            if is_marked(needed, node) {
                self.sweep_node(alloc, merged, node, budget)?;
            }
        }
        Ok(())
    }

    /// The first place at which the literals of two lists are known to differ, or how many places there are.
    fn first_difference(&self, ones: &[u32], others: &[u32]) -> usize {
        ones.iter()
            .zip(others)
            .position(|(one, other)| self.signatures.are_known_to_differ(*one, *other))
            .unwrap_or(ones.len())
    }

    /// Rounds, in which a search may come to more conflicts than in the one before, over what the literals of two lists
    /// need that are not known to be alike, as far as the first place at which they are known to differ.
    fn rounds(
        &mut self,
        alloc: Global,
        merged: &mut Merged,
        ones: &[u32],
        others: &[u32],
    ) -> Result<(), GraphRefusal>
        requires { length others.now ≡ length ones.now }
        ensures { Grown merged.old merged.new }
    {
        let mut budget = budget_of(0, 0, work_of(node_limit(merged.graph())));
        for conflicts in ROUND_CONFLICTS {
            self.begin(alloc, merged, node_limit(merged.graph()) as usize)?;
            let count = self.first_difference(ones, others);
            if first_unmerged(merged, ones, others).unwrap_or(count) >= count {
                return Ok(());
            }
            let needed = needed(alloc, merged, ones, others, count)?;
            let cone = cone_of(node_limit(merged.graph()));
            budget.limits = Limits { conflicts, cone };
            self.sweep_nodes(alloc, merged, &needed, &mut budget)?;
        }
        Ok(())
    }

    /// A word at which two literals seem to differ, where they have one value at each word before it.
    fn least_word(
        &mut self,
        alloc: Global,
        merged: &Merged,
        one: u32,
        other: u32,
    ) -> Result<Option<Word>, Memory>
        ensures { IfOk result (λ some. IfSome some (IsLeastWord merged.now one other)) }
    {
        let graph = merged.graph();
        let one = merged.resolved(one);
        let other = merged.resolved(other);
        let Some(mut word) = self
            .signatures
            .distinguishing_word(alloc, graph.inputs(), one, other)?
        else {
            return Ok(None);
        };
        let miter = Miter {
            alloc,
            graph,
            one,
            other,
        };
        let mut budget = budget_of(LEAST_CONFLICTS, node_limit(graph), LEAST_WORK);
        miter.lower(&mut self.solver, &mut word, &mut budget)?;
        miter.least_or_none(&mut self.solver, word, &mut budget)
    }
}

/// What a sweep over a graph of so many inputs begins with.
pub(crate) fn sweep_of(alloc: Global, inputs: u32) -> Result<Sweep, Memory> {
    Ok(Sweep {
        signatures: Signatures::new(alloc, inputs)?,
        classes: Classes::new(alloc, 0)?,
        solver: Solver::new(alloc, inputs)?,
    })
}

/// A candidate counterexample for the literals of a place, if one is known.
fn some_counterexample(
    alloc: Global,
    sweep: &Sweep,
    merged: &Merged,
    place: usize,
    one: u32,
    other: u32,
) -> Result<SweepResult, Memory>
    ensures { IfOk result (λ swept. (ones others : List ℕ) → place < length ones
        → IsSweepResult merged.now ones others swept) }
{
    let one = merged.resolved(one);
    let other = merged.resolved(other);
    let inputs = merged.graph().inputs();
    match sweep
        .signatures
        .distinguishing_word(alloc, inputs, one, other)?
    {
        None => Ok(SweepResult::Undecided),
        Some(word) => Ok(SweepResult::Counterexample {
            place,
            word: List::from_vec(word),
        }),
    }
}

/// The result for the literals of two lists, once nodes are merged.
fn result_of(
    alloc: Global,
    sweep: &mut Sweep,
    merged: &Merged,
    ones: &[u32],
    others: &[u32],
) -> Result<SweepResult, Memory>
    requires { length others.now ≡ length ones.now }
    ensures { IfOk result (IsSweepResult merged.now ones.now others.now) }
{
    let Some(place) = first_unmerged(merged, ones, others) else {
        return Ok(SweepResult::Equal);
    };
    match sweep.least_word(alloc, merged, ones[place], others[place])? {
        Some(word) => Ok(SweepResult::LeastCounterexample { place, word }),
        None => some_counterexample(alloc, sweep, merged, place, ones[place], others[place]),
    }
}

/// The same after rounds.
fn after_rounds(
    alloc: Global,
    sweep: &mut Sweep,
    merged: &mut Merged,
    ones: &[u32],
    others: &[u32],
) -> Result<SweepResult, GraphRefusal>
    requires { length others.now ≡ length ones.now }
    ensures grown { Grown merged.old merged.new }
    ensures found { IfOk result (IsSweepResult merged.new ones.now others.now) }
{
    sweep.rounds(alloc, merged, ones, others)?;
    Ok(result_of(alloc, sweep, merged, ones, others)?)
}

/// What is found of the literals of two lists: where they are not the same, a sweep merges nodes that are alike.
pub(crate) fn swept(
    alloc: Global,
    merged: &mut Merged,
    ones: &[u32],
    others: &[u32],
) -> Result<SweepResult, GraphRefusal>
    requires { length others.now ≡ length ones.now }
    ensures grown { Grown merged.old merged.new }
    ensures found { IfOk result (IsSweepResult merged.new ones.now others.now) }
{
    if are_all_alike(merged, ones, others) {
        return Ok(SweepResult::Equal);
    }
    let inputs = merged.graph().inputs();
    let mut sweep = sweep_of(alloc, inputs)?;
    after_rounds(alloc, &mut sweep, merged, ones, others)
}
