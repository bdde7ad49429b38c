// The learned clauses that were checked: each is proved by its steps, which are gone through again, before it is kept.
ghost use Rattle.std.specs.Prelude.{◌≡◌, [], ◌∷◌, IsTrue, IfOk};
ghost use Rattle.mig.specs.Graphs.{turned};
ghost use Rattle.sat_solver.specs.Clauses.{AreUnsatisfiable, AreClauses};
ghost use Rattle.sat_solver.specs.Code.Following.{Follows, HasBoth};

use crate::Clause;
use crate::implied::ImpliedLiterals;
use crate::step::{Reason, Step};
use aq_base::Memory;
use mig::{Builder, Node, turned};

/// Whether these are the two literals, in this order.
fn are_these(one: u32, other: u32, p: u32, q: u32) -> bool
    ensures first { IsTrue result → one ≡ p }
    ensures second { IsTrue result → other ≡ q }
{
    one == p && other == q
}

/// Whether two literals are two operands of a majority, in their order there.
#[tactic(auto, using(crate::proofs::Followed::operand_pairs))]
fn has_pair(node: Node, p: u32, q: u32) -> bool
    ensures { IsTrue result → HasBoth node p q }
{
    if are_these(node.x, node.y, p, q) || are_these(node.x, node.z, p, q) {
        return true;
    }
    are_these(node.y, node.z, p, q)
}

/// Whether two literals are two operands of a majority.
fn has_both(node: Node, p: u32, q: u32) -> bool
    ensures { IsTrue result → HasBoth node p q }
{
    has_pair(node, p, q) || has_pair(node, q, p)
}

/// Whether a literal is that of a majority with these two operands.
#[tactic(auto, using(crate::proofs::Followed::majority_unsatisfiable))]
fn is_majority_of(graph: &Builder, top: u32, p: u32, q: u32) -> bool
    ensures { IsTrue result → AreUnsatisfiable graph.now (p ∷ q ∷ turned top ∷ []) }
{
    match graph.operands(top) {
        Some(node) => has_both(node, p, q),
        None => false,
    }
}

/// Whether a literal follows from implied ones, by a majority with these two operands.
#[tactic(auto, using(crate::proofs::Followed::unit_follows))]
fn follows_by_majority(
    graph: &Builder,
    implied: &ImpliedLiterals,
    literal: u32,
    top: u32,
    p: u32,
    q: u32,
) -> bool
    ensures { IsTrue result → Follows graph.now implied.now.literals.items literal }
{
    is_majority_of(graph, top, p, q) && implied.is_unit(literal, &[p, q, turned(top)])
}

/// Whether a literal follows from implied ones, by a clause that is unit.
#[tactic(auto, using(crate::proofs::Followed::unit_follows, crate::proofs::Followed::clause_at))]
fn follows_by_clause(
    graph: &Builder,
    clauses: &[Clause],
    implied: &ImpliedLiterals,
    literal: u32,
    clause: u32,
) -> bool
    requires { AreClauses graph.now clauses.now }
    ensures { IsTrue result → Follows graph.now implied.now.literals.items literal }
{
    let place = clause as usize;
    place < clauses.len() && implied.is_unit(literal, clauses[place].literals.as_slice())
}

/// Whether the literal of a step follows from implied ones, by the reason of the step.
fn follows(graph: &Builder, clauses: &[Clause], implied: &ImpliedLiterals, step: Step) -> bool
    requires { AreClauses graph.now clauses.now }
    ensures { IsTrue result → Follows graph.now implied.now.literals.items step.literal }
{
    let literal = step.literal;
    match step.reason {
        Reason::Decision => false,
        Reason::Operands(p, q) => follows_by_majority(graph, implied, literal, literal, p, q),
        Reason::Majority(top, p) => {
            follows_by_majority(graph, implied, literal, turned(top), p, turned(literal))
        }
        Reason::Clause(clause) => follows_by_clause(graph, clauses, implied, literal, clause),
    }
}

/// Whether steps show that these literals cannot all be true: the steps are gone through from the last to the first,
/// and then the conflicting literal and its complement are implied.
#[tactic(auto, using(crate::proofs::Followed::refutation))]
pub(crate) fn are_refuted(
    graph: &Builder,
    clauses: &[Clause],
    implied: &mut ImpliedLiterals,
    from: &[u32],
    steps: &[Step],
    conflicting: u32,
) -> Result<bool, Memory>
    requires { AreClauses graph.now clauses.now }
    ensures { IfOk result (λ refuted. IsTrue refuted → AreUnsatisfiable graph.now from.now) }
{
    implied.begin(from)?;
    for step in steps.iter().rev() {
        if !follows(graph, clauses, implied, *step) {
            return Ok(false);
        }
        implied.add(step.literal)?;
    }
    Ok(implied.has_conflict(conflicting))
}

/// Learns a clause, by the literals that are kept for it, if steps prove it; whether they do.
#[tactic(auto, using(crate::proofs::Followed::clauses_more))]
pub(crate) fn learn(
    graph: &Builder,
    clauses: &mut Vec<Clause>,
    implied: &mut ImpliedLiterals,
    from: Vec<u32>,
    steps: &[Step],
    conflicting: u32,
) -> Result<bool, Memory>
    requires { AreClauses graph.now clauses.old.items }
    ensures { AreClauses graph.now clauses.new.items }
{
    let is_clause = are_refuted(graph, clauses, implied, &from, steps, conflicting)?;
    if is_clause {
        clauses.push(Clause { literals: from })?;
    }
    Ok(is_clause)
}
