// Comparison of two literals by the solver: they have one value where neither can be true without the other.
ghost use Rattle.std.specs.Prelude.{◌≡◌, IfOk};
ghost use Rattle.sat_solver.specs.declared.answer.Answer.TheVariants as answers;
ghost use Rattle.sat_solver.specs.Clauses.{AreClauses};
ghost use Rattle.sat_sweep.specs.Code.Merging.{AreAlike};

use aq_base::Memory;
use mig::Builder;
use sat_solver::{Answer, Budget, Clause, Solver};

/// Whether two literals have one value: `Unsatisfiable` says that they never have two.
#[tactic(auto, using(crate::proofs::Refuting::if_compared))]
pub(crate) fn compare_literals(
    graph: &Builder,
    clauses: &mut Vec<Clause>,
    solver: &mut Solver,
    one: u32,
    other: u32,
    budget: &mut Budget,
) -> Result<Answer, Memory>
    requires { AreClauses graph.now clauses.old.items }
    ensures clauses { AreClauses graph.now clauses.new.items }
    ensures alike { IfOk result (λ found. found ≡ answers.Unsatisfiable → AreAlike graph.now one other) }
{
    solver.compare(graph, clauses, one, other, budget)
}
