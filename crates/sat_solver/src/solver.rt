// The solver: whether literals of a majority-inverter graph can all be true.
ghost use Rattle.std.specs.Prelude.{◌≡◌, [], ◌∷◌, IfOk, IfSome};
ghost use Rattle.mig.specs.Graphs.{turned};
ghost use Rattle.sat_solver.specs.Clauses.{AreUnsatisfiable, AreClauses};

use crate::checked_clauses::{are_refuted, learn};
use crate::implied::ImpliedLiterals;
use crate::step::Step;
use crate::tables::Tables;
use crate::{Answer, Budget, Clause, Work};
use aq_base::Memory;
use mig::{Builder, turned};
use std::alloc::Global;

/// What a search works with: the tables that find clauses and words, and the literals by which clauses are checked.
#[derive(Drop)]
struct State {
    alloc: Global,
    tables: Tables,
    implied: ImpliedLiterals,
}

/// What comes of a conflict on the first level: that the assumptions cannot all be true, where the steps to it show it.
fn after_final_conflict(
    graph: &Builder,
    state: &mut State,
    clauses: &[Clause],
    assumed: &[u32],
    conflict: Step,
    work: &mut Work,
) -> Result<Answer, Memory>
    requires { AreClauses graph.now clauses.now }
    ensures { IfOk result (λ found. found ≡ Answer.Unsatisfiable → AreUnsatisfiable graph.now assumed.now) }
{
    state.tables.analyze_final(state.alloc, conflict, work)?;
    let steps = state.tables.steps();
    if are_refuted(
        graph,
        clauses,
        &mut state.implied,
        assumed,
        steps,
        conflict.literal,
    )? {
        Ok(Answer::Unsatisfiable)
    } else {
        Ok(Answer::Unknown)
    }
}

/// Learns a clause from a conflict, and backjumps to where it is unit; whether the search goes on.
fn learn_from(
    graph: &Builder,
    state: &mut State,
    clauses: &mut Vec<Clause>,
    conflict: Step,
    work: &mut Work,
) -> Result<bool, Memory>
    requires { AreClauses graph.now clauses.old.items }
    ensures { AreClauses graph.now clauses.new.items }
{
    if state.tables.count_conflict() {
        return Ok(false);
    }
    let clause = state.tables.analyze(state.alloc, conflict, work)?;
    state.tables.backjump(&clause, work)?;
    let steps = state.tables.steps();
    learn(
        graph,
        clauses,
        &mut state.implied,
        clause,
        steps,
        conflict.literal,
    )
}

/// What comes of a conflict: nothing yet, where a clause was learned from it.
fn after_conflict(
    graph: &Builder,
    state: &mut State,
    clauses: &mut Vec<Clause>,
    assumed: &[u32],
    conflict: Step,
    work: &mut Work,
) -> Result<Option<Answer>, Memory>
    requires { AreClauses graph.now clauses.old.items }
    ensures clauses { AreClauses graph.now clauses.new.items }
    ensures found { IfOk result (λ some.
        IfSome some (λ found. found ≡ Answer.Unsatisfiable → AreUnsatisfiable graph.now assumed.now)) }
{
    if state.tables.is_of_assumptions(conflict) {
        let found = after_final_conflict(graph, state, clauses, assumed, conflict, work)?;
        return Ok(Some(found));
    }
    if learn_from(graph, state, clauses, conflict, work)? {
        Ok(None)
    } else {
        Ok(Some(Answer::Unknown))
    }
}

/// Propagates; what comes of a conflict, or of a decision where there is none.
fn one_round(
    graph: &Builder,
    state: &mut State,
    clauses: &mut Vec<Clause>,
    assumed: &[u32],
    work: &mut Work,
) -> Result<Option<Answer>, Memory>
    requires { AreClauses graph.now clauses.old.items }
    ensures clauses { AreClauses graph.now clauses.new.items }
    ensures found { IfOk result (λ some.
        IfSome some (λ found. found ≡ Answer.Unsatisfiable → AreUnsatisfiable graph.now assumed.now)) }
{
    if let Some(conflict) = state.tables.propagate(graph, work)? {
        return after_conflict(graph, state, clauses, assumed, conflict, work);
    }
    if work.left == 0 {
        return Ok(Some(Answer::Unknown));
    }
    if state.tables.decide(graph, work)? {
        Ok(None)
    } else {
        Ok(Some(Answer::Word))
    }
}

/// Rounds of propagation, conflict analysis and decision, until it is known what the search comes to.
fn rounds(
    graph: &Builder,
    state: &mut State,
    clauses: &mut Vec<Clause>,
    assumed: &[u32],
    work: &mut Work,
) -> Result<Answer, Memory>
    requires { AreClauses graph.now clauses.old.items }
    ensures clauses { AreClauses graph.now clauses.new.items }
    ensures found { IfOk result (λ found. found ≡ Answer.Unsatisfiable → AreUnsatisfiable graph.now assumed.now) }
{
    for _ in 0..work.left {
        if let Some(found) = one_round(graph, state, clauses, assumed, work)? {
            return Ok(found);
        }
    }
    Ok(Answer::Unknown)
}

/// A search in the cone that is marked, with the clauses that there are.
fn searched(
    graph: &Builder,
    state: &mut State,
    clauses: &mut Vec<Clause>,
    assumed: &[u32],
    budget: &mut Budget,
) -> Result<Answer, Memory>
    requires { AreClauses graph.now clauses.old.items }
    ensures clauses { AreClauses graph.now clauses.new.items }
    ensures found { IfOk result (λ found. found ≡ Answer.Unsatisfiable → AreUnsatisfiable graph.now assumed.now) }
{
    state.tables.begin(budget.limits)?;
    let work = &mut budget.work;
    if let Some(conflict) = state.tables.assume(assumed, work)? {
        return after_final_conflict(graph, state, clauses, assumed, conflict, work);
    }
    rounds(graph, state, clauses, assumed, work)
}

/// Two searches in the cone of two literals, for a word at which one of them alone is true.
fn compared(
    graph: &Builder,
    state: &mut State,
    clauses: &mut Vec<Clause>,
    p: u32,
    q: u32,
    budget: &mut Budget,
) -> Result<Answer, Memory>
    requires { AreClauses graph.now clauses.old.items }
    ensures clauses { AreClauses graph.now clauses.new.items }
    ensures one { IfOk result (λ found. found ≡ Answer.Unsatisfiable
        → AreUnsatisfiable graph.now (p ∷ turned q ∷ [])) }
    ensures other { IfOk result (λ found. found ≡ Answer.Unsatisfiable
        → AreUnsatisfiable graph.now (turned p ∷ q ∷ [])) }
{
    state.tables.mark(graph, &[p, q], budget)?;
    let first = [p, turned(q)];
    let found = searched(graph, state, clauses, &first, budget)?;
    if found != Answer::Unsatisfiable {
        return Ok(found);
    }
    let second = [turned(p), q];
    searched(graph, state, clauses, &second, budget)
}

/// A solver over the nodes of one graph. Its tables are kept between searches.
#[derive(Drop)]
pub struct Solver {
    state: State,
    own: Vec<Clause>,
    word: Vec<bool>,
    nodes: u32,
}

impl Solver {
    /// A solver for a graph of so many inputs without majorities.
    pub fn new(alloc: Global, inputs: u32) -> Result<Solver, Memory> {
        let word = vec![in alloc; false; inputs as usize]?;
        Ok(Solver {
            state: State {
                alloc,
                tables: Tables::new(alloc),
                implied: ImpliedLiterals::new(alloc),
            },
            own: Vec::new(alloc),
            word,
            nodes: 0,
        })
    }

    /// Takes over the nodes that the graph has and that were not seen yet.
    pub fn grow(&mut self, graph: &Builder) -> Result<(), Memory> {
        let nodes = graph
            .node_count()
            .saturating_add(graph.inputs() as usize)
            .saturating_add(1);
        self.state.tables.grow(nodes)?;
        self.state.implied.grow(nodes.saturating_mul(2))?;
        self.nodes = u32::try_from(nodes).unwrap_or(0);
        Ok(())
    }

    /// Whether these assumptions can all be true: a search that learns a clause from each conflict. Majorities outside
    /// the cone of the literals are not looked at, nor nodes that were not taken over: the search for a literal of such
    /// a node is `Unknown`. The search also gives up at the limits, and where no work is left. Its time is that of the
    /// work that it takes.
    pub fn refute(
        &mut self,
        graph: &Builder,
        assumed: &[u32],
        budget: &mut Budget,
    ) -> Result<Answer, Memory>
        ensures { IfOk result (λ found. found ≡ Answer.Unsatisfiable → AreUnsatisfiable graph.now assumed.now) }
    {
        for literal in assumed {
            if *literal / 2 >= self.nodes {
                return Ok(Answer::Unknown);
            }
        }
        self.own.clear();
        self.state.tables.forget_clauses();
        self.state.tables.mark(graph, assumed, budget)?;
        let found = searched(graph, &mut self.state, &mut self.own, assumed, budget)?;
        self.read_word(found);
        Ok(found)
    }

    /// Whether two literals have one value at each word, as `refute` of the one with the complement of the other, both
    /// ways: the two searches have one cone. `Unsatisfiable` says that neither is true where the other is false. Each
    /// search has the limits. It goes by the clauses that the searches before it learned, as far as its cone has their
    /// nodes, and adds its own, which stay true where the graph grows; past a bound it lets go all.
    pub fn compare(
        &mut self,
        graph: &Builder,
        clauses: &mut Vec<Clause>,
        p: u32,
        q: u32,
        budget: &mut Budget,
    ) -> Result<Answer, Memory>
        requires { AreClauses graph.now clauses.old.items }
        ensures clauses { AreClauses graph.now clauses.new.items }
        ensures one { IfOk result (λ found. found ≡ Answer.Unsatisfiable
            → AreUnsatisfiable graph.now (p ∷ turned q ∷ [])) }
        ensures other { IfOk result (λ found. found ≡ Answer.Unsatisfiable
            → AreUnsatisfiable graph.now (turned p ∷ q ∷ [])) }
    {
        if p / 2 >= self.nodes || q / 2 >= self.nodes {
            return Ok(Answer::Unknown);
        }
        if !self.state.tables.may_keep(clauses.len()) {
            clauses.clear();
            self.state.tables.forget_clauses();
        }
        let found = compared(graph, &mut self.state, clauses, p, q, budget)?;
        self.read_word(found);
        Ok(found)
    }

    /// Takes over the word, if one was found.
    fn read_word(&mut self, found: Answer) {
        if found == Answer::Word {
            self.state.tables.read_word(&mut self.word);
        }
    }

    /// The word of the last search that found one: the values of the inputs, in order.
    pub fn word(&self) -> &[bool] {
        self.word.as_slice()
    }
}
