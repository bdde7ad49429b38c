// The tables of a search, and its moves. They find clauses and words; nothing that is proved depends on them.
use crate::activity::Activity;
use crate::cone::Cone;
use crate::conflict_analysis::{ConflictAnalysis, conflict_level};
use crate::decision::next_decision;
use crate::propagation::propagate;
use crate::step::{Reason, Step};
use crate::trail::Trail;
use crate::watched_clauses::WatchedClauses;
use crate::{Budget, Limits, Work};
use aq_base::Memory;
use mig::{Builder, turned};
use std::alloc::Global;

/// How many literals may be kept for the clauses that the next search takes over.
const MOST_LITERALS: usize = 500_000;

/// The tables of a search.
#[derive(Drop)]
pub(crate) struct Tables {
    cone: Cone,
    trail: Trail,
    clauses: WatchedClauses,
    analysis: ConflictAnalysis,
    activity: Activity,
    conflicts: u32,
}

impl Tables {
    /// Tables for no nodes.
    pub(crate) fn new(alloc: Global) -> Tables {
        Tables {
            cone: Cone::new(alloc),
            trail: Trail::new(alloc),
            clauses: WatchedClauses::new(alloc),
            analysis: ConflictAnalysis::new(alloc),
            activity: Activity::new(alloc),
            conflicts: 0,
        }
    }

    /// Makes room for so many nodes.
    pub(crate) fn grow(&mut self, nodes: usize) -> Result<(), Memory> {
        self.cone.grow(nodes)?;
        self.trail.grow(nodes)?;
        self.clauses.grow(nodes.saturating_mul(2))?;
        self.analysis.grow(nodes)?;
        self.activity.grow(nodes)
    }

    /// Lets go all clauses.
    pub(crate) fn forget_clauses(&mut self) {
        self.clauses.clear();
    }

    /// Whether these are so many clauses, and not too many to be kept.
    pub(crate) fn may_keep(&self, clauses: usize) -> bool {
        self.clauses.len() == clauses && self.clauses.literal_count() <= MOST_LITERALS
    }

    /// Marks the cone of some literals.
    pub(crate) fn mark(
        &mut self,
        graph: &Builder,
        literals: &[u32],
        budget: &mut Budget,
    ) -> Result<(), Memory> {
        let most = budget.limits.cone;
        self.cone.mark(graph, literals, most, &mut budget.work)
    }

    /// Begins a search anew at the first level, with the clauses and the cone that there are.
    pub(crate) fn begin(&mut self, limits: Limits) -> Result<(), Memory> {
        self.trail.backtrack(0);
        self.trail.begin_level()?;
        self.conflicts = limits.conflicts;
        Ok(())
    }

    /// Sets the unit clauses and the assumptions; the conflict, if one of them is false.
    pub(crate) fn assume(
        &mut self,
        assumed: &[u32],
        work: &mut Work,
    ) -> Result<Option<Step>, Memory> {
        for step in self.clauses.units() {
            work.pay(1);
            if self.cone.touches(step.literal / 2)
                && let Some(conflict) = self.trail.imply(*step)?
            {
                return Ok(Some(conflict));
            }
        }
        for literal in assumed {
            let step = Step {
                literal: *literal,
                reason: Reason::Decision,
            };
            if let Some(conflict) = self.trail.imply(step)? {
                return Ok(Some(conflict));
            }
        }
        Ok(None)
    }

    /// Propagates what is set; the conflict, if there is one.
    pub(crate) fn propagate(
        &mut self,
        graph: &Builder,
        work: &mut Work,
    ) -> Result<Option<Step>, Memory> {
        propagate(graph, &self.cone, &mut self.trail, &mut self.clauses, work)
    }

    /// Decides a literal on a level of its own; whether one was left to decide.
    pub(crate) fn decide(&mut self, graph: &Builder, work: &mut Work) -> Result<bool, Memory> {
        match next_decision(graph, &self.cone, &self.activity, &mut self.trail, work) {
            Some(literal) => {
                self.trail.begin_level()?;
                self.trail.set(Step {
                    literal,
                    reason: Reason::Decision,
                })?;
                Ok(true)
            }
            None => Ok(false),
        }
    }

    /// Whether a conflict comes of the assumptions alone.
    pub(crate) fn is_of_assumptions(&self, conflict: Step) -> bool {
        conflict_level(&self.trail, &self.clauses, conflict) <= 1
    }

    /// Counts a conflict; whether there were too many.
    pub(crate) fn count_conflict(&mut self) -> bool {
        let is_last = self.conflicts == 0;
        self.conflicts = self.conflicts.saturating_sub(1);
        is_last
    }

    /// Analyses a conflict of the assumptions: finds the steps from them to it.
    pub(crate) fn analyze_final(
        &mut self,
        alloc: Global,
        conflict: Step,
        work: &mut Work,
    ) -> Result<(), Memory> {
        self.analysis
            .analyze_final(alloc, &self.trail, &self.clauses, conflict, work)
    }

    /// Analyses a conflict: the literals that are kept for the clause that it shows. Bumps the nodes that had a part in
    /// it.
    pub(crate) fn analyze(
        &mut self,
        alloc: Global,
        conflict: Step,
        work: &mut Work,
    ) -> Result<Vec<u32>, Memory> {
        let clause = self
            .analysis
            .analyze(alloc, &self.trail, &self.clauses, conflict, work)?;
        for node in self.analysis.nodes() {
            self.activity.bump(*node);
        }
        self.activity.decay();
        Ok(clause)
    }

    /// The steps of the last analysis, from the last to the first.
    pub(crate) fn steps(&self) -> &[Step] {
        self.analysis.steps.as_slice()
    }

    /// Backjumps to the lowest level on which a learned clause is unit, and sets the literal that it implies there.
    pub(crate) fn backjump(&mut self, clause: &[u32], work: &mut Work) -> Result<(), Memory> {
        work.pay(clause.len() as u64);
        let Some(first) = clause.first().copied() else {
            return Ok(());
        };
        let level = match clause.get(1) {
            Some(second) => self.trail.level_of(*second).max(1),
            None => 1,
        };
        self.trail.backtrack(level);
        let number = self.clauses.push(clause)?;
        self.trail.set(Step {
            literal: turned(first),
            reason: Reason::Clause(number),
        })
    }

    /// The values of the inputs, false where there is none.
    pub(crate) fn read_word(&self, word: &mut Vec<bool>) {
        let mut node = 0u32;
        for value in word.iter_mut() {
            node = node.saturating_add(1);
            *value = self.trail.node_value(node) == Some(true);
        }
    }
}
