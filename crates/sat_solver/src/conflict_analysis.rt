// Conflict analysis: the clause that a conflict shows, by resolution back to the first unique implication point.
use crate::Work;
use crate::step::{Reason, Step};
use crate::trail::Trail;
use crate::watched_clauses::WatchedClauses;
use aq_base::Memory;
use mig::turned;
use std::alloc::Global;

/// The level of a conflict: the greatest of its literal, whose complement is set, and of the literals of its reason.
pub(crate) fn conflict_level(trail: &Trail, clauses: &WatchedClauses, step: Step) -> u32 {
    let own = trail.level_of(step.literal);
    match step.reason {
        Reason::Decision => own,
        Reason::Operands(p, q) | Reason::Majority(p, q) => {
            own.max(trail.level_of(p)).max(trail.level_of(q))
        }
        Reason::Clause(clause) => {
            let mut level = own;
            for literal in clauses.clause(clause) {
                level = level.max(trail.level_of(*literal));
            }
            level
        }
    }
}

/// Brings a literal of the greatest level past the first one to the second place, to be watched there.
fn bring_second(trail: &Trail, clause: &mut Vec<u32>) {
    let mut best = 1usize;
    let mut level = 0u32;
    for (place, literal) in clause.iter().enumerate() {
        let here = trail.level_of(*literal);
        if place > 0 && here > level {
            best = place;
            level = here;
        }
    }
    if 1 < clause.len() && best < clause.len() {
        clause.swap(1, best);
    }
}

/// The analysis of a conflict: literals that cannot all be true, while one after another is resolved with its reason,
/// from the end of the trail on. Those of `level`, the conflict's, are marked and counted as `unresolved`, and those of
/// lower levels are kept. The steps are those of the literals that were resolved.
#[derive(Drop)]
pub(crate) struct ConflictAnalysis {
    pub(crate) steps: Vec<Step>,
    marks: Vec<bool>,
    marked: Vec<u32>,
    unresolved: usize,
    level: u32,
}

impl ConflictAnalysis {
    /// Nothing.
    pub(crate) fn new(alloc: Global) -> ConflictAnalysis {
        ConflictAnalysis {
            steps: Vec::new(alloc),
            marks: Vec::new(alloc),
            marked: Vec::new(alloc),
            unresolved: 0,
            level: 0,
        }
    }

    /// Makes room for so many nodes.
    pub(crate) fn grow(&mut self, nodes: usize) -> Result<(), Memory> {
        for _ in self.marks.len()..nodes {
            self.marks.push(false)?;
        }
        Ok(())
    }

    /// Begins the analysis of a conflict on this level, without marks and steps.
    fn begin(&mut self, level: u32) {
        for node in self.marked.as_slice() {
            if let Some(mark) = self.marks.get_mut(*node as usize) {
                *mark = false;
            }
        }
        self.marked.clear();
        self.steps.clear();
        self.unresolved = 0;
        self.level = level;
    }

    /// Marks a literal of the level, or keeps one of a lower level.
    fn mark(&mut self, trail: &Trail, kept: &mut Vec<u32>, literal: u32) -> Result<(), Memory> {
        let node = literal / 2;
        let Some(mark) = self.marks.get_mut(node as usize) else {
            return Ok(());
        };
        if node == 0 || *mark {
            return Ok(());
        }
        *mark = true;
        self.marked.push(node)?;
        if trail.level_of(literal) >= self.level {
            self.unresolved = self.unresolved.saturating_add(1);
        } else {
            kept.push(literal)?;
        }
        Ok(())
    }

    /// Resolves a literal with its reason: puts in its place those that imply it. An assumption or a decision is no
    /// step.
    fn resolve(
        &mut self,
        trail: &Trail,
        clauses: &WatchedClauses,
        kept: &mut Vec<u32>,
        step: Step,
        work: &mut Work,
    ) -> Result<(), Memory> {
        match step.reason {
            Reason::Decision => return Ok(()),
            Reason::Operands(p, q) | Reason::Majority(p, q) => {
                self.mark(trail, kept, p)?;
                self.mark(trail, kept, q)?;
            }
            Reason::Clause(clause) => {
                let left_out = turned(step.literal);
                for literal in clauses.clause(clause) {
                    work.pay(1);
                    if *literal != left_out {
                        self.mark(trail, kept, *literal)?;
                    }
                }
            }
        }
        self.steps.push(step)?;
        Ok(())
    }

    /// Resolves back along the trail from a conflict. It stops at the first unique implication point, where one literal
    /// of the level is left, which is given: with it, those that are kept cannot all be true. On the first level it
    /// stops where none is left but assumptions.
    fn resolve_back(
        &mut self,
        trail: &Trail,
        clauses: &WatchedClauses,
        kept: &mut Vec<u32>,
        work: &mut Work,
    ) -> Result<Option<u32>, Memory> {
        for back in 0..trail.len() {
            work.pay(1);
            let place = trail.len().saturating_sub(back).saturating_sub(1);
            let Some(literal) = trail.literal_at(place) else {
                return Ok(None);
            };
            if !self.is_marked(literal) || trail.level_of(literal) < self.level {
                continue;
            }
            if self.unresolved <= 1 && self.level > 1 {
                return Ok(Some(literal));
            }
            self.unresolved = self.unresolved.saturating_sub(1);
            let reason = trail.reason_of(literal);
            self.resolve(trail, clauses, kept, Step { literal, reason }, work)?;
            if self.unresolved == 0 {
                return Ok(None);
            }
        }
        Ok(None)
    }

    /// Marks the literals of a conflict: the one that is false, and those of the reason.
    fn mark_conflict(
        &mut self,
        trail: &Trail,
        clauses: &WatchedClauses,
        kept: &mut Vec<u32>,
        conflict: Step,
        work: &mut Work,
    ) -> Result<(), Memory> {
        self.mark(trail, kept, turned(conflict.literal))?;
        self.resolve(trail, clauses, kept, conflict, work)
    }

    /// The steps from the assumptions to a conflict on the first level.
    pub(crate) fn analyze_final(
        &mut self,
        alloc: Global,
        trail: &Trail,
        clauses: &WatchedClauses,
        conflict: Step,
        work: &mut Work,
    ) -> Result<(), Memory> {
        let mut kept = Vec::new(alloc);
        self.begin(1);
        self.mark_conflict(trail, clauses, &mut kept, conflict, work)?;
        self.resolve_back(trail, clauses, &mut kept, work)?;
        Ok(())
    }

    /// The literals that are kept for the clause that a conflict on a higher level shows, and the steps from them to
    /// it. The first is the only one of that level, and the second is of the greatest level among the others.
    pub(crate) fn analyze(
        &mut self,
        alloc: Global,
        trail: &Trail,
        clauses: &WatchedClauses,
        conflict: Step,
        work: &mut Work,
    ) -> Result<Vec<u32>, Memory> {
        let mut clause = Vec::new(alloc);
        clause.push(0)?;
        self.begin(conflict_level(trail, clauses, conflict));
        self.mark_conflict(trail, clauses, &mut clause, conflict, work)?;
        let last = self.resolve_back(trail, clauses, &mut clause, work)?;
        if let Some(first) = clause.get_mut(0) {
            *first = last.unwrap_or(0);
        }
        bring_second(trail, &mut clause);
        Ok(clause)
    }

    /// The nodes that have a part in the last conflict.
    pub(crate) fn nodes(&self) -> &[u32] {
        self.marked.as_slice()
    }

    /// Whether the node of a literal is marked.
    fn is_marked(&self, literal: u32) -> bool {
        self.marks
            .get((literal / 2) as usize)
            .copied()
            .unwrap_or(false)
    }
}
