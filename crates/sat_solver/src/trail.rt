// The trail: literals that are set, in the order in which they were.
use crate::step::{Reason, Step};
use aq_base::Memory;
use std::alloc::Global;

/// The decision level on which a node was set, and the reason.
#[derive(Clone, Copy)]
struct Setting {
    level: u32,
    reason: Reason,
}

/// Where a decision level begins on the trail, and where the frontier of the decisions was before it.
#[derive(Clone, Copy)]
struct Start {
    place: usize,
    frontier: usize,
}

/// The values of nodes, and the trail. The first decision level has the assumptions and what they imply; each level
/// above has one decision and what it implies with those below. `next` is the place of the first literal that is not
/// propagated yet, and `frontier` that of the first literal that may still lack a justification (`decision.rt`).
#[derive(Drop)]
pub(crate) struct Trail {
    values: Vec<Option<bool>>,
    settings: Vec<Setting>,
    literals: Vec<u32>,
    starts: Vec<Start>,
    next: usize,
    frontier: usize,
}

impl Trail {
    /// No values.
    pub(crate) fn new(alloc: Global) -> Trail {
        Trail {
            values: Vec::new(alloc),
            settings: Vec::new(alloc),
            literals: Vec::new(alloc),
            starts: Vec::new(alloc),
            next: 0,
            frontier: 0,
        }
    }

    /// Makes room for so many nodes. Node 0 is false for good.
    pub(crate) fn grow(&mut self, nodes: usize) -> Result<(), Memory> {
        for node in self.values.len()..nodes {
            let value = if node == 0 { Some(false) } else { None };
            self.values.push(value)?;
            self.settings.push(Setting {
                level: 0,
                reason: Reason::Decision,
            })?;
        }
        Ok(())
    }

    /// The value of a node.
    pub(crate) fn node_value(&self, node: u32) -> Option<bool> {
        self.values.get(node as usize).copied().unwrap_or(None)
    }

    /// The value of a literal.
    pub(crate) fn value(&self, literal: u32) -> Option<bool> {
        let value = self.node_value(literal / 2)?;
        Some(value != (literal % 2 == 1))
    }

    /// The decision level on which a literal was set.
    pub(crate) fn level_of(&self, literal: u32) -> u32 {
        match self.settings.get((literal / 2) as usize) {
            Some(setting) => setting.level,
            None => 0,
        }
    }

    /// The reason why a literal was set.
    pub(crate) fn reason_of(&self, literal: u32) -> Reason {
        match self.settings.get((literal / 2) as usize) {
            Some(setting) => setting.reason,
            None => Reason::Decision,
        }
    }

    /// How many decision levels there are.
    pub(crate) fn level(&self) -> u32 {
        u32::try_from(self.starts.len()).unwrap_or(u32::MAX)
    }

    /// How many literals are set.
    pub(crate) fn len(&self) -> usize {
        self.literals.len()
    }

    /// The literal at a place of the trail.
    pub(crate) fn literal_at(&self, place: usize) -> Option<u32> {
        self.literals.get(place).copied()
    }

    /// The first place of the trail at which a literal may lack a justification.
    pub(crate) fn frontier(&self) -> usize {
        self.frontier
    }

    /// All literals before this place are justified.
    pub(crate) fn set_frontier(&mut self, place: usize) {
        self.frontier = place;
    }

    /// The next literal to propagate.
    pub(crate) fn take_next(&mut self) -> Option<u32> {
        let literal = self.literal_at(self.next)?;
        self.next = self.next.saturating_add(1);
        Some(literal)
    }

    /// Sets a literal.
    pub(crate) fn set(&mut self, step: Step) -> Result<(), Memory> {
        let node = (step.literal / 2) as usize;
        let level = self.level();
        self.literals.push(step.literal)?;
        if let Some(value) = self.values.get_mut(node) {
            *value = Some(step.literal % 2 == 0);
        }
        if let Some(setting) = self.settings.get_mut(node) {
            *setting = Setting {
                level,
                reason: step.reason,
            };
        }
        Ok(())
    }

    /// Sets the literal that a step implies, unless it is set; the step, as a conflict, where the literal is false.
    pub(crate) fn imply(&mut self, step: Step) -> Result<Option<Step>, Memory> {
        match self.value(step.literal) {
            Some(true) => Ok(None),
            Some(false) => Ok(Some(step)),
            None => {
                self.set(step)?;
                Ok(None)
            }
        }
    }

    /// Begins a decision level.
    pub(crate) fn begin_level(&mut self) -> Result<(), Memory> {
        let start = Start {
            place: self.literals.len(),
            frontier: self.frontier,
        };
        self.starts.push(start)?;
        Ok(())
    }

    /// Backtracks to a decision level: lets go what was set on levels past it.
    pub(crate) fn backtrack(&mut self, level: u32) {
        let Some(start) = self.starts.get(level as usize).copied() else {
            return;
        };
        for _ in start.place..self.literals.len() {
            if let Some(literal) = self.literals.pop() {
                if let Some(value) = self.values.get_mut((literal / 2) as usize) {
                    *value = None;
                }
            }
        }
        self.starts.truncate(level as usize);
        self.frontier = start.frontier;
        self.next = self.next.min(self.literals.len());
    }
}
