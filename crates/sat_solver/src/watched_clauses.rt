// The clauses of searches, each with two watched literals.
use crate::Work;
use crate::cone::Cone;
use crate::step::{Reason, Step};
use crate::trail::Trail;
use aq_base::Memory;
use mig::turned;
use std::alloc::Global;

/// What comes of a visit to a clause at a watch, of which the literal that is kept became true.
enum Visit {
    /// It is satisfied, and still watched there.
    Kept,
    /// Another literal of it is watched now.
    Moved,
    /// It is unit: the other watched literal implies this step.
    Implies(Step),
}

/// All clauses, by the literals that are kept for them. The first two of each are watched: a clause that has two
/// literals which are not false implies nothing, so it is visited only where what is kept at a watch becomes true. A
/// watch is twice the number of the clause and which of the two, counted from 1, and the watches of one literal are
/// linked.
#[derive(Drop)]
pub(crate) struct WatchedClauses {
    literals: Vec<u32>,
    starts: Vec<usize>,
    first: Vec<u32>,
    next: Vec<u32>,
    units: Vec<Step>,
}

impl WatchedClauses {
    /// No clauses.
    pub(crate) fn new(alloc: Global) -> WatchedClauses {
        WatchedClauses {
            literals: Vec::new(alloc),
            starts: Vec::new(alloc),
            first: Vec::new(alloc),
            next: Vec::new(alloc),
            units: Vec::new(alloc),
        }
    }

    /// Makes room for so many literals.
    pub(crate) fn grow(&mut self, literals: usize) -> Result<(), Memory> {
        for _ in self.first.len()..literals {
            self.first.push(0)?;
        }
        Ok(())
    }

    /// The literal at a place.
    fn at(&self, place: usize) -> u32 {
        self.literals.get(place).copied().unwrap_or(0)
    }

    /// Where a clause begins.
    fn start(&self, clause: u32) -> usize {
        self.starts
            .get(clause as usize)
            .copied()
            .unwrap_or(self.literals.len())
    }

    /// The literals that are kept for a clause.
    pub(crate) fn clause(&self, clause: u32) -> &[u32] {
        let start = self.start(clause);
        let end = self.start(clause.saturating_add(1));
        self.literals.get(start..end).unwrap_or(&[])
    }

    /// How many clauses there are.
    pub(crate) fn len(&self) -> usize {
        self.starts.len()
    }

    /// How many literals are kept for them.
    pub(crate) fn literal_count(&self) -> usize {
        self.literals.len()
    }

    /// Lets go all clauses.
    pub(crate) fn clear(&mut self) {
        for start in self.starts.as_slice() {
            for place in [*start, start.saturating_add(1)] {
                let literal = self.literals.get(place).copied().unwrap_or(0);
                if let Some(first) = self.first.get_mut(literal as usize) {
                    *first = 0;
                }
            }
        }
        self.literals.clear();
        self.starts.clear();
        self.next.clear();
        self.units.clear();
    }

    /// The steps of the unit clauses, which hold whatever is assumed.
    pub(crate) fn units(&self) -> &[Step] {
        self.units.as_slice()
    }

    /// Watches a literal for a watch, which is of no literal.
    fn watch(&mut self, watch: u32, literal: u32) {
        let Some(first) = self.first.get_mut(literal as usize) else {
            return;
        };
        let after = *first;
        *first = watch;
        self.relink(watch, after);
    }

    /// Writes down which watch comes after a watch.
    fn relink(&mut self, watch: u32, after: u32) {
        if let Some(next) = self.next.get_mut((watch as usize).saturating_sub(1)) {
            *next = after;
        }
    }

    /// A clause more, by the literals that are kept for it: its number.
    pub(crate) fn push(&mut self, clause: &[u32]) -> Result<u32, Memory> {
        let number = u32::try_from(self.starts.len()).unwrap_or(0);
        self.starts.push(self.literals.len())?;
        self.literals.extend_from_slice(clause)?;
        self.next.push(0)?;
        self.next.push(0)?;
        if let [only] = clause {
            self.units.push(Step {
                literal: turned(*only),
                reason: Reason::Clause(number),
            })?;
        }
        if let [first, second, ..] = clause {
            let watch = number.saturating_mul(2).saturating_add(1);
            self.watch(watch, *first);
            self.watch(watch.saturating_add(1), *second);
        }
        Ok(number)
    }

    /// Visits a clause at a watch whose kept literal became true, and looks for another literal to watch.
    fn visit(&mut self, trail: &Trail, watch: u32, work: &mut Work) -> Visit {
        let number = watch.saturating_sub(1) / 2;
        let start = self.start(number);
        let end = self.start(number.saturating_add(1));
        let second = usize::from(watch % 2 == 0);
        let here = start.saturating_add(second);
        let other = self.at(start.saturating_add(1 - second));
        if trail.value(other) == Some(false) {
            return Visit::Kept;
        }
        for place in start.saturating_add(2)..end {
            work.pay(1);
            let literal = self.at(place);
            if trail.value(literal) != Some(true) {
                if here < self.literals.len() && place < self.literals.len() {
                    self.literals.swap(here, place);
                }
                self.watch(watch, literal);
                return Visit::Moved;
            }
        }
        Visit::Implies(Step {
            literal: turned(other),
            reason: Reason::Clause(number),
        })
    }

    /// Takes a watch out of the list of a literal, where it comes after another one, or is the first.
    fn unlink(&mut self, literal: u32, before: u32, after: u32) {
        if before == 0 {
            if let Some(first) = self.first.get_mut(literal as usize) {
                *first = after;
            }
        } else {
            self.relink(before, after);
        }
    }

    /// Propagates in the cone the clauses that are watched at a kept literal which became true; the conflict, if there
    /// is one.
    pub(crate) fn propagate(
        &mut self,
        cone: &Cone,
        trail: &mut Trail,
        literal: u32,
        work: &mut Work,
    ) -> Result<Option<Step>, Memory> {
        let mut before = 0u32;
        let mut watch = self.first.get(literal as usize).copied().unwrap_or(0);
        for _ in 0..work.left {
            let Some(place) = (watch as usize).checked_sub(1) else {
                return Ok(None);
            };
            work.pay(1);
            let after = self.next.get(place).copied().unwrap_or(0);
            match self.visit(trail, watch, work) {
                Visit::Kept => before = watch,
                Visit::Moved => self.unlink(literal, before, after),
                Visit::Implies(step) => {
                    before = watch;
                    if cone.touches(step.literal / 2)
                        && let Some(conflict) = trail.imply(step)?
                    {
                        return Ok(Some(conflict));
                    }
                }
            }
            watch = after;
        }
        Ok(None)
    }
}
