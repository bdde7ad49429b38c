// The literals that are implied so far, while the steps of a conflict are checked.
ghost use Rattle.std.specs.Prelude.{◌≡◌, [], ◌∷◌, ◌++◌, IsTrue, IfOk};
ghost use Rattle.std.specs.List.{All, Contains};
ghost use Rattle.sat_solver.specs.Code.Following.{IsImplied, AreConflicting};

use aq_base::Memory;
use mig::turned;
use std::alloc::Global;

/// The literals that steps have shown to be implied, in their order, and for each literal the place where it stands, if
/// it is implied. What is found at a place is compared, so that nothing depends on what the places are, and none is
/// ever cleared.
#[derive(Drop)]
pub(crate) struct ImpliedLiterals {
    pub(crate) literals: Vec<u32>,
    places: Vec<u32>,
}

impl ImpliedLiterals {
    /// None, with places for no literals.
    pub(crate) fn new(alloc: Global) -> ImpliedLiterals {
        ImpliedLiterals {
            literals: Vec::new(alloc),
            places: Vec::new(alloc),
        }
    }

    /// Makes places for so many literals.
    pub(crate) fn grow(&mut self, literals: usize) -> Result<(), Memory> {
        for _ in self.places.len()..literals {
            self.places.push(0)?;
        }
        Ok(())
    }

    /// Whether a literal is implied.
    pub(crate) fn has(&self, literal: u32) -> bool
        ensures { IsTrue result → Contains self.now.literals.items literal }
    {
        let place = self.places.get(literal as usize).copied().unwrap_or(0) as usize;
        place < self.literals.len() && self.literals[place] == literal
    }

    /// One literal more.
    pub(crate) fn add(&mut self, literal: u32) -> Result<(), Memory>
        ensures { IfOk result (λ done. self.new.literals.items ≡ self.old.literals.items ++ literal ∷ []) }
    {
        if let Some(place) = self.places.get_mut(literal as usize) {
            *place = u32::try_from(self.literals.len()).unwrap_or(0);
        }
        self.literals.push(literal)?;
        Ok(())
    }

    /// Begins with the literal that is always true, and these.
    pub(crate) fn begin(&mut self, from: &[u32]) -> Result<(), Memory>
        ensures { IfOk result (λ done. self.new.literals.items ≡ 1 ∷ from.now) }
    {
        self.literals.clear();
        self.add(1)?;
        for literal in from {
            self.add(*literal)?;
        }
        Ok(())
    }

    /// Whether a further literal is implied where this one is false: it is implied already, or the complement of this
    /// one.
    #[tactic(auto, using(crate::proofs::Followed::implied_already, crate::proofs::Followed::implied_by_turned))]
    fn implies(&self, literal: u32, further: u32) -> bool
        ensures { IsTrue result → IsImplied self.now.literals.items literal further }
    {
        if further == turned(literal) {
            return true;
        }
        self.has(further)
    }

    /// Whether a clause is unit with this literal left: what is kept for it are implied literals and the complement of
    /// this one.
    pub(crate) fn is_unit(&self, literal: u32, clause: &[u32]) -> bool
        ensures { IsTrue result → All (IsImplied self.now.literals.items literal) clause.now }
    {
        for further in clause {
            if !self.implies(literal, *further) {
                return false;
            }
        }
        true
    }

    /// Whether a literal and its complement are implied.
    pub(crate) fn has_conflict(&self, literal: u32) -> bool
        ensures { IsTrue result → AreConflicting self.now.literals.items }
    {
        self.has(literal) && self.has(turned(literal))
    }
}
