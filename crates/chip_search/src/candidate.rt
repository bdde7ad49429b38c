// Chips with places, and how good they are.
use crate::chip::Chip;
use crate::effort::{Effort, Steps};
use crate::lazy::settle_lazily;
use crate::places::Places;
use aq_base::Memory;
use std::alloc::Global;

/// A chip that is made anew counts as if its cells were settled so many times.
const MAKING: u32 = 8;

/// A chip with its places: how many cells it has and how many are missing, and its graph's number.
#[derive(Drop)]
pub struct Candidate {
    pub graph: usize,
    pub total: u64,
    pub missing: u64,
    pub chip: Chip,
    pub places: Places,
}

/// What a search works with: how many slots a wire may move, and how many steps are left.
#[derive(Clone, Copy)]
pub struct Work {
    pub alloc: Global,
    pub move_limit: u32,
    pub steps: Steps,
}

impl Candidate {
    /// The same candidate once more.
    pub fn copy(&self, alloc: Global) -> Result<Candidate, Memory> {
        Ok(Candidate {
            graph: self.graph,
            total: self.total,
            missing: self.missing,
            chip: self.chip.copy(alloc)?,
            places: self.places.copy(alloc)?,
        })
    }

    /// A chip with its places as they are.
    pub(crate) fn of(graph: usize, chip: Chip, places: Places) -> Candidate {
        let missing = places.far(&chip).missing;
        Candidate {
            graph,
            total: u64::from(chip.count()).saturating_add(missing),
            missing,
            chip,
            places,
        }
    }

    /// A chip and its places, after its rows were settled as often as steps are left for.
    pub fn settled(
        work: &mut Work,
        graph: usize,
        chip: Chip,
        places: Places,
        sweeps: u32,
        effort: Effort,
    ) -> Result<Candidate, Memory> {
        let mut chip = chip;
        let mut places = places;
        let _made = work.steps.take(chip.count(), MAKING);
        let sweeps = work.steps.take(chip.count(), sweeps);
        let mut missing = places.improve(&mut chip, sweeps, effort.matches)?;
        if missing > 0 && missing <= places.most_missing && effort.lazy_rounds > 0 {
            let alloc = work.alloc;
            let steps = &mut work.steps;
            missing = settle_lazily(alloc, &mut places, &mut chip, steps, missing, effort)?;
        }
        Ok(Candidate {
            graph,
            total: u64::from(chip.count()).saturating_add(missing),
            missing,
            chip,
            places,
        })
    }
}

/// The better of two candidates, the first one where both are as good.
pub fn better(one: Candidate, other: Candidate) -> Candidate {
    if other.total < one.total { other } else { one }
}
