// Rows of buffers that the orders of cells do not need: exact slots are found without them.
use crate::arrays::{at, narrow, put};
use crate::candidate::{Candidate, Work};
use crate::chip::Chip;
use crate::exact::{Exact, Side};
use crate::places::Places;
use crate::trimming::{feeds_of, is_spare, leave_out};
use aq_base::Memory;
use std::alloc::Global;

const KEY: u64 = 4_294_967_296;

/// A cell is looked at so many times on average in a try to leave a row out.
const TRY_STEPS: u64 = 40;

/// A cell is looked at so many times on average in all tries, and in the search for first and last slots.
pub(crate) const ALL_STEPS: u64 = 1_500;

/// A chip with the least slots of its cells in their orders, and how many steps were taken.
#[derive(Drop)]
struct Spared {
    chip: Chip,
    places: Places,
    steps: u64,
}

/// The slots as they are kept.
pub(crate) fn narrowed(alloc: Global, slots: &[i64]) -> Result<Vec<u32>, Memory> {
    let mut kept = Vec::with_capacity(alloc, slots.len())?;
    for slot in slots {
        kept.push(u32::try_from(*slot).unwrap_or(0))?;
    }
    Ok(kept)
}

/// So many times as many steps as a chip has cells.
pub(crate) fn steps_for(chip: &Chip, times: u64) -> u64 {
    u64::from(chip.count()).saturating_mul(times)
}

/// The rows that may be left out, the widest first.
fn spare_rows(alloc: Global, chip: &Chip, places: &Places) -> Result<Vec<u32>, Memory> {
    let mut keys: Vec<u64> = Vec::new(alloc);
    for row in 1..chip.rows().saturating_sub(1) {
        if is_spare(chip, places, row) {
            let (first, end) = chip.bounds(row);
            let rest = u64::from(u32::MAX.saturating_sub(end.saturating_sub(first)));
            keys.push(rest.wrapping_mul(KEY).wrapping_add(u64::from(row)))?;
        }
    }
    keys.sort_unstable();
    let mut rows = Vec::new(alloc);
    for key in &keys {
        rows.push((key % KEY) as u32)?;
    }
    Ok(rows)
}

impl Spared {
    /// Whether the row below has room for the constants of a row.
    fn has_room(&self, row: u32) -> bool {
        let mut width: u32 = 0;
        let (first, end) = self.chip.bounds(row.saturating_sub(1));
        for cell in first..end {
            width = width.saturating_add(self.chip.width(cell));
        }
        let (first, end) = self.chip.bounds(row);
        for cell in first..end {
            width = width.saturating_add(u32::from(self.chip.follows(cell)));
        }
        width <= self.places.width
    }

    /// The constraints of the chip without a row, whose cells have the least slots of before. Constants of the row
    /// below it begin anew.
    fn constraints(
        &self,
        alloc: Global,
        chip: &Chip,
        places: &Places,
        row: u32,
    ) -> Result<Exact, Memory> {
        let mut exact = Exact::new(alloc, chip, places, Side::Least, false)?;
        let below = row.saturating_sub(1);
        for cell in 0..chip.count() {
            put(&mut exact.slots, cell, i64::from(at(&places.slots, cell)));
        }
        let (old, _) = self.chip.bounds(below);
        let (first, end) = chip.bounds(below);
        for cell in first..end {
            let before = old.saturating_add(cell.saturating_sub(first));
            let slot = if chip.follows(cell) {
                0
            } else {
                at(&self.places.slots, before)
            };
            put(&mut exact.slots, cell, i64::from(slot));
        }
        for near in row.saturating_sub(2)..row.saturating_add(2) {
            exact.touch(near);
        }
        Ok(exact)
    }

    /// Leaves a row out, if there are slots without it; whether there are.
    fn try_without(&mut self, alloc: Global, row: u32) -> Result<bool, Memory> {
        if !self.has_room(row) {
            return Ok(false);
        }
        let feeds = feeds_of(alloc, &self.chip)?;
        let mut dropped = vec![in alloc; false; self.chip.rows() as usize]?;
        put(&mut dropped, row, true);
        let (chip, places) = leave_out(alloc, &self.chip, &self.places, &feeds, &dropped)?;
        let mut exact = self.constraints(alloc, &chip, &places, row)?;
        let is_solved = exact.solve(&chip, steps_for(&chip, TRY_STEPS));
        self.steps = self.steps.saturating_add(exact.steps);
        if is_solved {
            let slots = narrowed(alloc, &exact.slots)?;
            self.places = places.like(alloc, slots, places.width);
            self.chip = chip;
        }
        Ok(is_solved)
    }

    /// Leaves rows out, the widest first.
    fn leave_rows_out(&mut self, work: &mut Work) -> Result<(), Memory> {
        let most = steps_for(&self.chip, ALL_STEPS);
        let mut rows = spare_rows(work.alloc, &self.chip, &self.places)?;
        for number in 0..narrow(rows.len()) {
            if self.steps > most || work.steps.take(self.chip.count(), 1) == 0 {
                break;
            }
            let row = at(&rows, number);
            if self.try_without(work.alloc, row)? {
                for other in &mut rows {
                    if *other > row {
                        *other = other.saturating_sub(1);
                    }
                }
            }
        }
        Ok(())
    }

    /// Puts each cell in the middle between its least and greatest slot, which keeps all constraints.
    fn center(&mut self, alloc: Global) -> Result<(), Memory> {
        let mut exact = Exact::new(alloc, &self.chip, &self.places, Side::Greatest, true)?;
        if exact.solve(&self.chip, steps_for(&self.chip, ALL_STEPS)) {
            for cell in 0..self.chip.count() {
                let least = i64::from(at(&self.places.slots, cell));
                let greatest = crate::arrays::wide_at(&exact.slots, cell);
                let middle = least.wrapping_add(greatest) / 2;
                let middle = u32::try_from(middle).unwrap_or(0);
                put(&mut self.places.slots, cell, middle);
            }
        }
        Ok(())
    }
}

/// The candidate without rows of buffers that the orders of its cells do not need, if none of its wires moves too far.
pub(crate) fn spare(work: &mut Work, candidate: Candidate) -> Result<Candidate, Memory> {
    if candidate.missing > 0 {
        return Ok(candidate);
    }
    let alloc = work.alloc;
    let mut exact = Exact::new(alloc, &candidate.chip, &candidate.places, Side::Least, true)?;
    if !exact.solve(&candidate.chip, steps_for(&candidate.chip, ALL_STEPS)) {
        return Ok(candidate);
    }
    let slots = narrowed(alloc, &exact.slots)?;
    let mut spared = Spared {
        chip: candidate.chip.copy(alloc)?,
        places: candidate.places.like(alloc, slots, candidate.places.width),
        steps: 0,
    };
    spared.leave_rows_out(work)?;
    spared.center(alloc)?;
    let Spared {
        chip,
        places,
        steps: _,
    } = spared;
    let made = Candidate::of(candidate.graph, chip, places);
    if made.total > candidate.total {
        return Ok(candidate);
    }
    Ok(made)
}
