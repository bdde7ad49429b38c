// Slots near to where the cells of a chip stand, in the same orders, at which no wire moves too far.
use crate::arrays::{at, put, wide_at};
use crate::chip::Chip;
use crate::exact::{Exact, Side};
use crate::places::Places;
use crate::sparing::{narrowed, steps_for};
use aq_base::Memory;
use std::alloc::Global;

/// A cell is looked at so many times on average in each of the four searches for slots.
const NEAR_STEPS: u64 = 20;

/// The constraints of the cells in the orders in which they stand, met by the least or the greatest slots, if there are
/// such.
fn solved(
    alloc: Global,
    chip: &Chip,
    places: &Places,
    side: Side,
) -> Result<Option<Exact>, Memory> {
    let mut exact = Exact::new(alloc, chip, places, side, true)?;
    if exact.solve(chip, steps_for(chip, NEAR_STEPS)) {
        Ok(Some(exact))
    } else {
        Ok(None)
    }
}

/// The same, by the least slots that are none below where cells stand, or the greatest that are none above, where these
/// are the greatest or the least of all.
fn solved_from(
    alloc: Global,
    chip: &Chip,
    places: &Places,
    side: Side,
    ends: &[i64],
) -> Result<Option<Exact>, Memory> {
    let mut exact = Exact::new(alloc, chip, places, side, true)?;
    for cell in 0..chip.count() {
        let stands = i64::from(at(&places.slots, cell));
        let end = wide_at(ends, cell);
        let slot = match side {
            Side::Least => stands.min(end),
            Side::Greatest => stands.max(end),
        };
        put(&mut exact.slots, cell, slot);
    }
    if exact.solve(chip, steps_for(chip, NEAR_STEPS)) {
        Ok(Some(exact))
    } else {
        Ok(None)
    }
}

/// The slots in the middle between two of each cell. Where both meet all constraints, they do.
fn middles(alloc: Global, low: &[i64], high: &[i64]) -> Result<Vec<u32>, Memory> {
    let mut slots = Vec::with_capacity(alloc, low.len())?;
    for (one, other) in low.iter().zip(high) {
        slots.push(one.wrapping_add(*other) / 2)?;
    }
    narrowed(alloc, &slots)
}

/// Slots at which no wire moves too far, of cells in the orders in which they stand in their rows, if there are some:
/// in the middle between the least ones that are none below where cells stand, and the greatest that are none above. So
/// cells far from each wire that moves too far stay.
pub(crate) fn near_slots(
    alloc: Global,
    chip: &Chip,
    places: &Places,
) -> Result<Option<Vec<u32>>, Memory> {
    let Some(least) = solved(alloc, chip, places, Side::Least)? else {
        return Ok(None);
    };
    let Some(greatest) = solved(alloc, chip, places, Side::Greatest)? else {
        return Ok(None);
    };
    let up = solved_from(alloc, chip, places, Side::Least, &greatest.slots)?;
    let down = solved_from(alloc, chip, places, Side::Greatest, &least.slots)?;
    match (up, down) {
        (Some(up), Some(down)) => Ok(Some(middles(alloc, &down.slots, &up.slots)?)),
        _ => Ok(None),
    }
}
