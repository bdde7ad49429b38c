// Slots at which no wire moves too far, near to where a start leads after a few sweeps.
use crate::candidate::{Candidate, Work};
use crate::chip::Chip;
use crate::effort::Effort;
use crate::near_slots::near_slots;
use crate::places::{Aim, Places};
use crate::starting::{Hints, Start, place_from, turn_once};
use aq_base::Memory;

/// After a start in a line so many turns are taken at most.
const NEAR_TURNS: u32 = 2;

/// Slots that were found are evened so many times.
const EVENED: u32 = 2;

/// All rows are settled so many times to even slots.
const EVEN_SWEEPS: u32 = 8;

/// Places whose rows were settled some times, so that wires move less far where one had to move far, and slots near to
/// those. The places stay where there are none.
fn evened(work: &Work, chip: &Chip, places: Places) -> Result<Places, Memory> {
    let mut best = places;
    for _ in 0..EVENED {
        let mut next = best.copy(work.alloc)?;
        for turn in 0..EVEN_SWEEPS {
            next.sweep(chip, turn % 2 == 0, Aim::Middle)?;
        }
        let Some(slots) = near_slots(work.alloc, chip, &next)? else {
            break;
        };
        best.slots = slots;
    }
    Ok(best)
}

/// The slots of a candidate, if no wire moves too far there, else near to them, if there are some.
fn slots_near(work: &Work, candidate: &Candidate) -> Result<Option<Vec<u32>>, Memory> {
    let places = &candidate.places;
    if candidate.missing == 0 {
        return Ok(Some(Vec::from_slice(work.alloc, &places.slots)?));
    }
    let Some(slots) = near_slots(work.alloc, &candidate.chip, places)? else {
        return Ok(None);
    };
    let found = places.like(work.alloc, slots, places.width);
    let Places { slots, .. } = evened(work, &candidate.chip, found)?;
    Ok(Some(slots))
}

/// The slots near to where a start leads, if there are some after at most so many turns.
fn slots_from(
    work: &mut Work,
    chip: &Chip,
    start: Start,
    turns: u32,
    effort: Effort,
) -> Result<Option<Vec<u32>>, Memory> {
    let mut candidate = place_from(work, 0, chip, start, 0, effort)?;
    for turn in 0..turns {
        let slots = slots_near(work, &candidate)?;
        if slots.is_some() {
            return Ok(slots);
        }
        candidate = turn_once(work, &candidate, turn, effort)?;
    }
    slots_near(work, &candidate)
}

/// The slots of a chip's cells at which no wire moves too far, near to where one of two starts leads, if any: by a
/// line, or else down.
pub(crate) fn near_starts(
    work: Work,
    chip: &Chip,
    hints: &Hints,
    effort: Effort,
) -> Result<Option<Vec<u32>>, Memory> {
    let mut work = work;
    let mut sharp = effort;
    sharp.smooth_sweeps = 0;
    if !hints.line.is_empty() {
        let slots = slots_from(&mut work, chip, Start::Line(hints.line), NEAR_TURNS, sharp)?;
        if slots.is_some() {
            return Ok(slots);
        }
    }
    slots_from(&mut work, chip, Start::Down(hints.outputs), 0, sharp)
}
