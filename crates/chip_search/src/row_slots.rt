// The search for slots of the cells of a net in rows.
use crate::arrays::at;
use crate::candidate::{Candidate, Work, better};
use crate::chip::Chip;
use crate::effort::{Effort, Steps};
use crate::finding::line_of;
use crate::near_starts::near_starts;
use crate::ordered_slots::slots_in_order;
use crate::row_chips::RowChip;
use crate::starting::{Hints, place, place_packed};
use aq_base::{List, Memory};
use rowed::RowNet;
use rowed::limits::ELEMENT_LIMIT;
use std::alloc::Global;

/// So many turns are taken after each start.
const TURNS: u32 = 6;

/// Where there are more cells, slots near to where a first start leads are taken, if there are some, and no more sweeps
/// are done: else how many are wanted grows with the rows. Where there are fewer, sweeps come first: they even slots.
const MOST_SWEPT: u32 = 30_000;

/// The chip of a net in rows with its cells placed: packed as they stand, where no start is better.
pub(crate) fn place_rows(
    work: &mut Work,
    made: &RowChip,
    effort: Effort,
) -> Result<Candidate, Memory> {
    let packed = place_packed(work, 0, &made.chip, TURNS, effort)?;
    if packed.missing == 0 {
        return Ok(packed);
    }
    let uses = made.uses(work.alloc)?;
    let line = line_of(work.alloc, &made.graph(), &uses, effort)?;
    let line = line.as_deref().unwrap_or(&[]);
    let outputs = made.outputs.as_slice();
    let hints = Hints {
        line,
        outputs,
        turns: TURNS,
    };
    let placed = place(work, 0, &made.chip, &hints, effort)?;
    Ok(better(packed, placed))
}

/// The slots of a chip's cells at which no wire moves too far, if there are some near to where a start leads after few
/// sweeps: first packed as they stand.
fn near_rows(work: Work, made: &RowChip, effort: Effort) -> Result<Option<Vec<u32>>, Memory> {
    let mut first = work;
    let packed = place_packed(&mut first, 0, &made.chip, 0, effort)?;
    if packed.missing == 0 {
        return Ok(Some(Vec::from_slice(work.alloc, &packed.places.slots)?));
    }
    let uses = made.uses(work.alloc)?;
    let line = line_of(work.alloc, &made.graph(), &uses, effort)?;
    let hints = Hints {
        line: line.as_deref().unwrap_or(&[]),
        outputs: made.outputs.as_slice(),
        turns: 0,
    };
    near_starts(work, &made.chip, &hints, effort)
}

/// Whether the cells and wires are too many to be drawn: an element for each cell, five for each wire, and others.
pub(crate) fn is_too_large(chip: &Chip) -> bool {
    let wires = (chip.wires.len() as u64).saturating_mul(5);
    wires.saturating_add(u64::from(chip.count())) > ELEMENT_LIMIT
}

/// The slots of the cells of each row.
fn slots_by_row(alloc: Global, chip: &Chip, slots: &[u32]) -> Result<List<List<u32>>, Memory> {
    let mut found = List::new(alloc);
    for row in 0..chip.rows() {
        let (first, end) = chip.bounds(row);
        let mut lefts = Vec::with_capacity(alloc, end.saturating_sub(first) as usize)?;
        for cell in first..end {
            lefts.push(at(slots, cell))?;
        }
        found.push(List::from_vec(lefts))?;
    }
    Ok(found)
}

/// The slots of a chip's cells: near to where a first start leads where there are many, and where sweeps find none at
/// which no wire moves too far.
fn slots_of(work: &mut Work, made: &RowChip, effort: Effort) -> Result<Vec<u32>, Memory> {
    let is_large = made.chip.count() > MOST_SWEPT;
    if is_large && let Some(slots) = near_rows(*work, made, effort)? {
        return Ok(slots);
    }
    let placed = place_rows(work, made, effort)?;
    if !is_large && placed.missing > 0 {
        let near = near_rows(*work, made, effort)?;
        if let Some(slots) = near {
            return Ok(slots);
        }
    }
    Ok(Vec::from_slice(work.alloc, &placed.places.slots)?)
}

/// Searches slots for the cells of a net in rows, so that its wires move at most `reach - 1` slots, or else few rows of
/// repeaters are wanted: a list for each row, in the order of its cells. They are the least slots that fit this order,
/// where it has some; those of the cells packed where that has no wire that moves further. So what was stored of a chip,
/// row by row from left to right, has slots again. There are none where the net has too many cells and wires to be
/// drawn. Nothing is promised of what is found: a check takes it or not. The search fails for want of memory alone.
pub fn find_slots(
    alloc: Global,
    net: &RowNet,
    reach: u32,
    effort: &Effort,
) -> Result<List<List<u32>>, Memory> {
    let mut effort = *effort;
    effort.matches = false;
    effort.plants = false;
    effort.lazy_rounds = 0;
    let made = RowChip::new(alloc, net)?;
    if is_too_large(&made.chip) {
        return Ok(List::new(alloc));
    }
    let mut work = Work {
        alloc,
        move_limit: reach.saturating_sub(1).max(1),
        steps: Steps::new(&effort, made.chip.count()),
    };
    if let Some(slots) = slots_in_order(alloc, &made.chip, work.move_limit)? {
        return slots_by_row(alloc, &made.chip, &slots);
    }
    let slots = slots_of(&mut work, &made, effort)?;
    slots_by_row(alloc, &made.chip, &slots)
}
