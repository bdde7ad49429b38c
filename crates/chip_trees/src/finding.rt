// The search among graphs of the same answers.
use crate::numbers::Random;
use crate::race::{Race, racing};
use crate::ranking::rank;
use crate::task::MOST_PLACED;
use aq_base::Memory;
use chip_search::Found;
use chip_search::arrays::{at, narrow, put};
use chip_search::candidate::{Candidate, Work};
use chip_search::chip::Chip;
use chip_search::drafts::make_draft;
use chip_search::effort::{Effort, Steps};
use chip_search::graph::turn;
use chip_search::growing::{finish, trim};
use circuit::CellKind;
use mig::Graph;
use std::alloc::Global;

/// No rows are left out of a chip that has so many hundredths of the cells of the best one after rows were added: that
/// takes fewer cells away.
const MOST_GROWN: u64 = 120;

/// Rows of buffers are left out at most so many times at the end.
const TRIMS: u32 = 4;

/// So many hundredths of the cells of the best candidate, if there is one.
fn hundredths_of(best: &Option<Candidate>, hundredths: u64) -> u64 {
    match best {
        Some(found) => found.total.saturating_mul(hundredths) / 100,
        None => u64::MAX,
    }
}

/// How many slots the rows of a chip take, from the leftmost cell to the end of the rightmost one.
fn span(candidate: &Candidate) -> u32 {
    let mut left = u32::MAX;
    let mut right: u32 = 0;
    for cell in 0..candidate.chip.count() {
        let slot = at(&candidate.places.slots, cell);
        left = left.min(slot);
        right = right.max(slot.saturating_add(candidate.chip.width(cell)));
    }
    right.saturating_sub(left)
}

/// Whether a chip costs less than another one, or as much and is narrower: its clock has less skew then.
fn is_better(race: Race, one: &Candidate, other: &Candidate) -> bool {
    let cost = race.cost_of(one);
    let other_cost = race.cost_of(other);
    cost < other_cost || (cost == other_cost && span(one) < span(other))
}

/// The better one of two chips, the first one where both are as good.
fn better(race: Race, best: Option<Candidate>, next: Candidate) -> Candidate {
    match best {
        Some(best) => {
            if is_better(race, &next, &best) {
                next
            } else {
                best
            }
        }
        None => next,
    }
}

/// The best one of the candidates when all are finished that may come to be it.
fn finish_all(
    work: &mut Work,
    race: Race,
    candidates: Vec<Candidate>,
) -> Result<Option<Candidate>, Memory> {
    let mut best: Option<Candidate> = None;
    let most = race.effort.hundredths(work.move_limit, MOST_PLACED);
    for candidate in candidates {
        if candidate.total > most {
            continue;
        }
        work.steps = Steps::new(&race.effort, candidate.chip.count());
        let grown = finish(work, candidate, race.effort)?;
        if grown.total > hundredths_of(&best, MOST_GROWN) {
            continue;
        }
        let next = trim(work, grown, race.effort)?;
        best = Some(better(race, best, next));
    }
    Ok(best)
}

/// Gives constants, and the cells that carry them on, the literals that they show as labels.
fn label_constants(chip: &mut Chip) {
    for cell in 0..chip.count() {
        match chip.kind(cell) {
            CellKind::Zero => put(&mut chip.labels, cell, 0),
            CellKind::One => put(&mut chip.labels, cell, 1),
            _ => {}
        }
    }
    for number in 0..narrow(chip.wires.len()) {
        let wire = chip.wire(number);
        let label = at(&chip.labels, wire.from);
        if label < 2 && !matches!(chip.kind(wire.to), CellKind::Majority) {
            let turns = matches!(chip.kind(wire.to), CellKind::Inverter);
            put(&mut chip.labels, wire.to, turn(label, turns));
        }
    }
}

/// The effort without what seldom makes chips of these trees smaller: splitters pulled down, and many trims.
fn finishing(effort: &Effort) -> Effort {
    let mut effort = *effort;
    effort.pulls = 0;
    effort.trims = effort.trims.min(TRIMS);
    effort
}

/// Searches a draft of a small chip for one of these graphs, which have the same answers. Splitters of three are used
/// where `three` says so, and a wire may move `reach - 1` slots, at least one. Nothing is found where no draft comes near
/// to the cells that the effort allows, or there is no graph. Nothing is promised of a draft that is found: a check takes
/// it or not. The search fails for want of memory alone.
pub fn search(
    alloc: Global,
    graphs: &[Graph],
    three: bool,
    reach: u32,
    effort: &Effort,
) -> Result<Option<Found>, Memory> {
    let effort = finishing(effort);
    let mut work = Work {
        alloc,
        move_limit: reach.saturating_sub(1).max(1),
        steps: Steps::new(&effort, 0),
    };
    let race = Race {
        graphs,
        three,
        effort,
    };
    let racers = {
        let ranked = rank(&work, graphs, three, effort)?;
        racing(alloc, &ranked)?
    };
    let candidates = race.candidates(&mut work, racers, &mut Random::new())?;
    let best = finish_all(&mut work, race, candidates)?;
    let Some(candidate) = best else {
        return Ok(None);
    };
    let mut candidate = candidate;
    label_constants(&mut candidate.chip);
    let draft = make_draft(alloc, &candidate.chip, &candidate.places.slots)?;
    Ok(Some(Found {
        graph: candidate.graph,
        draft,
        missing: candidate.missing,
    }))
}
