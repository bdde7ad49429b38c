// What is done to a chip in which wires move too far: rows are added, splitters pulled down, rows of buffers left out.
use crate::added::{add_rows, shared_rows, unplaced, wanted_rows};
use crate::candidate::{Candidate, Work, better};
use crate::effort::{Effort, SHORT_LIMIT, Steps};
use crate::pulling::pull_down;
use crate::sparing::spare;
use crate::trimming::drop_rows;
use crate::weaving::woven_rows;
use aq_base::Memory;
use rowed::limits::CELL_LIMIT;

/// A placed chip of more hundredths of the cells that one of use may have, missing ones counted, is given up: what is
/// done to it afterwards never leaves out two cells of three.
const MOST_PLACED: u64 = 300;

/// Splitters are pulled down, and rows left out, until so many tries one after the other took no cells away.
const IDLE_TURNS: u32 = 4;

/// So many cells are woven at most.
const MOST_WOVEN: u64 = 500_000;

/// Rows are left out and added so often between two searches for exact slots.
const SPARE_TRIMS: u32 = 4;

/// How many tries gained nothing, where so many did not before this one.
fn idle_turns(idle: u32, gains: bool) -> u32 {
    if gains { 0 } else { idle.saturating_add(1) }
}

/// The candidate with splitters pulled down where wires move too far, as far as that takes cells away.
fn pull(work: &mut Work, candidate: Candidate, effort: Effort) -> Result<Candidate, Memory> {
    let mut best = candidate;
    let mut idle: u32 = 0;
    let mut pulled = pull_down(work.alloc, &best.chip, &best.places)?;
    for _ in 0..effort.pulls {
        if idle >= IDLE_TURNS || !work.steps.are_left(best.chip.count()) {
            break;
        }
        let Some((chip, places)) = pulled else {
            break;
        };
        let next = Candidate::settled(work, best.graph, chip, places, effort.pull_sweeps, effort)?;
        pulled = pull_down(work.alloc, &next.chip, &next.places)?;
        idle = idle_turns(idle, next.total < best.total);
        best = better(best, next);
    }
    Ok(best)
}

/// The candidate with more rows, which channels side by side share or not.
fn add(
    work: &mut Work,
    candidate: &Candidate,
    shares: bool,
    effort: Effort,
) -> Result<Candidate, Memory> {
    let (counts, sweeps) = if shares {
        let counts = shared_rows(work.alloc, &candidate.chip, &candidate.places)?;
        (counts, effort.shared_sweeps)
    } else {
        let counts = wanted_rows(work.alloc, &candidate.chip, &candidate.places)?;
        (counts, effort.round_sweeps)
    };
    let added = unplaced(work.alloc, counts);
    let (chip, places) = add_rows(work.alloc, &candidate.chip, &candidate.places, &added)?;
    Candidate::settled(work, candidate.graph, chip, places, sweeps, effort)
}

/// The candidate with added rows, while wires move too far, some rounds and steps are left, and there are at most so
/// many cells.
fn grow(
    work: &mut Work,
    candidate: Candidate,
    most: u64,
    effort: Effort,
) -> Result<Candidate, Memory> {
    let mut candidate = candidate;
    for round in 0..effort.shared_rounds.saturating_add(effort.rounds) {
        let is_done = candidate.missing == 0 || candidate.total > most;
        if is_done || !work.steps.are_left(candidate.chip.count()) {
            break;
        }
        candidate = add(work, &candidate, round < effort.shared_rounds, effort)?;
    }
    Ok(candidate)
}

/// The candidate with added rows, by the better of two ways to add them.
fn grow_twice(
    work: &mut Work,
    candidate: Candidate,
    most: u64,
    effort: Effort,
) -> Result<Candidate, Memory> {
    if candidate.missing == 0 || effort.shared_rounds == 0 {
        return grow(work, candidate, most, effort);
    }
    let mut apart = effort;
    apart.shared_rounds = 0;
    let copy = candidate.copy(work.alloc)?;
    let first = grow(work, copy, most, apart)?;
    let second = grow(work, candidate, most, effort)?;
    Ok(better(first, second))
}

/// The candidate with added rows, splitters pulled down before where that is better.
fn grow_pulled(
    work: &mut Work,
    candidate: Candidate,
    most: u64,
    effort: Effort,
) -> Result<Candidate, Memory> {
    if candidate.missing == 0 || effort.pulls == 0 || candidate.total > most {
        return grow_twice(work, candidate, most, effort);
    }
    let copy = candidate.copy(work.alloc)?;
    let first = grow_twice(work, copy, most, effort)?;
    let pulled = pull(work, candidate, effort)?;
    let second = grow_twice(work, pulled, most, effort)?;
    Ok(better(first, second))
}

/// The candidate with rows that are woven, in steps of their own, and then left out where they can be. Nothing where
/// they are too many.
fn woven(
    work: &mut Work,
    candidate: &Candidate,
    effort: Effort,
) -> Result<Option<Candidate>, Memory> {
    let Some(added) = woven_rows(work.alloc, &candidate.chip, &candidate.places, MOST_WOVEN)? else {
        return Ok(None);
    };
    let (chip, places) = add_rows(work.alloc, &candidate.chip, &candidate.places, &added)?;
    work.steps = Steps::new(&effort, candidate.chip.count());
    let woven = Candidate::of(candidate.graph, chip, places);
    Ok(Some(trim_often(work, woven, effort.trims, effort)?))
}

/// The better of a candidate whose rows are grown and one whose rows are woven. It is one whose wires do not move too
/// far, if there is one.
fn better_of(grown: Candidate, woven: Candidate) -> Candidate {
    if grown.missing > 0 && woven.missing == 0 {
        woven
    } else if woven.missing > 0 && grown.missing == 0 {
        grown
    } else {
        better(woven, grown)
    }
}

/// The candidate with woven rows. Where wires may move more than a slot others are tried too, while they are not many
/// more: else those that are wanted do not end.
fn finish_short(
    work: &mut Work,
    candidate: Candidate,
    effort: Effort,
) -> Result<Candidate, Memory> {
    let Some(woven) = woven(work, &candidate, effort)? else {
        return grow_pulled(work, candidate, CELL_LIMIT, effort);
    };
    let is_done = woven.missing == 0;
    if is_done && candidate.places.move_limit == 1 {
        return Ok(woven);
    }
    let most = if is_done {
        woven.total.saturating_mul(2)
    } else {
        CELL_LIMIT
    };
    let left = work.steps;
    work.steps = Steps::new(&effort, candidate.chip.count());
    let grown = grow_pulled(work, candidate, most, effort)?;
    let grown = trim_often(work, grown, effort.trims, effort)?;
    work.steps = left;
    Ok(better_of(grown, woven))
}

/// The candidate with added rows: woven ones too where wires may move little or rows that are wanted are not enough.
pub fn finish(work: &mut Work, candidate: Candidate, effort: Effort) -> Result<Candidate, Memory> {
    if candidate.total > effort.hundredths(work.move_limit, MOST_PLACED) {
        return Ok(candidate);
    }
    if candidate.missing == 0 || !effort.weaves {
        return grow_pulled(work, candidate, CELL_LIMIT, effort);
    }
    if candidate.places.move_limit < SHORT_LIMIT {
        return finish_short(work, candidate, effort);
    }
    let copy = candidate.copy(work.alloc)?;
    let grown = grow_pulled(work, copy, CELL_LIMIT, effort)?;
    if grown.missing == 0 {
        return Ok(grown);
    }
    match woven(work, &candidate, effort)? {
        Some(woven) => Ok(better_of(grown, woven)),
        None => Ok(grown),
    }
}

/// The candidate with some rows of buffers left out, and others added where they are wanted then.
fn trim_once(
    work: &mut Work,
    candidate: &Candidate,
    turn: u32,
    effort: Effort,
) -> Result<Candidate, Memory> {
    let mut short = effort;
    short.shared_rounds = 0;
    short.rounds = 2;
    let limit = candidate.places.move_limit;
    let more = (limit / 2).saturating_mul(turn % 4);
    let limit = limit.saturating_add(more);
    let (chip, places) = drop_rows(work.alloc, &candidate.chip, &candidate.places, turn, limit)?;
    let trimmed = Candidate::settled(
        work,
        candidate.graph,
        chip,
        places,
        effort.round_sweeps,
        effort,
    )?;
    grow(work, trimmed, CELL_LIMIT, short)
}

/// The candidate with some rows of buffers left out and others added so often, as far as that takes cells away.
fn trim_often(
    work: &mut Work,
    candidate: Candidate,
    turns: u32,
    effort: Effort,
) -> Result<Candidate, Memory> {
    let mut best = candidate;
    let mut idle: u32 = 0;
    for turn in 0..turns {
        if idle >= IDLE_TURNS || !work.steps.are_left(best.chip.count()) {
            break;
        }
        let next = trim_once(work, &best, turn, effort)?;
        idle = idle_turns(idle, next.missing == 0 && next.total < best.total);
        if next.missing == 0 {
            best = better(best, next);
        }
    }
    Ok(best)
}

/// The candidate with rows of buffers left out, as far as that takes cells away: some of them left out and others
/// added, then those that the orders of cells do not need, by turns.
pub fn trim(work: &mut Work, candidate: Candidate, effort: Effort) -> Result<Candidate, Memory> {
    if candidate.total > effort.hundredths(work.move_limit, MOST_PLACED) {
        return Ok(candidate);
    }
    let mut best = trim_often(work, candidate, effort.trims, effort)?;
    for turn in 0..effort.spares {
        if turn > 0 {
            let total = best.total;
            best = trim_often(work, best, SPARE_TRIMS, effort)?;
            if best.total == total {
                break;
            }
        }
        best = spare(work, best)?;
    }
    Ok(best)
}
