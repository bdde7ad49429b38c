// Where the cells of a chip stand at first, and the best of some starts.
use crate::arrays::narrow;
use crate::candidate::{Candidate, Work, better};
use crate::chip::Chip;
use crate::effort::Effort;
use crate::places::Places;
use aq_base::Memory;

/// A first start of more hundredths of the cells that a chip of use may have, missing ones counted, is given up: other
/// starts leave out one cell of ten, and what is done afterwards one of four.
const MOST_STARTED: u64 = 200;

/// A first start is given up after a few sweeps where it has more hundredths missing then.
const MOST_MISSING: u64 = 300;

/// What is known of a chip where its cells are first placed.
#[derive(Clone, Copy)]
pub(crate) struct Hints<'a> {
    /// The place of each node in a line; empty where there is none.
    pub(crate) line: &'a [u32],
    /// The slot that each cell of the last row wants; its place in the row where it has none here.
    pub(crate) outputs: &'a [u32],
    /// How many times what a start led to is settled by means, a little more each time, and settled again.
    pub(crate) turns: u32,
}

/// Where the cells of a chip stand at first.
#[derive(Clone, Copy)]
pub(crate) enum Start<'a> {
    /// By the wires above them, from the last row down. Its cells want these slots.
    Down(&'a [u32]),
    /// By the wires below them, from the first row up.
    Up,
    /// By the places of their nodes in a line.
    Line(&'a [u32]),
    /// In the order of their numbers, from slot 0 on.
    Packed,
}

/// The candidate after its rows were settled by means, the more often the later the turn, and settled again.
pub(crate) fn turn_once(
    work: &mut Work,
    candidate: &Candidate,
    turn: u32,
    effort: Effort,
) -> Result<Candidate, Memory> {
    let mut chip = candidate.chip.copy(work.alloc)?;
    let mut places = candidate.places.copy(work.alloc)?;
    let sweeps = turn.saturating_add(1).saturating_mul(2);
    let sweeps = work.steps.take(chip.count(), sweeps);
    places.smooth(&mut chip, sweeps, effort.matches)?;
    Candidate::settled(work, candidate.graph, chip, places, effort.sweeps, effort)
}

/// The candidate after so many turns, each kept where it is better.
fn take_turns(
    work: &mut Work,
    candidate: Candidate,
    turns: u32,
    effort: Effort,
) -> Result<Candidate, Memory> {
    let mut best = candidate;
    for turn in 0..turns {
        if best.missing == 0 || !work.steps.are_left(best.chip.count()) {
            break;
        }
        let next = turn_once(work, &best, turn, effort)?;
        best = better(best, next);
    }
    Ok(best)
}

/// The chip placed from one start.
pub(crate) fn place_from(
    work: &mut Work,
    graph: usize,
    chip: &Chip,
    start: Start,
    turns: u32,
    effort: Effort,
) -> Result<Candidate, Memory> {
    let mut chip = chip.copy(work.alloc)?;
    let slots = vec![in work.alloc; 0; chip.count() as usize]?;
    let mut places = Places::new(work.alloc, slots, chip.widest(), work.move_limit);
    places.plants = effort.plants;
    places.most_missing = effort.hundredths(work.move_limit, MOST_MISSING);
    match start {
        Start::Down(outputs) => places.start_down(&chip, outputs)?,
        Start::Up => places.start_up(&chip)?,
        Start::Line(line) => places.start_by(&chip, line, narrow(line.len()))?,
        Start::Packed => places.start_packed(&chip),
    }
    let smooth_sweeps = work.steps.take(chip.count(), effort.smooth_sweeps);
    places.smooth(&mut chip, smooth_sweeps, effort.matches)?;
    let settled = Candidate::settled(work, graph, chip, places, effort.sweeps, effort)?;
    take_turns(work, settled, turns, effort)
}

/// The chip with the best of some starts; the first one alone where that is hopeless.
fn place_once(
    work: &mut Work,
    graph: usize,
    chip: &Chip,
    hints: &Hints,
    effort: Effort,
) -> Result<Candidate, Memory> {
    let turns = hints.turns;
    let down = Start::Down(hints.outputs);
    let mut best = place_from(work, graph, chip, down, turns, effort)?;
    if best.total > effort.hundredths(work.move_limit, MOST_STARTED) {
        return Ok(best);
    }
    if best.missing > 0 {
        let up = place_from(work, graph, chip, Start::Up, turns, effort)?;
        best = better(best, up);
    }
    if best.missing > 0 && !hints.line.is_empty() {
        let line = Start::Line(hints.line);
        let lined = place_from(work, graph, chip, line, turns, effort)?;
        best = better(best, lined);
    }
    Ok(best)
}

/// The chip with its cells packed in the order of their numbers, and settled from there where wires move too far.
pub(crate) fn place_packed(
    work: &mut Work,
    graph: usize,
    chip: &Chip,
    turns: u32,
    effort: Effort,
) -> Result<Candidate, Memory> {
    let mut sharp = effort;
    sharp.smooth_sweeps = 0;
    place_from(work, graph, chip, Start::Packed, turns, sharp)
}

/// The chip with the best of some starts, and of the same with means first.
pub(crate) fn place(
    work: &mut Work,
    graph: usize,
    chip: &Chip,
    hints: &Hints,
    effort: Effort,
) -> Result<Candidate, Memory> {
    let mut sharp = effort;
    sharp.smooth_sweeps = 0;
    let first = place_once(work, graph, chip, hints, sharp)?;
    let most = effort.hundredths(work.move_limit, MOST_STARTED);
    if first.missing == 0 || first.total > most || effort.smooth_sweeps == 0 {
        return Ok(first);
    }
    let second = place_once(work, graph, chip, hints, effort)?;
    Ok(better(first, second))
}
