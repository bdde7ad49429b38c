// A turn of the search in one graph: its trees are annealed, and their chips are placed from several starts.
use crate::annealing::{HOT, WARM, anneal};
use crate::numbers::{PARTS, Random};
use crate::spectral::{Weight, spectral_line};
use crate::starts::{Arrangement, Start, arrange};
use crate::trees::Trees;
use aq_base::Memory;
use chip_search::candidate::{Candidate, Work};
use chip_search::effort::{Effort, Steps};
use std::alloc::Global;

/// So many moves a node are tried without positions in the first turn, and so many times as many in the next ones.
const MOVES: u64 = 150;

const MOST_TIMES: u64 = 4;

/// So many moves a node are tried with positions.
const NEAR_MOVES: u64 = 20;

/// At most so many moves are tried, without positions and with them.
const MOST_MOVES: u64 = 6_000_000;

const MOST_NEAR_MOVES: u64 = 1_000_000;

/// How far a signal may move in a row of trees that know positions, in hundredths of what a wire may move: at first, at
/// least, and how much less where wires are too long, for a smaller reach leaves more room for the placement.
const FULL_REACH: i32 = 100;

const LEAST_REACH: i32 = 70;

const SHORTER: i32 = 15;

/// So many hundredths more are tried once no wire is too long, since cells can be left out then.
const LONGER: i32 = 8;

/// Trees that know positions are made at most so many times in a turn.
const MOST_TRIES: u32 = 8;

/// A longer reach is tried only for a chip of at most so many hundredths of the cells of the best one.
const MOST_BESIDE: u64 = 103;

/// A first start of more hundredths, missing cells counted, is given up. Other starts, and trees that know positions, may
/// leave out four cells of five.
const MOST_STARTED: u64 = 600;

/// The best one of the starts is given up where it has more hundredths, and so is a chip before it is finished.
pub(crate) const MOST_PLACED: u64 = 200;

/// So many placed chips of a graph are kept: those with the fewest cells, missing ones counted.
const KEPT: usize = 3;

/// How many moves are tried for so many nodes.
fn moves_for(trees: &Trees, each: u64, most: u64) -> u64 {
    u64::from(trees.graph.count())
        .saturating_mul(each)
        .min(most)
}

/// How far a signal may move in a row, at so many hundredths of the limit.
fn reach_at(work: &Work, hundredths: i32) -> i32 {
    let limit = i32::try_from(work.move_limit)
        .unwrap_or(i32::MAX)
        .min(1_000_000);
    limit.saturating_mul(PARTS).saturating_mul(hundredths) / 100
}

/// How far signals may move in a try, in hundredths, and whether some reach before had no wire that was too long.
#[derive(Clone, Copy)]
struct Reach {
    hundredths: i32,
    fits: bool,
}

impl Reach {
    /// That of the first try.
    const FIRST: Reach = Reach {
        hundredths: FULL_REACH,
        fits: false,
    };

    /// The reach of the next try, if there is one: a longer one where no wire was too long and the chip came near to the
    /// best one, a shorter one as long as wires were too long.
    fn after(self, is_short: bool, is_near: bool) -> Option<Reach> {
        let hundredths = match (is_short, self.fits) {
            (true, _) if is_near && self.hundredths < FULL_REACH => {
                self.hundredths.saturating_add(LONGER)
            }
            (false, false) if self.hundredths > LEAST_REACH => {
                self.hundredths.saturating_sub(SHORTER)
            }
            _ => return None,
        };
        Some(Reach {
            hundredths,
            fits: is_short,
        })
    }
}

/// The best placed chips of a graph so far, the best one first.
#[derive(Drop)]
pub(crate) struct Pool {
    pub(crate) candidates: Vec<Candidate>,
}

impl Pool {
    /// No chip yet.
    pub(crate) fn new(alloc: Global) -> Pool {
        Pool {
            candidates: Vec::new(alloc),
        }
    }

    /// The cells of the best one, missing ones counted; the greatest number where there is none.
    pub(crate) fn least(&self) -> u64 {
        match self.candidates.first() {
            Some(best) => best.total,
            None => u64::MAX,
        }
    }

    /// Takes in a candidate, if it is among the best.
    fn offer(&mut self, candidate: Candidate) -> Result<(), Memory> {
        self.candidates.push(candidate)?;
        self.candidates.sort_unstable_by_key(|one| one.total);
        self.candidates.truncate(KEPT);
        Ok(())
    }
}

/// The positions of items in a candidate, and how good that is.
#[derive(Drop)]
struct Known {
    total: u64,
    missing: u64,
    width: u32,
    positions: Vec<i32>,
}

/// What a turn came to.
#[derive(Clone, Copy)]
pub(crate) enum Outcome {
    /// Even the best start is far too large.
    Hopeless,
    /// No wire of the best start is too long, so that the cells of the trees decide.
    Short,
    /// Wires of the best start are too long, so that places decide, which differ much from turn to turn.
    Long,
}

/// A search in one graph.
#[derive(Clone, Copy)]
pub(crate) struct Task {
    pub(crate) graph: usize,
    pub(crate) effort: Effort,
}

impl Task {
    /// So many hundredths of the cells that a chip of use may have.
    fn most(self, work: &Work, hundredths: u64) -> u64 {
        self.effort.hundredths(work.move_limit, hundredths)
    }

    /// Places the chip of trees, offers it, and says where its items stand.
    fn arrange(
        self,
        work: &mut Work,
        trees: &mut Trees,
        start: Start,
        pool: &mut Pool,
    ) -> Result<Known, Memory> {
        let Arrangement {
            candidate,
            positions,
        } = arrange(work, self.graph, trees, start, self.effort)?;
        let known = Known {
            total: candidate.total,
            missing: candidate.missing,
            width: candidate.places.width,
            positions,
        };
        pool.offer(candidate)?;
        Ok(known)
    }

    /// The positions of the best of some starts; of the first one alone where that is hopeless.
    fn start(self, work: &mut Work, trees: &mut Trees, pool: &mut Pool) -> Result<Known, Memory> {
        let mut best = self.arrange(work, trees, Start::Down, pool)?;
        if best.missing == 0 || best.total > self.most(work, MOST_STARTED) {
            return Ok(best);
        }
        let up = self.arrange(work, trees, Start::Up, pool)?;
        if up.total < best.total {
            best = up;
        }
        let width = best.width;
        for weight in [Weight::Uses, Weight::Root] {
            let line = spectral_line(work.alloc, trees, width, weight)?;
            let reach = reach_at(work, 300);
            let mut lined = trees.at_positions(work.alloc, &line, reach)?;
            lined.repair()?;
            if lined.cells()? <= self.most(work, MOST_PLACED) {
                let next = self.arrange(work, &mut lined, Start::Positions, pool)?;
                if next.total < best.total {
                    best = next;
                }
            }
        }
        Ok(best)
    }

    /// The trees at positions, annealed a little; nothing where they have too many cells.
    fn near(
        self,
        work: &Work,
        trees: &Trees,
        positions: &[i32],
        hundredths: i32,
        random: &mut Random,
    ) -> Result<Option<Trees>, Memory> {
        let reach = reach_at(work, hundredths);
        let mut near = trees.at_positions(work.alloc, positions, reach)?;
        near.repair()?;
        near.move_all(3)?;
        if near.cells()? > self.most(work, MOST_PLACED) {
            return Ok(None);
        }
        let moves = moves_for(&near, NEAR_MOVES, MOST_NEAR_MOVES);
        let near = anneal(work.alloc, near, moves, WARM, random)?;
        Ok(Some(near))
    }

    /// Makes trees that know positions, at most some times, from those of the best ones so far: their reach shrinks until
    /// no wire is too long, and then grows again.
    fn approach(
        self,
        work: &mut Work,
        trees: Trees,
        start: Known,
        pool: &mut Pool,
        random: &mut Random,
    ) -> Result<(), Memory> {
        let mut least = u64::MAX;
        let mut trees = trees;
        let mut positions = start.positions;
        let mut reach = Reach::FIRST;
        for _try in 0..MOST_TRIES {
            let Some(near) = self.near(work, &trees, &positions, reach.hundredths, random)? else {
                break;
            };
            let mut near = near;
            let next = self.arrange(work, &mut near, Start::Positions, pool)?;
            let is_near = next.total <= pool.least().saturating_mul(MOST_BESIDE) / 100;
            let is_short = next.missing == 0;
            if next.total < least {
                least = next.total;
                positions = next.positions;
                trees = near;
            }
            match reach.after(is_short, is_near) {
                Some(after) => reach = after,
                None => break,
            }
        }
        Ok(())
    }

    /// A turn: offers placed chips of the graph, from trees that have not been annealed.
    pub(crate) fn run(
        self,
        work: &mut Work,
        trees: Trees,
        turn: u64,
        pool: &mut Pool,
        random: &mut Random,
    ) -> Result<Outcome, Memory> {
        let times = turn.saturating_add(1).min(MOST_TIMES);
        let moves = moves_for(&trees, MOVES.saturating_mul(times), MOST_MOVES);
        let mut trees = anneal(work.alloc, trees, moves, HOT, random)?;
        let cells = u32::try_from(trees.cells()?).unwrap_or(u32::MAX);
        work.steps = Steps::new(&self.effort, cells);
        let start = self.start(work, &mut trees, pool)?;
        if start.total > self.most(work, MOST_PLACED) {
            return Ok(Outcome::Hopeless);
        }
        if start.missing == 0 {
            return Ok(Outcome::Short);
        }
        self.approach(work, trees, start, pool, random)?;
        Ok(Outcome::Long)
    }
}
