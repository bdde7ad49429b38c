// The race of graphs: the best ones by their trees have a turn each, and the fewer are left the more turns they have.
use crate::numbers::Random;
use crate::ranking::{Ranked, cost, trees_of};
use crate::task::{MOST_PLACED, Outcome, Pool, Task};
use aq_base::Memory;
use chip_search::candidate::{Candidate, Work};
use chip_search::effort::Effort;
use mig::Graph;
use std::alloc::Global;

/// So many graphs race, or as many as come up to so many cells in all, but at least so many. Of large ones more race: they
/// have few turns, and their trees tell less of their chips.
const MOST_RACERS: u64 = 6;

const MOST_LARGE_RACERS: u64 = 9;

const LARGE: u64 = 5_000;

const RACING_CELLS: u64 = 250_000;

const LEAST_RACERS: u64 = 2;

/// A graph races if its trees cost at most so many hundredths of what the best ones do.
const MOST_BEHIND: u64 = 112;

/// After the first turn so many graphs, the best ones then, go on until they had such a part of their turns.
const ROUNDS: [(usize, u64); 3] = [(4, 4), (2, 2), (1, 1)];

/// A graph goes on no longer once so many of its turns, one after the other, gained nothing.
const MOST_IDLE: u64 = 5;

/// The chips of so many graphs are finished.
const FINALISTS: usize = 2;

/// A graph has as many turns as its cells come up to so many in all, but at most so many. They are fewer where wires are
/// short, since its trees come out much alike then.
const TURNED_CELLS: u64 = 20_000;

const MOST_TURNS: u64 = 16;

const MOST_SHORT_TURNS: u64 = 8;

/// It has so many turns at least, or as many as its cells come up to so many in all: one turn of a large graph may come to
/// half as many cells again as another one.
const LEAST_TURNS: u64 = 4;

const LEAST_TURNED_CELLS: u64 = 80_000;

/// A graph that races.
#[derive(Drop)]
pub(crate) struct Racer {
    graph: usize,
    /// How many cells and majorities its trees have before they are annealed.
    cells: u64,
    nodes: usize,
    /// Its best placed chips, and what the best one costs.
    pool: Pool,
    cost: u64,
    /// How many turns it may have, how many it had, and how many of the last ones gained nothing.
    turns: u64,
    had: u64,
    idle: u64,
}

/// What races: graphs of the same answers, whether splitters of three are used, and how much work is done.
#[derive(Clone, Copy)]
pub(crate) struct Race<'a> {
    pub(crate) graphs: &'a [Graph],
    pub(crate) three: bool,
    pub(crate) effort: Effort,
}

/// How often so many cells come up to a number of cells in all, within bounds.
fn times(in_all: u64, cells: u64, least: u64, most: u64) -> u64 {
    in_all
        .checked_div(cells)
        .unwrap_or(most)
        .max(least)
        .min(most)
}

/// How many graphs race, by the cells of the best one's trees.
fn racers_of(cells: u64) -> u64 {
    let most = if cells > LARGE {
        MOST_LARGE_RACERS
    } else {
        MOST_RACERS
    };
    times(RACING_CELLS, cells, LEAST_RACERS, most)
}

/// How many turns a graph may have whose trees have so many cells, with a bound by how long its wires are.
fn turns_of(cells: u64, most: u64) -> u64 {
    let least = times(LEAST_TURNED_CELLS, cells, 1, LEAST_TURNS);
    times(TURNED_CELLS, cells, least, most)
}

/// Whether a graph with as many cells and majorities races: then it is most often the same graph.
fn is_there(racers: &[Racer], one: &Ranked) -> bool {
    for racer in racers {
        if racer.cells == one.cells && racer.nodes == one.nodes {
            return true;
        }
    }
    false
}

/// The graphs that race, of those that were ranked.
pub(crate) fn racing(alloc: Global, ranked: &[Ranked]) -> Result<Vec<Racer>, Memory> {
    let mut racers = Vec::new(alloc);
    let Some(first) = ranked.first() else {
        return Ok(racers);
    };
    let most = first.cost.saturating_mul(MOST_BEHIND) / 100;
    let count = racers_of(first.cells);
    for one in ranked {
        let has_room = (racers.len() as u64) < count;
        if has_room && one.cost <= most && !is_there(&racers, one) {
            racers.push(Racer {
                graph: one.graph,
                cells: one.cells,
                nodes: one.nodes,
                pool: Pool::new(alloc),
                cost: u64::MAX,
                turns: 0,
                had: 0,
                idle: 0,
            })?;
        }
    }
    Ok(racers)
}

impl<'a> Race<'a> {
    /// The next turn of a racer, and what it came to.
    fn turn(
        self,
        work: &mut Work,
        racer: &mut Racer,
        random: &mut Random,
    ) -> Result<Outcome, Memory> {
        let Some(graph) = self.graphs.get(racer.graph) else {
            return Ok(Outcome::Hopeless);
        };
        let task = Task {
            graph: racer.graph,
            effort: self.effort,
        };
        let trees = trees_of(work.alloc, graph, self.three)?;
        let outcome = task.run(work, trees, racer.had, &mut racer.pool, random)?;
        let cost = cost(graph, racer.pool.least());
        racer.idle = if cost < racer.cost {
            0
        } else {
            racer.idle.saturating_add(1)
        };
        racer.cost = cost;
        racer.had = racer.had.saturating_add(1);
        Ok(outcome)
    }

    /// The first turn of each racer, as long as one isn't hopeless: the next ones would be so too.
    fn first_turns(
        self,
        work: &mut Work,
        racers: &mut [Racer],
        random: &mut Random,
    ) -> Result<(), Memory> {
        for racer in racers.iter_mut() {
            let most = match self.turn(work, racer, random)? {
                Outcome::Hopeless => break,
                Outcome::Short => MOST_SHORT_TURNS,
                Outcome::Long => MOST_TURNS,
            };
            racer.turns = turns_of(racer.cells, most);
        }
        Ok(())
    }

    /// The turns of a racer until it had such a part of them, or they gain nothing any more.
    fn further_turns(
        self,
        work: &mut Work,
        racer: &mut Racer,
        part: u64,
        random: &mut Random,
    ) -> Result<(), Memory> {
        let end = racer.turns.checked_div(part).unwrap_or(0);
        for _turn in racer.had..end {
            if racer.idle >= MOST_IDLE {
                break;
            }
            self.turn(work, racer, random)?;
        }
        Ok(())
    }

    /// All turns of the racers, of which only the finalists are left then, the best one first.
    fn run(
        self,
        work: &mut Work,
        racers: &mut Vec<Racer>,
        random: &mut Random,
    ) -> Result<(), Memory> {
        self.first_turns(work, racers, random)?;
        for (count, part) in ROUNDS {
            racers.sort_unstable_by_key(|one| one.cost);
            for racer in racers.iter_mut().take(count) {
                self.further_turns(work, racer, part, random)?;
            }
        }
        racers.sort_unstable_by_key(|one| one.cost);
        racers.truncate(FINALISTS);
        Ok(())
    }

    /// The placed chips of the finalists.
    pub(crate) fn candidates(
        self,
        work: &mut Work,
        racers: Vec<Racer>,
        random: &mut Random,
    ) -> Result<Vec<Candidate>, Memory> {
        let mut racers = racers;
        self.run(work, &mut racers, random)?;
        let mut candidates = Vec::new(work.alloc);
        for racer in racers {
            for candidate in racer.pool.candidates {
                candidates.push(candidate)?;
            }
        }
        Ok(candidates)
    }

    /// What a candidate costs, missing cells counted.
    pub(crate) fn cost_of(self, candidate: &Candidate) -> u64 {
        match self.graphs.get(candidate.graph) {
            Some(graph) => cost(graph, candidate.total),
            None => u64::MAX,
        }
    }
}
