// Annealing of rows and signs (Metropolis): a move that adds cells is made the more seldom the colder it is.
use crate::moves::operand_nodes;
use crate::numbers::{Random, falling_power, item};
use crate::trees::Trees;
use aq_base::Memory;
use chip_search::arrays::put;
use std::alloc::Global;

/// A majority of which an operand has more uses is not moved.
const MANY_OPERAND_USES: usize = 200;

/// A majority with more uses is not moved.
const MANY_USES: usize = 2_000;

/// The binary logarithms of the temperatures at the end, 0.05, and at the start, 3 and 1, 65,536 times as large.
const COLD: i64 = -283_241;

pub(crate) const HOT: i64 = 103_873;

pub(crate) const WARM: i64 = 0;

/// The binary logarithm of e, 65,536 times as large.
const LOG_E: u64 = 94_548;

/// The temperature is the same for so many moves.
const STEADY: u64 = 64;

/// What annealing works on: the cells of each node's tree, and the best state so far.
#[derive(Drop)]
struct Annealing {
    trees: Trees,
    costs: Vec<u64>,
    total: u64,
    best: u64,
    best_depths: Vec<u32>,
    best_literals: Vec<u32>,
    best_shown: Vec<u32>,
    /// The binary logarithm of e divided by the temperature, 65,536 times as large.
    slope: u64,
}

/// A move: where a majority is to stand, and whether it is turned.
#[derive(Clone, Copy)]
struct Move {
    majority: u32,
    depth: u32,
    turns: bool,
}

/// The logarithm of e divided by the temperature after so many moves of all, 65,536 times as large.
fn slope_after(start: i64, done: u64, moves: u64) -> u64 {
    let share = (done.saturating_mul(65_536))
        .checked_div(moves)
        .unwrap_or(0)
        .min(65_536);
    let share = i64::try_from(share).unwrap_or(0);
    let fall = start.saturating_sub(COLD).saturating_mul(share) / 65_536;
    // 2^-e is computed as 32 times 2^-(e + 5), since e is never below -5.
    let exponent = start.saturating_sub(fall).saturating_add(327_680);
    let power = falling_power(u64::try_from(exponent).unwrap_or(0));
    power.saturating_mul(LOG_E) >> 26
}

/// A random move of some majority.
fn random_move(trees: &Trees, random: &mut Random) -> Move {
    let majority = trees
        .graph
        .first()
        .saturating_add(random.below(trees.graph.majorities));
    let depth = trees.depth(majority);
    let kind = random.below(10);
    if kind < 8 {
        let up = random.below(2) == 0;
        let more = if random.below(4) == 0 {
            random.below(3)
        } else {
            0
        };
        let rows = more.saturating_add(1);
        let depth = if up {
            depth.saturating_sub(rows)
        } else {
            depth.saturating_add(rows)
        };
        return Move {
            majority,
            depth,
            turns: false,
        };
    }
    let depth = if kind == 9 {
        depth.saturating_add(random.below(3)).saturating_sub(1)
    } else {
        depth
    };
    Move {
        majority,
        depth,
        turns: true,
    }
}

impl Annealing {
    /// Copies the state as the best one.
    fn keep(&mut self) -> Result<(), Memory> {
        self.best = self.total;
        self.best_depths.clear();
        self.best_depths.extend_from_slice(&self.trees.depths)?;
        self.best_literals.clear();
        self.best_literals
            .extend_from_slice(&self.trees.graph.literals)?;
        self.best_shown.clear();
        self.best_shown.extend_from_slice(&self.trees.graph.shown)?;
        Ok(())
    }

    /// Whether a majority may stand there: above its operands, none of which has very many uses.
    fn may_move(&self, one: Move, nodes: [u32; 3]) -> bool {
        let mut may = one.depth > 0 && self.trees.graph.uses(one.majority).len() <= MANY_USES;
        for node in nodes {
            if node > 0 {
                may &= self.trees.depth(node) > one.depth;
                may &= self.trees.graph.uses(node).len() <= MANY_OPERAND_USES;
            }
        }
        may
    }

    /// The cells of four trees; nothing where one has no room.
    fn new_costs(&mut self, nodes: [u32; 4]) -> Result<Option<[u64; 4]>, Memory> {
        let [a, b, c, d] = nodes;
        let Some(a) = self.trees.cost(a)? else {
            return Ok(None)
        };
        let Some(b) = self.trees.cost(b)? else {
            return Ok(None)
        };
        let Some(c) = self.trees.cost(c)? else {
            return Ok(None)
        };
        let Some(d) = self.trees.cost(d)? else {
            return Ok(None)
        };
        Ok(Some([a, b, c, d]))
    }

    /// Whether so many cells more are accepted at this temperature.
    fn accepts(&self, more: u64, random: &mut Random) -> bool {
        let chance = falling_power(more.saturating_mul(self.slope)).saturating_mul(2);
        chance > u64::from(random.next())
    }

    /// Tries a move: it is made or not.
    fn attempt(&mut self, one: Move, random: &mut Random) -> Result<(), Memory> {
        let [x, y, z] = operand_nodes(self.trees.graph.operands(one.majority));
        let old = self.trees.depth(one.majority);
        if (one.depth == old && !one.turns) || !self.may_move(one, [x, y, z]) {
            return Ok(());
        }
        let nodes = [one.majority, x, y, z];
        let mut before: u64 = 0;
        for node in nodes {
            before = before.saturating_add(item(&self.costs, node, 0));
        }
        put(&mut self.trees.depths, one.majority, one.depth);
        if one.turns {
            self.trees.graph.flip(one.majority);
        }
        if let Some(costs) = self.new_costs(nodes)? {
            let [a, b, c, d] = costs;
            let after = a.saturating_add(b).saturating_add(c).saturating_add(d);
            if after <= before || self.accepts(after.saturating_sub(before), random) {
                self.total = self.total.saturating_add(after).saturating_sub(before);
                for (node, cost) in nodes.iter().zip(&costs) {
                    put(&mut self.costs, *node, *cost);
                }
                return Ok(());
            }
        }
        put(&mut self.trees.depths, one.majority, old);
        if one.turns {
            self.trees.graph.flip(one.majority);
        }
        Ok(())
    }
}

/// The cells of each node's tree, and their sum.
fn all_costs(alloc: Global, trees: &mut Trees) -> Result<(Vec<u64>, u64), Memory> {
    let mut costs = Vec::with_capacity(alloc, trees.graph.count() as usize)?;
    let mut total: u64 = 0;
    for node in 0..trees.graph.count() {
        let cost = trees.cost(node)?.unwrap_or(0);
        total = total.saturating_add(cost);
        costs.push(cost)?;
    }
    Ok((costs, total))
}

/// Moves and turns majorities by so many random moves, from a temperature at the start, of which the logarithm is
/// given, to the one at the end. The best state is kept.
pub(crate) fn anneal(
    alloc: Global,
    trees: Trees,
    moves: u64,
    start: i64,
    random: &mut Random,
) -> Result<Trees, Memory> {
    let mut trees = trees;
    let (costs, total) = all_costs(alloc, &mut trees)?;
    let every = u64::from(trees.graph.count()).max(1_024);
    let mut annealing = Annealing {
        trees,
        costs,
        total,
        best: total,
        best_depths: Vec::new(alloc),
        best_literals: Vec::new(alloc),
        best_shown: Vec::new(alloc),
        slope: 0,
    };
    annealing.keep()?;
    for done in 0..moves {
        if done % STEADY == 0 {
            annealing.slope = slope_after(start, done, moves);
        }
        let one = random_move(&annealing.trees, random);
        annealing.attempt(one, random)?;
        let is_look = done.checked_rem(every).unwrap_or(1) == 0;
        if is_look && annealing.total < annealing.best {
            annealing.keep()?;
        }
    }
    if annealing.total < annealing.best {
        annealing.keep()?;
    }
    let Annealing {
        trees,
        best_depths,
        best_literals,
        best_shown,
        ..
    } = annealing;
    let mut trees = trees;
    trees.depths = best_depths;
    trees.graph.literals = best_literals;
    trees.graph.shown = best_shown;
    Ok(trees)
}
