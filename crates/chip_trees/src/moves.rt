// Majorities that are moved up and down, as far as that takes cells away.
use crate::trees::{MOST_ROWS, Trees};
use aq_base::Memory;
use chip_search::arrays::put;

/// A majority of which an operand has more uses is not moved.
const MANY_USES: usize = 40;

/// The nodes of a majority's operands: each once, and 0 where there is none.
pub(crate) fn operand_nodes(literals: [u32; 3]) -> [u32; 3] {
    let [x, y, z] = literals;
    let x = x / 2;
    let y = if y / 2 == x { 0 } else { y / 2 };
    let z = if z / 2 == x || z / 2 == y { 0 } else { z / 2 };
    [x, y, z]
}

/// The depths in which a majority may stand, and the best one so far.
#[derive(Clone, Copy)]
struct Choice {
    highest: u32,
    lowest: u32,
    best: u32,
    least: u64,
}

impl Trees {
    /// Whether an operand has many uses, and the greatest depth above all operands.
    fn room_below(&self, nodes: [u32; 3]) -> (bool, u32) {
        let mut many = false;
        let mut lowest = MOST_ROWS;
        for node in nodes {
            if node > 0 {
                many |= self.graph.uses(node).len() > MANY_USES;
                lowest = lowest.min(self.depth(node).saturating_sub(1));
            }
        }
        (many, lowest)
    }

    /// How many cells the operands' trees have; nothing where one stands too high.
    fn cost_of(&mut self, nodes: [u32; 3]) -> Result<Option<u64>, Memory> {
        let mut sum: u64 = 0;
        for node in nodes {
            if node > 0 {
                match self.cost(node)? {
                    Some(cost) => sum = sum.saturating_add(cost),
                    None => return Ok(None),
                }
            }
        }
        Ok(Some(sum))
    }

    /// Takes a depth for a majority, if it is better.
    fn try_depth(
        &mut self,
        majority: u32,
        nodes: [u32; 3],
        depth: u32,
        choice: &mut Choice,
    ) -> Result<(), Memory> {
        if depth < choice.highest || depth > choice.lowest {
            return Ok(());
        }
        put(&mut self.depths, majority, depth);
        if let Some(cost) = self.cost_of(nodes)? {
            let sum = cost.saturating_add(u64::from(depth.saturating_sub(choice.highest)));
            if sum < choice.least || (sum == choice.least && depth > choice.best) {
                choice.least = sum;
                choice.best = depth;
            }
        }
        Ok(())
    }

    /// Moves a majority where it is best; whether it was moved.
    fn move_one(&mut self, majority: u32) -> Result<bool, Memory> {
        let nodes = operand_nodes(self.graph.operands(majority));
        let (many, lowest) = self.room_below(nodes);
        if many || nodes == [0, 0, 0] {
            return Ok(false);
        }
        let old = self.depth(majority);
        let Some(walked) = self.walk(majority, MOST_ROWS)? else {
            return Ok(false);
        };
        let highest = walked.depth;
        let mut choice = Choice {
            highest,
            lowest,
            best: old,
            least: u64::MAX,
        };
        self.try_depth(majority, nodes, old, &mut choice)?;
        self.try_depth(majority, nodes, highest, &mut choice)?;
        for up in 0..4 {
            let depth = lowest.saturating_sub(up).max(highest);
            self.try_depth(majority, nodes, depth, &mut choice)?;
        }
        let above = old.saturating_sub(1).max(highest);
        self.try_depth(majority, nodes, above, &mut choice)?;
        self.try_depth(majority, nodes, old.saturating_add(1), &mut choice)?;
        put(&mut self.depths, majority, choice.best);
        Ok(choice.best != old)
    }

    /// Moves each majority where it is best, from the first to the last or from the last to the first; whether one was
    /// moved.
    fn move_each(&mut self, up: bool) -> Result<bool, Memory> {
        let mut moved = false;
        let first = self.graph.first();
        for turn in 0..self.graph.majorities {
            let number = if up {
                turn
            } else {
                self.graph.majorities.saturating_sub(1).saturating_sub(turn)
            };
            moved |= self.move_one(first.saturating_add(number))?;
        }
        Ok(moved)
    }

    /// Moves the majorities so many times, or until none is moved.
    pub(crate) fn move_all(&mut self, times: u32) -> Result<(), Memory> {
        for turn in 0..times {
            if !self.move_each(turn % 2 == 0)? {
                break;
            }
        }
        Ok(())
    }
}
