// How often nodes of a graph that grows are read. Nothing depends on it but which nodes there are.
use aq_base::Memory;
use mig::{Builder, Node};
use std::alloc::Global;

/// How many readers each node has. A majority without readers is not read by its outputs' graph, and reads no other.
#[derive(Drop)]
pub struct Readers {
    counts: Vec<u32>,
    alive: u64,
}

/// The operands of a node, if it is a majority.
fn operands_of(builder: &Builder, node: u32) -> Option<Node> {
    builder.operands(node.saturating_mul(2))
}

impl Readers {
    /// Those of no node.
    pub fn new(alloc: Global) -> Readers {
        Readers {
            counts: Vec::new(alloc),
            alive: 0,
        }
    }

    /// Takes in the nodes that are new.
    pub fn grow(&mut self, builder: &Builder) -> Result<(), Memory> {
        let first = (builder.inputs() as usize).saturating_add(1);
        let total = first.saturating_add(builder.node_count());
        for _node in self.counts.len()..total {
            self.counts.push(0)?;
        }
        Ok(())
    }

    /// How many readers a node has.
    pub fn count(&self, node: u32) -> u32 {
        self.counts.get(node as usize).copied().unwrap_or(0)
    }

    /// How many majorities have readers.
    pub fn alive(&self) -> u64 {
        self.alive
    }

    /// More readers of a node, which is told where it had none.
    fn gain(&mut self, node: u32, more: u32, woken: &mut Vec<u32>) -> Result<(), Memory> {
        let at = node as usize;
        if at < self.counts.len() && more > 0 {
            if self.counts[at] == 0 {
                woken.push(node)?;
            }
            self.counts[at] = self.counts[at].saturating_add(more);
        }
        Ok(())
    }

    /// One reader of a node less, which is told where that was the last one.
    fn lose(&mut self, node: u32, left: &mut Vec<u32>) -> Result<(), Memory> {
        let at = node as usize;
        if at < self.counts.len() && self.counts[at] > 0 {
            self.counts[at] = self.counts[at].saturating_sub(1);
            if self.counts[at] == 0 {
                left.push(node)?;
            }
        }
        Ok(())
    }

    /// So many more readers of a node. Where it had none, it reads its operands from now on.
    pub fn hold(
        &mut self,
        alloc: Global,
        builder: &Builder,
        node: u32,
        more: u32,
    ) -> Result<(), Memory> {
        let mut woken = Vec::new(alloc);
        self.gain(node, more, &mut woken)?;
        for turn in 0..self.counts.len() {
            let Some(next) = woken.get(turn).copied() else {
                return Ok(());
            };
            if let Some(operands) = operands_of(builder, next) {
                self.alive = self.alive.saturating_add(1);
                self.gain(operands.x / 2, 1, &mut woken)?;
                self.gain(operands.y / 2, 1, &mut woken)?;
                self.gain(operands.z / 2, 1, &mut woken)?;
            }
        }
        Ok(())
    }

    /// One reader of a node less. Where that was the last one, it reads its operands no more.
    pub fn release(&mut self, alloc: Global, builder: &Builder, node: u32) -> Result<(), Memory> {
        let mut left = Vec::new(alloc);
        self.lose(node, &mut left)?;
        for turn in 0..self.counts.len() {
            let Some(next) = left.get(turn).copied() else {
                return Ok(());
            };
            if let Some(operands) = operands_of(builder, next) {
                self.alive = self.alive.saturating_sub(1);
                self.lose(operands.x / 2, &mut left)?;
                self.lose(operands.y / 2, &mut left)?;
                self.lose(operands.z / 2, &mut left)?;
            }
        }
        Ok(())
    }
}
