// A node that may get another form.
use crate::replacement::Replacement;
use crate::ties::{Best, Ties};
use crate::trial::Trial;
use crate::uses::majority_of;
use aq_base::Memory;
use mig::{Builder, Graph};
use std::alloc::Global;

/// What chooses other forms of nodes. Nothing depends on it but which nodes there are.
pub trait Chooser {
    /// The replacement of a node, if one is worth it.
    fn choose(&mut self, site: &Site) -> Result<Option<Replacement>, Memory>;
}

/// The node of a literal is required at a level, or at an earlier one.
fn require(required: &mut Vec<u32>, literal: u32, level: u32) {
    let number = (literal / 2) as usize;
    if number < required.len() {
        required[number] = level.min(required[number]);
    }
}

/// The level at which each node is required: outputs at the depth, and operands a level before their node.
pub fn required_levels(alloc: Global, graph: &Graph) -> Result<Vec<u32>, Memory> {
    let depth = graph.depth(alloc)?;
    let first = (graph.inputs() as usize).saturating_add(1);
    let total = first.saturating_add(graph.node_count());
    let mut required = vec![in alloc; u32::MAX; total]?;
    for output in graph.outputs() {
        require(&mut required, *output, depth);
    }
    let mut number = total;
    for node in graph.nodes().iter().rev() {
        number = number.saturating_sub(1);
        let level = required.get(number).copied().unwrap_or(0).saturating_sub(1);
        require(&mut required, node.x, level);
        require(&mut required, node.y, level);
        require(&mut required, node.z, level);
    }
    Ok(required)
}

/// A node of a graph, what was made so far, and the literals of earlier nodes.
#[derive(Clone, Copy)]
pub struct Site<'a> {
    pub alloc: Global,
    pub builder: &'a Builder,
    pub graph: &'a Graph,
    pub found: &'a [u32],
    pub node: u32,
}

impl<'a> Site<'a> {
    /// The level of an operand.
    fn operand_level(&self, literal: u32) -> u32 {
        let found = self.found.get((literal / 2) as usize).copied();
        self.builder.level(found.unwrap_or(0))
    }

    /// The level of the node as it is.
    fn plain_level(&self) -> u32 {
        match majority_of(self.graph, self.node) {
            Some(node) => self
                .operand_level(node.x)
                .max(self.operand_level(node.y))
                .max(self.operand_level(node.z))
                .saturating_add(1),
            None => 0,
        }
    }

    /// What a form saves that was tried, where nodes of this number are given up, if it is worth it: it is no higher than
    /// `most`, if not than the node is, and saves some, or none where ties allow that.
    pub fn worth(
        &self,
        ties: &Ties,
        most: u32,
        by: Replacement,
        outcome: Trial,
        freed: usize,
    ) -> Option<Best> {
        let freed = u32::try_from(freed).unwrap_or(u32::MAX);
        ties.worth(most, self.plain_level(), by, outcome, freed)
    }
}
