// The nodes whose operands are all there. Nothing depends on it but which nodes there are.
ghost use Rattle.std.specs.Prelude.{◌/◌, ◌≤◌};

use aq_base::Memory;
use mig::{Graph, Node};
use std::alloc::Global;

/// For each node a list of the majorities of which it is the last operand; inputs count as the last one of them.
#[derive(Drop)]
pub(crate) struct ByLast {
    firsts: Vec<u32>,
    nexts: Vec<u32>,
}

/// The last operand of a node.
pub(crate) fn last_operand(node: &Node) -> u32
    ensures x { node.now.x / 2 ≤ result }
    ensures y { node.now.y / 2 ≤ result }
    ensures z { node.now.z / 2 ≤ result }
{
    (node.x / 2).max(node.y / 2).max(node.z / 2)
}

impl ByLast {
    /// The lists of a graph.
    pub(crate) fn new(alloc: Global, graph: &Graph) -> Result<ByLast, Memory> {
        let first = (graph.inputs() as usize).saturating_add(1);
        let total = first.saturating_add(graph.node_count());
        let mut lists = ByLast {
            firsts: vec![in alloc; 0u32; total]?,
            nexts: vec![in alloc; 0u32; total]?,
        };
        let mut number = total;
        for node in graph.nodes().iter().rev() {
            number = number.saturating_sub(1);
            lists.put(number, last_operand(node).max(graph.inputs()) as usize);
        }
        Ok(lists)
    }

    /// Puts a node before those of the list of another one.
    fn put(&mut self, node: usize, last: usize) {
        if node < self.nexts.len() && last < self.firsts.len() {
            self.nexts[node] = self.firsts[last];
            self.firsts[last] = u32::try_from(node).unwrap_or(0);
        }
    }

    /// The first majority of the list of a node, and 0 where there is none.
    pub(crate) fn first(&self, node: usize) -> u32 {
        self.firsts.get(node).copied().unwrap_or(0)
    }

    /// The majority after this one in its list, and 0 where there is none.
    pub(crate) fn next(&self, node: u32) -> u32 {
        self.nexts.get(node as usize).copied().unwrap_or(0)
    }
}
