// How often nodes are used, and which nodes serve a node alone. Nothing depends on it but which nodes there are.
use aq_base::Memory;
use mig::{Graph, Node};
use std::alloc::Global;

/// How many nodes are looked at that may serve a node alone.
const MOST_FREED: usize = 32;

/// How many operands and outputs name each node.
#[derive(Drop)]
pub struct Uses {
    counts: Vec<u32>,
}

/// The majority of a node's number, if it is one.
pub fn majority_of(graph: &Graph, node: u32) -> Option<Node> {
    let first = graph.inputs().saturating_add(1);
    if node < first {
        return None;
    }
    graph.nodes().get((node - first) as usize).copied()
}

/// The operands of the node at a place of a list.
fn operands_at(graph: &Graph, nodes: &[u32], place: usize) -> Option<Node> {
    match nodes.get(place) {
        Some(node) => majority_of(graph, *node),
        None => None,
    }
}

impl Uses {
    /// Those of the nodes of a graph.
    pub fn new(alloc: Global, graph: &Graph) -> Result<Uses, Memory> {
        let first = (graph.inputs() as usize).saturating_add(1);
        let total = first.saturating_add(graph.node_count());
        let mut uses = Uses {
            counts: vec![in alloc; 0u32; total]?,
        };
        for node in graph.nodes() {
            uses.hold(node.x / 2);
            uses.hold(node.y / 2);
            uses.hold(node.z / 2);
        }
        for output in graph.outputs() {
            uses.hold(*output / 2);
        }
        Ok(uses)
    }

    /// How often a node is used.
    pub fn count(&self, node: u32) -> u32 {
        self.counts.get(node as usize).copied().unwrap_or(0)
    }

    /// Whether a node is used.
    pub fn is_used(&self, node: u32) -> bool {
        self.count(node) > 0
    }

    /// One more use.
    fn hold(&mut self, node: u32) {
        let at = node as usize;
        if at < self.counts.len() {
            self.counts[at] = self.counts[at].saturating_add(1);
        }
    }

    /// One use less.
    fn release(&mut self, node: u32) {
        let at = node as usize;
        if at < self.counts.len() {
            self.counts[at] = self.counts[at].saturating_sub(1);
        }
    }

    /// One use of a majority less, which is freed where that was the last one.
    fn free(&mut self, graph: &Graph, node: u32, freed: &mut Vec<u32>) -> Result<(), Memory> {
        self.release(node);
        if !self.is_used(node) && majority_of(graph, node).is_some() {
            freed.push(node)?;
        }
        Ok(())
    }

    /// Takes away what a node uses, and what nodes use that are free then. They are answered, the node first.
    fn freed(&mut self, alloc: Global, graph: &Graph, node: u32) -> Result<Vec<u32>, Memory> {
        let mut freed = Vec::new(alloc);
        freed.push(node)?;
        for turn in 0..MOST_FREED {
            if let Some(operands) = operands_at(graph, freed.as_slice(), turn) {
                self.free(graph, operands.x / 2, &mut freed)?;
                self.free(graph, operands.y / 2, &mut freed)?;
                self.free(graph, operands.z / 2, &mut freed)?;
            }
        }
        Ok(freed)
    }

    /// Gives freed nodes back what they used.
    fn restore(&mut self, graph: &Graph, freed: &[u32]) {
        for turn in 0..MOST_FREED {
            if let Some(operands) = operands_at(graph, freed, turn) {
                self.hold(operands.x / 2);
                self.hold(operands.y / 2);
                self.hold(operands.z / 2);
            }
        }
    }

    /// One use more of each of these.
    pub fn hold_all(&mut self, nodes: &[u32]) {
        for node in nodes {
            self.hold(*node);
        }
    }

    /// One use less of each of these.
    pub fn release_all(&mut self, nodes: &[u32]) {
        for node in nodes {
            self.release(*node);
        }
    }

    /// The nodes that serve a node alone, itself the first, where these others are used by what takes its place.
    pub fn served(
        &mut self,
        alloc: Global,
        graph: &Graph,
        node: u32,
        held: &[u32],
    ) -> Result<Vec<u32>, Memory> {
        self.hold_all(held);
        let freed = self.freed(alloc, graph, node)?;
        self.restore(graph, freed.as_slice());
        self.release_all(held);
        Ok(freed)
    }

    /// Gives up the nodes that serve a node alone, and uses these others in their place.
    pub fn give_up(
        &mut self,
        alloc: Global,
        graph: &Graph,
        node: u32,
        held: &[u32],
    ) -> Result<(), Memory> {
        self.hold_all(held);
        let _freed = self.freed(alloc, graph, node)?;
        Ok(())
    }
}
