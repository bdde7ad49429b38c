// A node that has its literal in a graph that grows, and may get another form there.
use crate::replacement::Replacement;
use aq_base::Memory;
use mig::{Builder, Graph};
use std::alloc::Global;

/// A node of a graph, what was made so far, the literals of earlier nodes, and that of the node as it is.
#[derive(Clone, Copy)]
pub struct Growth<'a> {
    pub alloc: Global,
    pub builder: &'a Builder,
    pub graph: &'a Graph,
    pub found: &'a [u32],
    pub node: u32,
    pub literal: u32,
}

/// What chooses other forms of nodes where they stand in the graph that grows. Nothing depends on it but which nodes
/// there are.
pub trait Grower {
    /// A node is there with its operands as they stay, so that other forms may use it. Its turn comes later.
    fn prepare(&mut self, at: &Growth) -> Result<(), Memory>;

    /// The replacement of a node, if one is worth it. Its leaves are nodes of the graph that grows; others of it are not
    /// used.
    fn choose(&mut self, at: &Growth) -> Result<Option<Replacement>, Memory>;
}
