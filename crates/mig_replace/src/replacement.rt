// What is put in the place of a node.
use mig::Node;

/// Steps over up to six leaves and over other nodes that these leaves determine, in the place of a further node that
/// they determine. Literal 0 is the constant, literals 2, 4, .. are the leaves in order, the later ones the other nodes,
/// and then the steps; an odd literal is the complement of the one before it.
#[derive(Drop)]
pub struct Replacement {
    /// The numbers of the leaves.
    pub leaves: Vec<u32>,
    /// The numbers of the other nodes.
    pub others: Vec<u32>,
    /// Majorities of literals of the constant, of leaves, of other nodes and of earlier steps.
    pub steps: Vec<Node>,
    /// The literal of the result.
    pub out: u32,
}
