// The edges of a binary decision diagram, and the nodes that they lead to.
ghost use Rattle.std.specs.Prelude.{◌≡◌, not, MatchBool};
ghost use Rattle.decide.specs.Code.Diagrams.{flip};

/// A function of the inputs: that of a node, or its complement where the edge is complemented.
#[derive(Clone, Copy, PartialEq, Eq, Hash)]
pub struct Edge {
    /// The number of the node.
    pub node: u32,
    pub complemented: bool,
}

/// The function that is false at every word: node 0.
pub const FALSE: Edge = Edge {
    node: 0,
    complemented: false,
};

/// The function that is true at every word.
pub const TRUE: Edge = Edge {
    node: 0,
    complemented: true,
};

impl Edge {
    /// The complement of the function.
    pub fn complement(self) -> Edge
        ensures { result ≡ record { node = self.node; complemented = not self.complemented } }
    {
        Edge {
            node: self.node,
            complemented: !self.complemented,
        }
    }

    /// The complement where `complemented` is true, else the function itself.
    pub fn flip(self, complemented: bool) -> Edge
        ensures { result ≡ record { node = self.node; complemented = flip complemented self.complemented } }
    {
        if complemented {
            self.complement()
        } else {
            self
        }
    }
}

/// A choice between two functions by one input, its variable. The low edge is never complemented, so every node is
/// false at the word of false values alone, and no node is the complement of another.
#[derive(Clone, Copy, PartialEq, Eq, Hash)]
pub struct Node {
    /// The place of the variable in the variable order, from 0. Node 0 has the number of inputs here.
    pub level: u32,
    /// The number of the node that is the function where the variable is false.
    pub low: u32,
    /// The function where the variable is true.
    pub high: Edge,
}

/// Three functions of which the majority is wanted.
#[derive(Clone, Copy, PartialEq, Eq)]
pub struct Triple {
    pub first: Edge,
    pub second: Edge,
    pub third: Edge,
}

/// Whether two edges are the same. As the diagram is reduced, they are where their functions are.
pub fn same_edge(e: Edge, f: Edge) -> bool
    ensures { MatchBool result (e ≡ f) (e ≡ f → ⊥) }
{
    e == f
}

/// Whether two triples have the same operands in the same places.
pub fn same_triple(s: Triple, t: Triple) -> bool
    ensures { MatchBool result (s ≡ t) (s ≡ t → ⊥) }
{
    s == t
}
