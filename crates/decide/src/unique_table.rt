// The unique table: the nodes of a reduced diagram, of which no two are the same.
ghost use Rattle.std.specs.Prelude.{◌≡◌, ◌⊎◌, ℕ, ◌+◌, ◌<◌, ◌≤◌, ◌^◌, ◌++◌, ◌∷◌, [], length, slice_get, Some, IfOk};
ghost use Rattle.std.specs.Prelude.{OnOk, OnErr, IfErr};
ghost use Rattle.circuit.specs.PlainNets.{PlainView};
ghost use Rattle.decide.specs.declared.edge.Node.{Node};
ghost use Rattle.decide.specs.Code.Diagrams.{node_at, level_of, inputs_of, IsDiagram};
ghost use Rattle.decide.specs.Code.Grown.{Grows, Adds, Represents, choice, IsFull};
ghost use Rattle.decide.specs.Code.Named.{IsNamed, AreNamed};

use crate::DecideRefusal;
use crate::edge::{Edge, FALSE, Node, same_edge};
use aq_base::Memory;
use indexmap::IndexSet;
use std::alloc::Global;

/// How many nodes beside node 0 are too many.
const TOO_MANY: usize = 1_000_001;

/// The nodes by number, and their numbers by what they are. Node 0 is the constant false.
#[derive(Drop)]
pub struct UniqueTable {
    pub nodes: IndexSet<Node>,
    ghost sound: { IsDiagram nodes.keys },
}

/// The number of the node, which is added where it is not there yet.
fn insert(nodes: &mut IndexSet<Node>, node: Node) -> Result<u32, Memory>
    requires { length nodes.old.keys ≤ 1000001 }
    ensures stored { IfOk result (λ i. slice_get nodes.new.keys i ≡ Some node) }
    ensures adds { OnOk result (Adds nodes.old.keys node nodes.new.keys) }
    ensures err { OnErr result (nodes.new.keys ≡ nodes.old.keys) }
{
    let (number, _) = nodes.insert_full(node)?;
    Ok(number as u32)
}

/// Node 0 alone, of so many inputs.
fn constant(alloc: Global, inputs: u32) -> Result<IndexSet<Node>, Memory>
    ensures size { IfOk result (λ s. length s.keys ≡ 1) }
    ensures level { IfOk result (λ s. inputs_of s.keys ≡ inputs) }
{
    let mut nodes = IndexSet::new(alloc);
    let node = Node {
        level: inputs,
        low: 0,
        high: FALSE,
    };
    insert(&mut nodes, node)?;
    Ok(nodes)
}

impl UniqueTable {
    /// The table with node 0 alone, of so many inputs.
    #[tactic(auto, using(crate::proofs::Adding::table_begins))]
    pub fn new(alloc: Global, inputs: u32) -> Result<Self, Memory>
        ensures inputs { IfOk result (λ t. inputs_of t.nodes.keys ≡ inputs) }
        ensures size { IfOk result (λ t. length t.nodes.keys ≡ 1) }
    {
        let nodes = constant(alloc, inputs)?;
        Ok(UniqueTable { nodes })
    }

    /// The node of a number.
    pub fn node(&self, number: u32) -> Node
        requires { number < length self.now.nodes.keys }
        ensures { result ≡ node_at self.now.nodes.keys number }
    {
        self.nodes[number as usize]
    }

    /// The choice between two functions by the variable at a level: the one function where both are the same, else a
    /// node. `TooMany` where 1,000,001 nodes stand beside node 0.
    pub fn choice(&mut self, level: u32, low: Edge, high: Edge) -> Result<Edge, DecideRefusal>
        requires low_inside { low.node < length self.old.nodes.keys }
        requires high_inside { high.node < length self.old.nodes.keys }
        requires low_level { level < level_of self.old.nodes.keys low.node }
        requires high_level { level < level_of self.old.nodes.keys high.node }
        ensures grows { Grows self.old.nodes.keys self.new.nodes.keys }
        ensures has { IfOk result (Represents self.new.nodes.keys level (choice self.old.nodes.keys level low high)) }
        ensures named { (a b : PlainView) → AreNamed a b self.old.nodes.keys
            → IsNamed a b (choice self.old.nodes.keys level low high) → AreNamed a b self.new.nodes.keys }
        ensures full { IfErr result (IsFull self.new.nodes.keys) }
    {
        if same_edge(low, high) {
            return Ok(low);
        }
        if self.nodes.len() > TOO_MANY {
            return Err(DecideRefusal::TooMany {
                functions: 1_000_001,
            });
        }
        // the node with a low edge that is not complemented: both edges are flipped where it is
        let node = Node {
            level,
            low: low.node,
            high: high.flip(low.complemented),
        };
        let number = insert(&mut self.nodes, node)?;
        Ok(Edge {
            node: number,
            complemented: low.complemented,
        })
    }
}
