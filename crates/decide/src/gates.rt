// The functions of gates, as edges of a diagram.
ghost use Rattle.std.specs.Prelude.{◌≡◌, ℕ, ◌<◌, Bool, length, IfOk, IfErr};
ghost use Rattle.circuit.specs.PlainNets.{PlainView};
ghost use Rattle.circuit.specs.CellNets.{Reads, AreCells};
ghost use Rattle.decide.specs.Subfunctions.{gates_of};
ghost use Rattle.decide.specs.Code.Diagrams.{regular, inputs_of};
ghost use Rattle.decide.specs.Code.Grown.{Grows, Represents, IsFull};
ghost use Rattle.decide.specs.Code.Named.{IsNamed, AreNamed};
ghost use Rattle.decide.specs.Code.GateFunctions.{edge_of, gate_function, AreValues};

use crate::DecideRefusal;
use crate::diagram::Diagram;
use crate::edge::{Edge, FALSE, TRUE, Triple};
use circuit::Gate;
use std::alloc::Global;

/// The function of a gate, by its number.
pub fn edge_of(edges: &[Edge], gate: u32) -> Edge
    requires { gate < length edges.now }
    ensures { result ≡ edge_of edges.now gate }
{
    edges[gate as usize]
}

impl Diagram {
    /// The function of a gate, from those of the gates that it names.
    fn gate(&mut self, alloc: Global, gate: Gate, edges: &[Edge]) -> Result<Edge, DecideRefusal>
        requires reads { Reads (inputs_of self.old.table.nodes.keys) (length edges.now) gate }
        requires inside { (i : ℕ) → i < length edges.now
            → (edge_of edges.now i).node < length self.old.table.nodes.keys }
        ensures grows { Grows self.old.table.nodes.keys self.new.table.nodes.keys }
        ensures has { IfOk result
            (Represents self.new.table.nodes.keys 0 (gate_function self.old.table.nodes.keys edges.now gate)) }
        ensures named { (a b : PlainView) → inputs_of self.old.table.nodes.keys ≡ a.inputs
            → AreNamed a b self.old.table.nodes.keys
            → IsNamed a b (gate_function self.old.table.nodes.keys edges.now gate)
            → AreNamed a b self.new.table.nodes.keys }
        ensures full { IfErr result (IsFull self.new.table.nodes.keys) }
    {
        match gate {
            Gate::Input(input) => self.choice(input, FALSE, TRUE),
            Gate::Zero => Ok(FALSE),
            Gate::One => Ok(TRUE),
            Gate::Buf(x) => Ok(edge_of(edges, x)),
            Gate::Inv(x) => Ok(edge_of(edges, x).complement()),
            Gate::Maj(x, y, z) => {
                let operands = Triple {
                    first: edge_of(edges, x),
                    second: edge_of(edges, y),
                    third: edge_of(edges, z),
                };
                self.majority(alloc, operands)
            }
        }
    }

    /// The functions of all gates of a circuit, in their order.
    pub fn gates(&mut self, alloc: Global, gates: &[Gate]) -> Result<Vec<Edge>, DecideRefusal>
        requires { AreCells (inputs_of self.old.table.nodes.keys) gates.now }
        ensures grows { Grows self.old.table.nodes.keys self.new.table.nodes.keys }
        ensures values { IfOk result
            (λ edges. AreValues self.new.table.nodes.keys edges.items gates.now (length gates.now)) }
        ensures named { (a b : PlainView) (second : Bool) → inputs_of self.old.table.nodes.keys ≡ a.inputs
            → gates_of a b second ≡ gates.now → AreNamed a b self.old.table.nodes.keys
            → AreNamed a b self.new.table.nodes.keys }
        ensures full { IfErr result (IsFull self.new.table.nodes.keys) }
    {
        let mut edges = Vec::with_capacity(alloc, gates.len())?;
        for gate in gates {
            let edge = self.gate(alloc, *gate, &edges)?;
            edges.push(edge)?;
        }
        Ok(edges)
    }
}
