// A reduced ordered binary decision diagram (Bryant) with complemented edges (Brace, Rudell and Bryant): the unique
// table of its nodes, and the computed table of majorities.
ghost use Rattle.std.specs.Prelude.{◌≡◌, ℕ, List, ◌+◌, ◌<◌, ◌≤◌, length, All, IfOk, IfErr, IfSome, IfNone};
ghost use Rattle.circuit.specs.PlainNets.{PlainView};
ghost use Rattle.decide.specs.Code.Diagrams.{level_of, inputs_of, cofactor, IsDiagram};
ghost use Rattle.decide.specs.Code.Grown.{Grows, Represents, choice, IsFull};
ghost use Rattle.decide.specs.Code.Named.{IsNamed, AreNamed};
ghost use Rattle.decide.specs.declared.edge.Node.{Node};
ghost use Rattle.decide.specs.Code.Majorities.{AreEdges, IsMajority, IsEntry, least_of, cofactors};

use crate::DecideRefusal;
use crate::edge::{Edge, FALSE, Triple, same_edge, same_triple};
use crate::unique_table::UniqueTable;
use aq_base::Memory;
use std::alloc::Global;

/// The places of the computed table at first.
const FIRST_PLACES: usize = 1_024;

/// The golden ratio as a fraction of 2^64: products with it spread over the high bits.
const SPREADING: u64 = 0x9e37_79b9_7f4a_7c15;

/// A majority that was made.
#[derive(Clone, Copy)]
pub struct Entry {
    pub operands: Triple,
    pub result: Edge,
}

/// A decision diagram, and the majorities that it remembers.
#[derive(Drop)]
pub struct Diagram {
    pub table: UniqueTable,
    /// The computed table: each place has the last majority that came to it, at first `NOTHING`.
    computed: Vec<Entry>,
    /// How many majorities were remembered, in places that others took as well.
    count: usize,
    ghost places: { 0 < length computed.items },
    ghost right: { All (IsEntry table.nodes.keys) computed.items },
}

/// The majority of constants: it is right, and no computation looks for it.
pub const NOTHING: Entry = Entry {
    operands: Triple {
        first: FALSE,
        second: FALSE,
        third: FALSE,
    },
    result: FALSE,
};

/// A hash with one more edge.
fn mix(hash: u64, edge: Edge) -> u64 {
    let next = u64::from(edge.node).wrapping_add(u64::from(edge.node));
    hash.wrapping_mul(SPREADING)
        .wrapping_add(next)
        .wrapping_add(u64::from(edge.complemented))
}

/// The place of a majority in a computed table. Where many come to one place, time is lost and nothing else: node
/// numbers are the diagram's own, and no one who writes a circuit chooses them freely.
fn place(computed: &[Entry], operands: Triple) -> usize
    requires { 0 < length computed.now }
    ensures { result < length computed.now }
{
    let all = mix(mix(mix(0, operands.first), operands.second), operands.third);
    let hash = all.wrapping_mul(SPREADING) >> 32;
    hash as usize % computed.len()
}

/// So many times this entry.
fn entries(alloc: Global, entry: Entry, count: usize) -> Result<Vec<Entry>, Memory>
    ensures size { IfOk result (λ v. length v.items ≡ count) }
    ensures each { IfOk result (λ v. All (λ e. e ≡ entry) v.items) }
{
    Ok(vec![in alloc; entry; count]?)
}

/// The entries at twice as many places.
fn spread(alloc: Global, computed: &[Entry]) -> Result<Vec<Entry>, Memory>
    requires { 0 < length computed.now }
    ensures some { IfOk result (λ v. 0 < length v.items) }
    ensures each { (nodes : List Node) → IsEntry nodes NOTHING → All (IsEntry nodes) computed.now
        → IfOk result (λ v. All (IsEntry nodes) v.items) }
{
    let mut more = entries(alloc, NOTHING, 2 * computed.len())?;
    for entry in computed {
        let at = place(&more, entry.operands);
        more[at] = *entry;
    }
    Ok(more)
}

impl Diagram {
    /// The diagram of the constants alone, of so many inputs.
    pub fn new(alloc: Global, inputs: u32) -> Result<Self, Memory>
        ensures inputs { IfOk result (λ d. inputs_of d.table.nodes.keys ≡ inputs) }
        ensures size { IfOk result (λ d. length d.table.nodes.keys ≡ 1) }
    {
        let table = UniqueTable::new(alloc, inputs)?;
        let computed = entries(alloc, NOTHING, FIRST_PLACES)?;
        Ok(Diagram {
            table,
            computed,
            count: 0,
        })
    }

    /// The first level that the function reads; the number of inputs where it is a constant.
    pub fn level(&self, edge: Edge) -> u32
        requires { edge.node < length self.now.table.nodes.keys }
        ensures { result ≡ level_of self.now.table.nodes.keys edge.node }
    {
        self.table.node(edge.node).level
    }

    /// The function where the variable at a level, at or before its first one, has the value `side`.
    pub fn cofactor(&self, edge: Edge, level: u32, side: bool) -> Edge
        requires { edge.node < length self.now.table.nodes.keys }
        ensures { result ≡ cofactor self.now.table.nodes.keys edge level side }
    {
        let node = self.table.node(edge.node);
        if node.level != level {
            return edge;
        }
        if side {
            node.high.flip(edge.complemented)
        } else {
            Edge {
                node: node.low,
                complemented: edge.complemented,
            }
        }
    }

    /// The choice between two functions by the variable at a level.
    pub fn choice(&mut self, level: u32, low: Edge, high: Edge) -> Result<Edge, DecideRefusal>
        requires low_inside { low.node < length self.old.table.nodes.keys }
        requires high_inside { high.node < length self.old.table.nodes.keys }
        requires low_level { level < level_of self.old.table.nodes.keys low.node }
        requires high_level { level < level_of self.old.table.nodes.keys high.node }
        ensures grows { Grows self.old.table.nodes.keys self.new.table.nodes.keys }
        ensures has { IfOk result
            (Represents self.new.table.nodes.keys level (choice self.old.table.nodes.keys level low high)) }
        ensures named { (a b : PlainView) → AreNamed a b self.old.table.nodes.keys
            → IsNamed a b (choice self.old.table.nodes.keys level low high) → AreNamed a b self.new.table.nodes.keys }
        ensures full { IfErr result (IsFull self.new.table.nodes.keys) }
    {
        self.table.choice(level, low, high)
    }

    /// The three functions where the variable at a level has the value `side`.
    pub fn cofactors(&self, operands: Triple, level: u32, side: bool) -> Triple
        requires { AreEdges self.now.table.nodes.keys operands }
        ensures { result ≡ cofactors self.now.table.nodes.keys operands level side }
    {
        Triple {
            first: self.cofactor(operands.first, level, side),
            second: self.cofactor(operands.second, level, side),
            third: self.cofactor(operands.third, level, side),
        }
    }

    /// The first level that one of the three functions reads.
    pub fn least_level(&self, operands: Triple) -> u32
        requires { AreEdges self.now.table.nodes.keys operands }
        ensures { result ≡ least_of self.now.table.nodes.keys operands }
    {
        self.level(operands.first)
            .min(self.level(operands.second))
            .min(self.level(operands.third))
    }

    /// The majority, where two operands are the same or complements. Where none are, one of them reads an input.
    pub fn simple(&self, operands: Triple) -> Option<Edge>
        requires { AreEdges self.now.table.nodes.keys operands }
        ensures is { IfSome result (IsMajority self.now.table.nodes.keys operands) }
        ensures open { IfNone result
            (least_of self.now.table.nodes.keys operands < inputs_of self.now.table.nodes.keys) }
    {
        let Triple {
            first,
            second,
            third,
        } = operands;
        if same_edge(first, second)
            || same_edge(first, third)
            || same_edge(second, third.complement())
        {
            return Some(first);
        }
        if same_edge(second, third) || same_edge(first, third.complement()) {
            return Some(second);
        }
        if same_edge(first, second.complement()) {
            return Some(third);
        }
        None
    }

    /// The majority, where it is remembered.
    pub fn remembered(&self, operands: Triple) -> Option<Edge>
        requires { AreEdges self.now.table.nodes.keys operands }
        ensures { IfSome result (IsMajority self.now.table.nodes.keys operands) }
    {
        let entry = self.computed[place(&self.computed, operands)];
        if same_triple(entry.operands, operands) {
            Some(entry.result)
        } else {
            None
        }
    }

    /// Doubles the computed table, where two majorities a place were remembered. So it grows with the work, and a
    /// comparison that makes too many majorities ends where a growth is refused.
    fn make_room(&mut self, alloc: Global) -> Result<(), Memory>
        ensures { self.new.table.nodes.keys ≡ self.old.table.nodes.keys }
    {
        if self.count / 2 >= self.computed.len() {
            self.computed = spread(alloc, &self.computed)?;
        }
        Ok(())
    }

    /// Remembers a majority, in the place of one that was there.
    pub fn remember(&mut self, alloc: Global, operands: Triple, edge: Edge) -> Result<(), Memory>
        requires operands { AreEdges self.old.table.nodes.keys operands }
        requires is { IsMajority self.old.table.nodes.keys operands edge }
        ensures { self.new.table.nodes.keys ≡ self.old.table.nodes.keys }
    {
        self.make_room(alloc)?;
        let place = place(&self.computed, operands);
        self.computed[place] = Entry {
            operands,
            result: edge,
        };
        self.count = self.count.saturating_add(1);
        Ok(())
    }
}
