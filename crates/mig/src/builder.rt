// What makes graphs, node by node.
ghost use Rattle.std.specs.Prelude.{◌≡◌, ◌+◌, ◌<◌, ◌≤◌, ◌^◌, [], length, IfOk, IfErr, IfSome};
ghost use Rattle.std.specs.List.{AllByRecursion};

use crate::folding::{folded, is_turned, sorted, turned, turned_node};
use crate::table::Table;
use crate::{Graph, GraphRefusal, Node};
use std::alloc::Global;
use std::marker::Model;

/// How many nodes there are fewer than, with the constant and the inputs.
const NODE_LIMIT: usize = 1 << 30;

/// A graph that grows: equal majorities are one node.
#[derive(Drop)]
pub struct Builder {
    alloc: Global,
    inputs: u32,
    nodes: Vec<Node>,
    levels: Vec<u32>,
    table: Table,
}

impl Model for Builder {
    ghost use Rattle.mig.specs.Building.{BuilderView, IsBuilder};

    ghost Value = { BuilderView };

    ghost view = { λ b. record { inputs = b.inputs; nodes = b.nodes.items } };

    ghost invariant = { λ b. IsBuilder (record { inputs = b.inputs; nodes = b.nodes.items }) };
}

impl Builder {
    ghost use Rattle.mig.specs.declared.refusal.GraphRefusal.TheVariants.{TooManyNodes};
    ghost use Rattle.mig.specs.Graphs.{node_value, AreBelow};
    ghost use Rattle.mig.specs.Building.{IsBuilder, Grown, Gives, IsFull, Splits, limit};

    /// The graph of so many inputs without majorities.
    pub fn new(alloc: Global, inputs: u32) -> Result<Builder, GraphRefusal>
        ensures empty { IfOk result (λ builder. builder ≡ record { inputs = inputs; nodes = [] }) }
        ensures full { IfErr result (λ refusal. refusal ≡ TooManyNodes → 2 ^ 30 ≤ 1 + inputs) }
    {
        if inputs as usize + 1 >= NODE_LIMIT {
            return Err(GraphRefusal::TooManyNodes);
        }
        let levels = vec![in alloc; 0u32; inputs as usize + 1]?;
        Ok(Builder {
            alloc,
            inputs,
            nodes: Vec::new(alloc),
            levels,
            table: Table::new(alloc),
        })
    }

    /// The graph keeps its facts.
    pub fn known(&self)
        ensures { IsBuilder self.now }
    {
        let _inputs = &self.inputs;
    }

    /// How many inputs there are.
    pub fn inputs(&self) -> u32
        ensures { result ≡ self.now.inputs }
    {
        self.inputs
    }

    /// How many majorities there are.
    pub fn node_count(&self) -> usize
        ensures { result ≡ length self.now.nodes }
    {
        self.nodes.len()
    }

    /// The level of a literal: 0 for the constant and the inputs, else one more than the greatest of its operands.
    pub fn level(&self, literal: u32) -> u32 {
        self.levels
            .get((literal / 2) as usize)
            .copied()
            .unwrap_or(0)
    }

    /// A node that is a majority of literals that there are: one that was there, or a new one.
    fn add(&mut self, node: Node) -> Result<u32, GraphRefusal>
        requires { AreBelow (limit self.old) node }
        ensures grown { Grown self.old self.new }
        ensures given { IfOk result (λ literal. Gives self.new literal (λ v. node_value v node)) }
        ensures few { length self.new.nodes ≤ 1 + length self.old.nodes }
        ensures full { IfErr result (IsFull self.old) }
    {
        if let Some(number) = self.table.find(self.nodes.as_slice(), node) {
            return Ok(2 * (1 + self.inputs + number));
        }
        let count = self.nodes.len();
        if 1 + self.inputs as usize + count + 1 >= NODE_LIMIT {
            return Err(GraphRefusal::TooManyNodes);
        }
        let level = self
            .level(node.x)
            .max(self.level(node.y))
            .max(self.level(node.z));
        self.levels.push(level.saturating_add(1))?;
        self.nodes.push(node)?;
        self.table.take_last(self.alloc, self.nodes.as_slice())?;
        Ok(2 * (1 + self.inputs + count as u32))
    }

    /// A literal whose value is the majority of the values of three literals. It is one of them, where two of the three
    /// are of one node; else it is that of a node, which is made where none has these literals or their complements.
    pub fn maj(&mut self, x: u32, y: u32, z: u32) -> Result<u32, GraphRefusal>
        requires { AreBelow (limit self.old) (record { x = x; y = y; z = z }) }
        ensures grown { Grown self.old self.new }
        ensures given { IfOk result (λ literal.
            Gives self.new literal (λ v. node_value v (record { x = x; y = y; z = z }))) }
        ensures few { length self.new.nodes ≤ 1 + length self.old.nodes }
        ensures full { IfErr result (IsFull self.old) }
    {
        let node = sorted(Node { x, y, z });
        if let Some(literal) = folded(node) {
            return Ok(literal);
        }
        if is_turned(node) {
            let literal = self.add(turned_node(node))?;
            Ok(turned(literal))
        } else {
            self.add(node)
        }
    }

    /// The literal that `maj` would give, if it would make no node. It serves searches, and no clause speaks of it.
    pub fn find(&self, x: u32, y: u32, z: u32) -> Option<u32> {
        let node = sorted(Node { x, y, z });
        if let Some(literal) = folded(node) {
            return Some(literal);
        }
        let is_turned = is_turned(node);
        let sought = if is_turned { turned_node(node) } else { node };
        let number = self.table.find(self.nodes.as_slice(), sought)?;
        let literal = number
            .saturating_add(1)
            .saturating_add(self.inputs)
            .saturating_mul(2);
        Some(if is_turned { turned(literal) } else { literal })
    }

    /// The three literals whose majority a literal is, if it is that of a majority.
    pub fn operands(&self, literal: u32) -> Option<Node>
        ensures { IfSome result (λ node. Splits self.now literal node) }
    {
        let first = self.inputs + 1;
        let node = literal / 2;
        if node < first || (node - first) as usize >= self.nodes.len() {
            return None;
        }
        let operands = self.nodes[(node - first) as usize];
        if literal % 2 == 1 {
            Some(turned_node(operands))
        } else {
            Some(operands)
        }
    }

    /// The graph whose outputs show these literals.
    pub fn finish(self, outputs: Vec<u32>) -> Graph
        requires some { 0 < length outputs.items }
        requires few { length outputs.items < 2 ^ 32 }
        requires below { AllByRecursion (λ l. l < limit self) outputs.items }
        ensures { result ≡ record { inputs = self.inputs; nodes = self.nodes; outputs = outputs.items } }
    {
        Graph {
            inputs: self.inputs,
            nodes: self.nodes,
            outputs,
        }
    }
}
