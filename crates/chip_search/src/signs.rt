// Which majorities are turned.
use crate::arrays::{at, is_marked, narrow, put};
use crate::graph::{GraphParts, UseLists, is_turned, needed, turn};
use crate::walk::{Use, sort_uses, tree_depth, walk};
use aq_base::Memory;
use mig::Node;
use std::alloc::Global;

/// A graph in which each majority is kept or turned: its three literals are turned, and so are its uses.
#[derive(Drop)]
pub struct Signed {
    pub inputs: u32,
    pub nodes: Vec<Node>,
    pub outputs: Vec<u32>,
    pub turned: Vec<bool>,
    pub marks: Vec<bool>,
    pub uses: UseLists,
}

impl Signed {
    /// The graph as its nodes are turned.
    pub fn parts(&self) -> GraphParts<'_> {
        GraphParts {
            inputs: self.inputs,
            nodes: &self.nodes,
            outputs: &self.outputs,
        }
    }

    /// What a node shows where it stands, as a literal of the graph that was given.
    pub fn label(&self, node: u32) -> u32 {
        turn(node.saturating_mul(2), is_marked(&self.turned, node))
    }
}

/// The first row in which a majority of these literals may stand, by the rows in which leaves may stand.
fn first_row(ready: &[u32], node: [u32; 3]) -> u32 {
    let [x, y, z] = node;
    let x = at(ready, x / 2);
    let y = at(ready, y / 2);
    let z = at(ready, z / 2);
    x.max(y).max(z).saturating_add(1)
}

/// The first row in which the leaves of each node's tree may stand.
fn ready_rows(
    alloc: Global,
    graph: &GraphParts,
    uses: &UseLists,
    three: bool,
) -> Result<Vec<u32>, Memory> {
    let mut ready = vec![in alloc; 0; graph.count() as usize]?;
    for number in 1..graph.count() {
        let first = if number < graph.first() {
            0
        } else {
            first_row(&ready, graph.node(number))
        };
        let depth = tree_depth(narrow(uses.of(number).len()), three);
        put(&mut ready, number, first.saturating_add(depth));
    }
    Ok(ready)
}

/// What is known while nodes are turned, from the last one down.
#[derive(Clone, Copy)]
struct Turning<'a> {
    ready: &'a [u32],
    depths: &'a [u32],
    turned: &'a [bool],
    three: bool,
}

impl Turning<'_> {
    /// The uses of a node that is kept or turned, by rising depth.
    fn collect(&self, found: &mut Vec<Use>, users: &[u32], turns: bool) -> Result<(), Memory> {
        found.clear();
        for user in users {
            let number = *user / 2;
            let turned = is_turned(*user) != (is_marked(self.turned, number) != turns);
            let depth = at(self.depths, number);
            found.push(Use { depth, turned })?;
        }
        sort_uses(found);
        Ok(())
    }

    /// How bad a literal is as an operand: the rows that it takes, and whether it is turned.
    fn strain(&self, literal: u32, turns: bool) -> (u32, u32) {
        if literal < 2 {
            return (0, 0);
        }
        let odd = u32::from(is_turned(literal) != turns);
        (at(self.ready, literal / 2).saturating_add(odd), odd)
    }

    /// How bad it is to keep or turn a node: rows that are wanted, and turned signals; and its depth.
    fn weigh(&self, found: &[Use], node: [u32; 3], turns: bool) -> (u64, u64, u32) {
        let walked = walk(found, self.three);
        let [x, y, z] = node;
        let (x, x_odd) = self.strain(x, turns);
        let (y, y_odd) = self.strain(y, turns);
        let (z, z_odd) = self.strain(z, turns);
        let mut odd = u64::from(x_odd) + u64::from(y_odd) + u64::from(z_odd);
        for one in found {
            odd = odd.saturating_add(u64::from(one.turned));
        }
        let rows = u64::from(walked.depth) + u64::from(x.max(y).max(z));
        (rows, odd, walked.depth)
    }
}

/// Which nodes are turned.
fn choose(
    alloc: Global,
    graph: &GraphParts,
    uses: &UseLists,
    three: bool,
) -> Result<Vec<bool>, Memory> {
    let ready = ready_rows(alloc, graph, uses, three)?;
    let mut depths = vec![in alloc; 0; graph.count() as usize]?;
    let mut turned = vec![in alloc; false; graph.count() as usize]?;
    let mut found = Vec::new(alloc);
    for number in (graph.first()..graph.count()).rev() {
        let turning = Turning {
            ready: &ready,
            depths: &depths,
            turned: &turned,
            three,
        };
        let node = graph.node(number);
        turning.collect(&mut found, uses.of(number), false)?;
        let (rows, odd, depth) = turning.weigh(&found, node, false);
        turning.collect(&mut found, uses.of(number), true)?;
        let (other_rows, other_odd, other_depth) = turning.weigh(&found, node, true);
        let turns = other_rows < rows || (other_rows == rows && other_odd < odd);
        put(&mut depths, number, if turns { other_depth } else { depth });
        put(&mut turned, number, turns);
    }
    Ok(turned)
}

/// A literal of the graph as a literal of the nodes as they are turned.
fn signed_literal(turned: &[bool], literal: u32) -> u32 {
    turn(literal, literal > 1 && is_marked(turned, literal / 2))
}

/// The literals of a node that is kept or turned.
fn signed_node(turned: &[bool], node: [u32; 3], turns: bool) -> Node {
    let [x, y, z] = node;
    Node {
        x: turn(signed_literal(turned, x), turns),
        y: turn(signed_literal(turned, y), turns),
        z: turn(signed_literal(turned, z), turns),
    }
}

/// The graph with the nodes turned that are best turned.
pub fn sign(alloc: Global, graph: &GraphParts, three: bool) -> Result<Signed, Memory> {
    let marks = needed(alloc, graph)?;
    let uses = UseLists::new(alloc, graph, &marks)?;
    let turned = choose(alloc, graph, &uses, three)?;
    let mut nodes = Vec::with_capacity(alloc, graph.nodes.len())?;
    for number in graph.first()..graph.count() {
        let turns = is_marked(&turned, number);
        nodes.push(signed_node(&turned, graph.node(number), turns))?;
    }
    let mut outputs = Vec::with_capacity(alloc, graph.outputs.len())?;
    for output in graph.outputs {
        outputs.push(signed_literal(&turned, *output))?;
    }
    let signed = GraphParts {
        inputs: graph.inputs,
        nodes: &nodes,
        outputs: &outputs,
    };
    let uses = UseLists::new(alloc, &signed, &marks)?;
    Ok(Signed {
        inputs: graph.inputs,
        nodes,
        outputs,
        turned,
        marks,
        uses,
    })
}
