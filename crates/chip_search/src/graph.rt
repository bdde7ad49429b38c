// Graphs of majorities, and the uses of their nodes.
use crate::arrays::{add, at, between, is_marked, narrow, put, sum_up};
use aq_base::Memory;
use mig::Node;
use std::alloc::Global;

/// A graph of majorities, of which nothing is known. Node 0 is the constant false, nodes 1 to `inputs` are the inputs,
/// and each later node is the majority of three literals. Literal `2 * g` is node g, and `2 * g + 1` its complement.
#[derive(Clone, Copy)]
pub struct GraphParts<'a> {
    pub inputs: u32,
    pub nodes: &'a [Node],
    pub outputs: &'a [u32],
}

impl GraphParts<'_> {
    /// How many nodes there are, the constant and the inputs too.
    pub fn count(&self) -> u32 {
        self.first().saturating_add(narrow(self.nodes.len()))
    }

    /// The number of the first majority.
    pub fn first(&self) -> u32 {
        self.inputs.saturating_add(1)
    }

    /// The literals of a majority.
    pub fn node(&self, number: u32) -> [u32; 3] {
        let place = number.saturating_sub(self.first());
        match self.nodes.get(place as usize) {
            Some(node) => [node.x, node.y, node.z],
            None => [0, 0, 0],
        }
    }
}

/// A literal, or its complement.
pub fn turn(literal: u32, turned: bool) -> u32 {
    literal ^ u32::from(turned)
}

/// Whether a literal is that of a node's complement.
pub fn is_turned(literal: u32) -> bool {
    literal % 2 == 1
}

/// Which nodes the outputs need.
pub fn needed(alloc: Global, graph: &GraphParts) -> Result<Vec<bool>, Memory> {
    let mut marks = vec![in alloc; false; graph.count() as usize]?;
    for output in graph.outputs {
        put(&mut marks, *output / 2, true);
    }
    for number in (graph.first()..graph.count()).rev() {
        if is_marked(&marks, number) {
            let [x, y, z] = graph.node(number);
            put(&mut marks, x / 2, true);
            put(&mut marks, y / 2, true);
            put(&mut marks, z / 2, true);
        }
    }
    Ok(marks)
}

/// The uses of each node: majorities by number and operand, and then the outputs. A use is twice the number of the
/// majority, or 0 for an output, and one more where the complement is used. Constants have none, and nodes that are
/// not needed use none.
#[derive(Drop)]
pub struct UseLists {
    pub starts: Vec<u32>,
    pub users: Vec<u32>,
}

fn count_use(starts: &mut [u32], literal: u32) {
    if literal > 1 {
        add(starts, literal / 2 + 1, 1);
    }
}

fn fill_use(users: &mut [u32], next: &mut [u32], literal: u32, user: u32) {
    if literal > 1 {
        let node = literal / 2;
        put(users, at(next, node), turn(user, is_turned(literal)));
        add(next, node, 1);
    }
}

fn starts_of(alloc: Global, graph: &GraphParts, marks: &[bool]) -> Result<Vec<u32>, Memory> {
    let mut starts = vec![in alloc; 0; (graph.count() as usize).saturating_add(1)]?;
    for number in graph.first()..graph.count() {
        if is_marked(marks, number) {
            let [x, y, z] = graph.node(number);
            count_use(&mut starts, x);
            count_use(&mut starts, y);
            count_use(&mut starts, z);
        }
    }
    for output in graph.outputs {
        count_use(&mut starts, *output);
    }
    sum_up(&mut starts);
    Ok(starts)
}

fn users_of(
    alloc: Global,
    graph: &GraphParts,
    marks: &[bool],
    starts: &[u32],
) -> Result<Vec<u32>, Memory> {
    let count = at(starts, graph.count());
    let mut users = vec![in alloc; 0; count as usize]?;
    let mut next = Vec::from_slice(alloc, starts)?;
    for number in graph.first()..graph.count() {
        if is_marked(marks, number) {
            let user = number.saturating_mul(2);
            let [x, y, z] = graph.node(number);
            fill_use(&mut users, &mut next, x, user);
            fill_use(&mut users, &mut next, y, user);
            fill_use(&mut users, &mut next, z, user);
        }
    }
    for output in graph.outputs {
        fill_use(&mut users, &mut next, *output, 0);
    }
    Ok(users)
}

impl UseLists {
    /// The uses of a graph of which these nodes are needed.
    pub fn new(alloc: Global, graph: &GraphParts, marks: &[bool]) -> Result<UseLists, Memory> {
        let starts = starts_of(alloc, graph, marks)?;
        let users = users_of(alloc, graph, marks, &starts)?;
        Ok(UseLists { starts, users })
    }

    /// The uses of a node.
    pub fn of(&self, node: u32) -> &[u32] {
        let end = at(&self.starts, node.saturating_add(1));
        between(&self.users, at(&self.starts, node), end)
    }
}
