// Cuts of up to four leaves. Nothing depends on them: what a node computes from leaves is found where a cut is used.
use aq_base::Memory;
use mig::{Builder, Graph, Node};
use std::alloc::Global;

/// How many cuts a node keeps for its users.
const CUTS: usize = 10;

/// Up to four nodes by rising number, and the table of a node over them.
#[derive(Clone, Copy)]
pub(crate) struct Cut {
    pub leaves: [u32; 4],
    pub count: usize,
    pub table: u16,
}

impl Cut {
    /// The cut of a node by itself.
    fn own(node: u32) -> Cut {
        Cut {
            leaves: [node, 0, 0, 0],
            count: 1,
            table: 0xAAAA,
        }
    }

    /// The cut without leaves.
    fn none() -> Cut {
        Cut {
            leaves: [0; 4],
            count: 0,
            table: 0,
        }
    }

    /// The leaf at a place, and 0 past the last one.
    pub(crate) fn leaf(&self, place: usize) -> u32 {
        if place < self.count {
            self.leaves.get(place).copied().unwrap_or(0)
        } else {
            0
        }
    }

    fn has_leaf(&self, leaf: u32) -> bool {
        for place in 0..4usize {
            if place < self.count && self.leaf(place) == leaf {
                return true;
            }
        }
        false
    }

    /// Whether each leaf is one of another cut.
    fn is_within(&self, other: &Cut) -> bool {
        for place in 0..4usize {
            if place < self.count && !other.has_leaf(self.leaf(place)) {
                return false;
            }
        }
        true
    }

    /// The place of a leaf.
    fn place_of(&self, leaf: u32) -> u32 {
        if self.leaves[0] == leaf {
            0
        } else if self.leaves[1] == leaf {
            1
        } else if self.leaves[2] == leaf {
            2
        } else {
            3
        }
    }

    /// The table over the leaves of a cut that has these leaves and maybe more.
    fn table_over(&self, onto: &Cut) -> u16 {
        let places = [
            onto.place_of(self.leaves[0]),
            onto.place_of(self.leaves[1]),
            onto.place_of(self.leaves[2]),
            onto.place_of(self.leaves[3]),
        ];
        let mut table = 0u16;
        for row in 0..16u32 {
            let mut from = 0u32;
            for place in 0..4usize {
                if place < self.count {
                    let bit = (row >> (places[place] % 4)) & 1;
                    from |= bit << (place % 4);
                }
            }
            if bit_at(self.table, from) {
                table |= 1 << row;
            }
        }
        table
    }
}

/// The bit of a table at a place.
pub(crate) fn bit_at(table: u16, place: u32) -> bool {
    (table >> (place % 16)) & 1 == 1
}

/// The leaves with one more, in order.
fn with_leaf(leaves: [u32; 4], count: usize, leaf: u32) -> [u32; 4] {
    let mut more = leaves;
    let mut moving = leaf;
    for place in 0..4usize {
        if place >= count {
            more[place] = moving;
            return more;
        }
        if moving < more[place] {
            let next = more[place];
            more[place] = moving;
            moving = next;
        }
    }
    more
}

/// The leaves of two cuts, if they are four at most.
fn union(one: &Cut, other: &Cut) -> Option<Cut> {
    let mut all = *one;
    for place in 0..4usize {
        if place < other.count && !all.has_leaf(other.leaf(place)) {
            if all.count >= 4 {
                return None;
            }
            all.leaves = with_leaf(all.leaves, all.count, other.leaf(place));
            all.count = all.count.saturating_add(1);
        }
    }
    Some(all)
}

fn signed(literal: u32, table: u16) -> u16 {
    if literal % 2 == 1 { !table } else { table }
}

/// Whether a cut has all leaves of one of these.
fn has_less(cuts: &[Cut], cut: &Cut) -> bool {
    for other in cuts {
        if other.is_within(cut) {
            return true;
        }
    }
    false
}

/// The cuts of three operands.
#[derive(Clone, Copy)]
struct Operands<'a> {
    node: Node,
    x: &'a [Cut],
    y: &'a [Cut],
    z: &'a [Cut],
}

/// The cut of a majority by cuts of its operands, which has these leaves.
fn joined(node: Node, one: &Cut, two: &Cut, three: &Cut, all: Cut) -> Cut {
    let x = signed(node.x, one.table_over(&all));
    let y = signed(node.y, two.table_over(&all));
    let z = signed(node.z, three.table_over(&all));
    Cut {
        leaves: all.leaves,
        count: all.count,
        table: (x & y) | (x & z) | (y & z),
    }
}

/// Adds the joins of two cuts with each of the third operand.
fn push_joins(
    found: &mut Vec<Cut>,
    operands: &Operands,
    one: &Cut,
    two: &Cut,
) -> Result<(), Memory> {
    let Some(both) = union(one, two) else {
        return Ok(());
    };
    for three in operands.z {
        if let Some(all) = union(&both, three) {
            if !has_less(found.as_slice(), &all) {
                found.push(joined(operands.node, one, two, three, all))?;
            }
        }
    }
    Ok(())
}

/// The joins of the cuts of three operands.
fn joins(alloc: Global, operands: &Operands) -> Result<Vec<Cut>, Memory> {
    let mut found: Vec<Cut> = Vec::new(alloc);
    for one in operands.x {
        for two in operands.y {
            push_joins(&mut found, operands, one, two)?;
        }
    }
    Ok(found)
}

/// The cuts with the fewest leaves, of each number the first ones, without those that have all leaves of another.
fn best_cuts(alloc: Global, cuts: &[Cut], node: u32) -> Result<Vec<Cut>, Memory> {
    let mut best: Vec<Cut> = Vec::new(alloc);
    for count in 0..5usize {
        for cut in cuts {
            if cut.count == count && best.len() < CUTS && !has_less(best.as_slice(), cut) {
                best.push(*cut)?;
            }
        }
    }
    best.push(Cut::own(node))?;
    Ok(best)
}

/// The cuts of a majority of these operands that has this number.
fn cuts_of_node(
    alloc: Global,
    cuts: &AllCuts,
    node: Node,
    number: u32,
) -> Result<Vec<Cut>, Memory> {
    let operands = Operands {
        node,
        x: cuts.of(node.x / 2),
        y: cuts.of(node.y / 2),
        z: cuts.of(node.z / 2),
    };
    let found = joins(alloc, &operands)?;
    best_cuts(alloc, found.as_slice(), number)
}

/// The cuts of each node of a graph; the last one is the node by itself.
#[derive(Drop)]
pub(crate) struct AllCuts {
    alloc: Global,
    cuts: Vec<Vec<Cut>>,
}

impl AllCuts {
    /// Those of the constant and of so many inputs.
    pub(crate) fn new(alloc: Global, inputs: u32) -> Result<AllCuts, Memory> {
        let mut cuts: Vec<Vec<Cut>> = Vec::new(alloc);
        cuts.push(vec![in alloc; Cut::none(); 1]?)?;
        for input in 0..inputs {
            cuts.push(vec![in alloc; Cut::own(input.saturating_add(1)); 1]?)?;
        }
        Ok(AllCuts { alloc, cuts })
    }

    /// Those of the nodes of a graph.
    pub(crate) fn of_graph(alloc: Global, graph: &Graph) -> Result<AllCuts, Memory> {
        let mut cuts = AllCuts::new(alloc, graph.inputs())?;
        for node in graph.nodes() {
            let number = u32::try_from(cuts.cuts.len()).unwrap_or(0);
            let found = cuts_of_node(alloc, &cuts, *node, number)?;
            cuts.cuts.push(found)?;
        }
        Ok(cuts)
    }

    /// The cuts of a node.
    pub(crate) fn of(&self, node: u32) -> &[Cut] {
        match self.cuts.get(node as usize) {
            Some(found) => found.as_slice(),
            None => &[],
        }
    }

    /// Takes in the nodes that are new in a graph that grows.
    pub(crate) fn grow(&mut self, builder: &Builder) -> Result<(), Memory> {
        let first = (builder.inputs() as usize).saturating_add(1);
        let total = first.saturating_add(builder.node_count());
        for place in self.cuts.len()..total {
            let number = u32::try_from(place).unwrap_or(0);
            if let Some(node) = builder.operands(number.saturating_mul(2)) {
                let found = cuts_of_node(self.alloc, self, node, number)?;
                self.cuts.push(found)?;
            }
        }
        Ok(())
    }
}
