// The leaves of a window: up to six nodes that determine a node, found by going back where few leaves are added.
use aq_base::Memory;
use mig::{Graph, Node};
use mig_replace::majority_of;
use std::alloc::Global;

/// How many leaves a window has at most.
pub(crate) const MOST_LEAVES: usize = 6;

/// How many nodes are between a node and its leaves at most.
const MOST_INNER: usize = 48;

/// A mark for each node: the last node to whose window it belongs, and its place there.
#[derive(Clone, Copy)]
struct Mark {
    of: u32,
    place: u32,
}

/// The marks of all nodes. So a window is found in time of its own size.
#[derive(Drop)]
pub(crate) struct Marks {
    marks: Vec<Mark>,
}

impl Marks {
    /// Marks of no window.
    pub(crate) fn new(alloc: Global, total: usize) -> Result<Marks, Memory> {
        let none = Mark {
            of: 0,
            place: u32::MAX,
        };
        Ok(Marks {
            marks: vec![in alloc; none; total]?,
        })
    }

    /// Whether a node belongs to the window of another.
    pub(crate) fn has(&self, node: u32, of: u32) -> bool {
        match self.marks.get(node as usize) {
            Some(mark) => mark.of == of,
            None => false,
        }
    }

    /// The place of a node in the window of another.
    pub(crate) fn place(&self, node: u32, of: u32) -> Option<usize> {
        match self.marks.get(node as usize) {
            Some(mark) if mark.of == of && mark.place < u32::MAX => Some(mark.place as usize),
            _ => None,
        }
    }

    /// A node belongs to the window of another, as yet without a place.
    pub(crate) fn add(&mut self, node: u32, of: u32) {
        let at = node as usize;
        if at < self.marks.len() {
            self.marks[at] = Mark {
                of,
                place: u32::MAX,
            };
        }
    }

    /// The place of a node in the window of another.
    pub(crate) fn set_place(&mut self, node: u32, of: u32, place: usize) {
        let at = node as usize;
        if at < self.marks.len() {
            self.marks[at] = Mark {
                of,
                place: u32::try_from(place).unwrap_or(u32::MAX),
            };
        }
    }
}

/// The leaves of a node's window, and the nodes between them and the node, itself among them.
#[derive(Drop)]
pub(crate) struct Cone {
    pub leaves: Vec<u32>,
    pub inner: Vec<u32>,
}

/// Whether an operand would be one more leaf: it is no constant, and not there.
fn is_more(marks: &Marks, operand: u32, of: u32) -> bool {
    operand >= 2 && !marks.has(operand / 2, of)
}

/// How many leaves a majority in place of a leaf would add.
fn more_leaves(marks: &Marks, node: Node, of: u32) -> usize {
    let mut more = 0usize;
    for operand in [node.x, node.y, node.z] {
        if is_more(marks, operand, of) {
            more = more.saturating_add(1);
        }
    }
    more
}

/// The place of the leaf in whose place its operands add fewest leaves, if some leaf has room for that; of such leaves
/// the last node.
fn next_place(graph: &Graph, marks: &Marks, leaves: &[u32], of: u32) -> Option<usize> {
    let mut best: Option<usize> = None;
    let mut fewest = usize::MAX;
    let mut last = 0u32;
    for (place, leaf) in leaves.iter().enumerate() {
        if let Some(node) = majority_of(graph, *leaf) {
            let more = more_leaves(marks, node, of);
            let has_room = leaves.len().saturating_add(more) <= MOST_LEAVES + 1;
            if has_room && (more < fewest || (more == fewest && *leaf > last)) {
                best = Some(place);
                fewest = more;
                last = *leaf;
            }
        }
    }
    best
}

impl Cone {
    /// An operand is a leaf, if it is no constant and not there.
    fn add_leaf(&mut self, marks: &mut Marks, operand: u32, of: u32) -> Result<(), Memory> {
        if is_more(marks, operand, of) {
            marks.add(operand / 2, of);
            self.leaves.push(operand / 2)?;
        }
        Ok(())
    }

    /// A node is between the leaves and the window's node, and its operands are leaves.
    fn add_inner(
        &mut self,
        graph: &Graph,
        marks: &mut Marks,
        node: u32,
        of: u32,
    ) -> Result<(), Memory> {
        self.inner.push(node)?;
        if let Some(operands) = majority_of(graph, node) {
            self.add_leaf(marks, operands.x, of)?;
            self.add_leaf(marks, operands.y, of)?;
            self.add_leaf(marks, operands.z, of)?;
        }
        Ok(())
    }

    /// The cone of a node with at most six leaves.
    pub(crate) fn new(
        alloc: Global,
        graph: &Graph,
        marks: &mut Marks,
        node: u32,
    ) -> Result<Cone, Memory> {
        let mut cone = Cone {
            leaves: Vec::new(alloc),
            inner: Vec::new(alloc),
        };
        marks.add(node, node);
        cone.add_inner(graph, marks, node, node)?;
        for _turn in 0..MOST_INNER {
            let Some(place) = next_place(graph, marks, cone.leaves.as_slice(), node) else {
                break;
            };
            if place < cone.leaves.len() {
                let leaf = cone.leaves.remove(place);
                cone.add_inner(graph, marks, leaf, node)?;
            }
        }
        cone.inner.sort()?;
        Ok(cone)
    }
}
