// A window: nodes that up to six leaves determine, with their tables.
use crate::fanouts::Fanouts;
use crate::leaves::{Cone, MOST_LEAVES, Marks};
use aq_base::Memory;
use mig::{Graph, Node};
use mig_replace::majority_of;
use std::alloc::Global;
use truth_tables::{majority_table, mask, signed};

/// How many nodes a window has at most.
const MOST_MEMBERS: usize = 100;

/// How many users of a node are looked at.
const MOST_USERS: usize = 24;

/// A node, and its table over the leaves.
#[derive(Clone, Copy)]
pub(crate) struct Member {
    pub node: u32,
    pub table: u64,
}

/// The leaves of a node's window, the node's table over them, and other nodes that they determine, leaves among them,
/// none of which is made of the node.
#[derive(Drop)]
pub(crate) struct Window {
    pub leaves: Vec<u32>,
    pub members: Vec<Member>,
    pub target: u64,
}

/// The table of an operand, if it is a constant or belongs to the window.
fn operand_table(members: &[Member], marks: &Marks, operand: u32, of: u32) -> Option<u64> {
    if operand < 2 {
        return Some(signed(operand, 0));
    }
    match marks.place(operand / 2, of) {
        Some(place) => match members.get(place) {
            Some(member) => Some(signed(operand, member.table)),
            None => None,
        },
        None => None,
    }
}

/// The table of a majority, if its operands are constants or belong to the window.
fn node_table(members: &[Member], marks: &Marks, node: Node, of: u32) -> Option<u64> {
    let x = operand_table(members, marks, node.x, of)?;
    let y = operand_table(members, marks, node.y, of)?;
    let z = operand_table(members, marks, node.z, of)?;
    Some(majority_table(x, y, z))
}

impl Window {
    /// One more node.
    fn add(&mut self, marks: &mut Marks, of: u32, node: u32, table: u64) -> Result<(), Memory> {
        marks.set_place(node, of, self.members.len());
        self.members.push(Member { node, table })?;
        Ok(())
    }

    /// The leaves, and the nodes between them and the window's node.
    fn add_cone(
        &mut self,
        graph: &Graph,
        marks: &mut Marks,
        of: u32,
        inner: &[u32],
    ) -> Result<(), Memory> {
        for place in 0..MOST_LEAVES {
            if let Some(leaf) = self.leaves.get(place).copied() {
                self.add(marks, of, leaf, mask(place))?;
            }
        }
        for node in inner {
            if let Some(operands) = majority_of(graph, *node) {
                let table = node_table(self.members.as_slice(), marks, operands, of).unwrap_or(0);
                if *node == of {
                    self.target = table;
                } else {
                    self.add(marks, of, *node, table)?;
                }
            }
        }
        Ok(())
    }

    /// A user of a member that comes before the window's node, if the window determines it.
    fn add_user(
        &mut self,
        graph: &Graph,
        marks: &mut Marks,
        of: u32,
        user: u32,
    ) -> Result<(), Memory> {
        if user >= of || marks.has(user, of) {
            return Ok(());
        }
        if let Some(operands) = majority_of(graph, user) {
            if let Some(table) = node_table(self.members.as_slice(), marks, operands, of) {
                self.add(marks, of, user, table)?;
            }
        }
        Ok(())
    }

    /// Users of members, and their users in turn.
    fn add_users(
        &mut self,
        graph: &Graph,
        fanouts: &Fanouts,
        marks: &mut Marks,
        of: u32,
    ) -> Result<(), Memory> {
        for place in 0..MOST_MEMBERS {
            let Some(member) = self.members.get(place).copied() else {
                break;
            };
            let users = fanouts.of(member.node);
            for user in users.get(..MOST_USERS).unwrap_or(users) {
                if self.members.len() < MOST_MEMBERS {
                    self.add_user(graph, marks, of, *user)?;
                }
            }
        }
        Ok(())
    }

    /// The window of a node.
    pub(crate) fn new(
        alloc: Global,
        graph: &Graph,
        fanouts: &Fanouts,
        marks: &mut Marks,
        node: u32,
    ) -> Result<Window, Memory> {
        let cone = Cone::new(alloc, graph, marks, node)?;
        let inner = cone.inner;
        let mut window = Window {
            leaves: cone.leaves,
            members: Vec::new(alloc),
            target: 0,
        };
        window.add_cone(graph, marks, node, inner.as_slice())?;
        window.add_users(graph, fanouts, marks, node)?;
        Ok(window)
    }
}
