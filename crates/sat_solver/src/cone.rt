// The cone of the literals that a search is about.
use crate::Work;
use aq_base::Memory;
use mig::Builder;
use std::alloc::Global;

/// A majority of the cone as the user of an operand, and the place of the operand's next user, counted from 1.
#[derive(Clone, Copy)]
pub(crate) struct Use {
    pub(crate) user: u32,
    pub(crate) next: u32,
}

/// Which nodes are in the cone.
#[derive(Clone, Copy, PartialEq, Eq)]
enum Seat {
    Outside,
    /// A majority past the limit, whose own operands are not looked at.
    Fringe,
    Inside,
}

/// Nodes below some literals, and for each the majorities of the cone that use it. Tables over all nodes are cleared at
/// the nodes that were touched alone.
#[derive(Drop)]
pub(crate) struct Cone {
    seats: Vec<Seat>,
    first_uses: Vec<u32>,
    touched: Vec<u32>,
    uses: Vec<Use>,
    majorities: u32,
}

impl Cone {
    /// No nodes.
    pub(crate) fn new(alloc: Global) -> Cone {
        Cone {
            seats: Vec::new(alloc),
            first_uses: Vec::new(alloc),
            touched: Vec::new(alloc),
            uses: Vec::new(alloc),
            majorities: 0,
        }
    }

    /// Makes room for so many nodes.
    pub(crate) fn grow(&mut self, nodes: usize) -> Result<(), Memory> {
        for _ in self.seats.len()..nodes {
            self.seats.push(Seat::Outside)?;
            self.first_uses.push(0)?;
        }
        Ok(())
    }

    /// Whether a node is in the cone.
    pub(crate) fn has(&self, node: u32) -> bool {
        self.seats
            .get(node as usize)
            .copied()
            .unwrap_or(Seat::Outside)
            == Seat::Inside
    }

    /// Whether a node is in the cone, or an operand of one that is.
    pub(crate) fn touches(&self, node: u32) -> bool {
        self.seats
            .get(node as usize)
            .copied()
            .unwrap_or(Seat::Outside)
            != Seat::Outside
    }

    /// The nodes that were touched, which the cone has all.
    pub(crate) fn nodes(&self) -> &[u32] {
        self.touched.as_slice()
    }

    /// The place of the first user of a node, counted from 1, or 0.
    pub(crate) fn first_use(&self, node: u32) -> u32 {
        self.first_uses.get(node as usize).copied().unwrap_or(0)
    }

    /// The user at a place, if there is one.
    pub(crate) fn use_at(&self, place: u32) -> Option<Use> {
        self.uses.get((place as usize).checked_sub(1)?).copied()
    }

    /// Empties the cone.
    fn clear(&mut self) {
        for node in self.touched.as_slice() {
            if let Some(seat) = self.seats.get_mut(*node as usize) {
                *seat = Seat::Outside;
            }
            if let Some(first) = self.first_uses.get_mut(*node as usize) {
                *first = 0;
            }
        }
        self.touched.clear();
        self.uses.clear();
        self.majorities = 0;
    }

    /// Takes a node in, if it is not there. Node 0 is a constant, and never there.
    fn take(&mut self, graph: &Builder, node: u32, limit: u32) -> Result<(), Memory> {
        let Some(seat) = self.seats.get_mut(node as usize) else {
            return Ok(());
        };
        if node == 0 || *seat != Seat::Outside {
            return Ok(());
        }
        *seat = Seat::Inside;
        if node > graph.inputs() {
            if self.majorities >= limit {
                *seat = Seat::Fringe;
            }
            self.majorities = self.majorities.saturating_add(1);
        }
        self.touched.push(node)?;
        Ok(())
    }

    /// Writes down that a majority uses the node of a literal.
    fn link(&mut self, literal: u32, user: u32) -> Result<(), Memory> {
        if let Some(first) = self.first_uses.get_mut((literal / 2) as usize) {
            self.uses.push(Use { user, next: *first })?;
            *first = u32::try_from(self.uses.len()).unwrap_or(0);
        }
        Ok(())
    }

    /// Takes in the operands of a node, if it is a majority of the cone.
    fn open(&mut self, graph: &Builder, node: u32, limit: u32) -> Result<(), Memory> {
        if !self.has(node) {
            return Ok(());
        }
        if let Some(operands) = graph.operands(node.saturating_mul(2)) {
            for literal in [operands.x, operands.y, operands.z] {
                self.take(graph, literal / 2, limit)?;
                self.link(literal, node)?;
            }
        }
        Ok(())
    }

    /// The cone of some literals, nearest nodes first, with so many majorities at most.
    pub(crate) fn mark(
        &mut self,
        graph: &Builder,
        literals: &[u32],
        limit: u32,
        work: &mut Work,
    ) -> Result<(), Memory> {
        self.clear();
        for literal in literals {
            self.take(graph, *literal / 2, limit)?;
        }
        let mut place = 0usize;
        for _ in 0..work.left {
            let Some(node) = self.touched.get(place).copied() else {
                return Ok(());
            };
            self.open(graph, node, limit)?;
            work.pay(1);
            place = place.saturating_add(1);
        }
        Ok(())
    }
}
