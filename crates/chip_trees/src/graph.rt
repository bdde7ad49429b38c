// Graphs of majorities that are turned one by one.
use crate::numbers::{PARTS, item};
use aq_base::Memory;
use chip_search::arrays::{add, at, between, is_marked, narrow, put, sum_up};
use chip_search::graph::turn;
use chip_search::signs::Signed;
use std::alloc::Global;

/// A graph of the majorities that its outputs need, each kept or turned. Node 0 is the constant false, nodes 1 to
/// `inputs` are the inputs, and the majorities follow, each after its operands. What has a place in a row is an item:
/// a node by its number, or an output by its number after those of all nodes. Each majority has three pins, and each
/// output has one; they are numbered in this order.
#[derive(Drop)]
pub(crate) struct TurnedGraph {
    pub(crate) inputs: u32,
    pub(crate) majorities: u32,
    pub(crate) outputs: u32,
    /// How many nodes the graph has that was given.
    pub(crate) given: u32,
    /// The literal that each pin wants.
    pub(crate) literals: Vec<u32>,
    /// What each node shows, as a literal of the graph that was given.
    pub(crate) shown: Vec<u32>,
    starts: Vec<u32>,
    pins: Vec<u32>,
}

/// The item of a pin, and the pin's number at that item.
#[derive(Clone, Copy)]
pub(crate) struct PinPlace {
    pub(crate) item: u32,
    pub(crate) pin: u32,
}

impl PinPlace {
    /// How far to the right of the item's position the pin stands.
    pub(crate) fn offset(self) -> i32 {
        match self.pin {
            0 => 0,
            1 => PARTS,
            _ => 2 * PARTS,
        }
    }
}

/// The numbers of the nodes that are needed, by those that they were given.
fn numbers_of(alloc: Global, signed: &Signed) -> Result<(Vec<u32>, u32), Memory> {
    let parts = signed.parts();
    let mut numbers = vec![in alloc; 0; parts.count() as usize]?;
    let mut next: u32 = 0;
    for node in 0..parts.count() {
        if node < parts.first() || is_marked(&signed.marks, node) {
            put(&mut numbers, node, next);
            next = next.saturating_add(1);
        }
    }
    Ok((numbers, next))
}

/// A literal by new numbers of nodes.
fn renumbered(numbers: &[u32], literal: u32) -> u32 {
    let node = at(numbers, literal / 2);
    turn(node.saturating_mul(2), literal % 2 == 1)
}

/// The literals of all pins, by new numbers of nodes.
fn literals_of(alloc: Global, signed: &Signed, numbers: &[u32]) -> Result<Vec<u32>, Memory> {
    let parts = signed.parts();
    let mut literals = Vec::new(alloc);
    for node in parts.first()..parts.count() {
        if is_marked(&signed.marks, node) {
            for literal in parts.node(node) {
                literals.push(renumbered(numbers, literal))?;
            }
        }
    }
    for literal in &signed.outputs {
        literals.push(renumbered(numbers, *literal))?;
    }
    Ok(literals)
}

/// What the needed nodes show.
fn shown_by(alloc: Global, signed: &Signed) -> Result<Vec<u32>, Memory> {
    let parts = signed.parts();
    let mut shown = Vec::new(alloc);
    for node in 0..parts.count() {
        if node < parts.first() || is_marked(&signed.marks, node) {
            shown.push(signed.label(node))?;
        }
    }
    Ok(shown)
}

/// The first use of each node, and how many uses there are.
fn starts_of(alloc: Global, literals: &[u32], count: u32) -> Result<Vec<u32>, Memory> {
    let mut starts = vec![in alloc; 0; (count as usize).saturating_add(1)]?;
    for literal in literals {
        if *literal > 1 {
            add(&mut starts, literal / 2 + 1, 1);
        }
    }
    sum_up(&mut starts);
    Ok(starts)
}

/// The pins that use each node.
fn pins_of(
    alloc: Global,
    literals: &[u32],
    starts: &[u32],
    count: u32,
) -> Result<Vec<u32>, Memory> {
    let mut pins = vec![in alloc; 0; at(starts, count) as usize]?;
    let mut next = Vec::from_slice(alloc, starts)?;
    let mut pin: u32 = 0;
    for literal in literals {
        if *literal > 1 {
            put(&mut pins, at(&next, literal / 2), pin);
            add(&mut next, literal / 2, 1);
        }
        pin = pin.saturating_add(1);
    }
    Ok(pins)
}

impl TurnedGraph {
    /// The graph of the nodes that are needed.
    pub(crate) fn new(alloc: Global, signed: &Signed) -> Result<TurnedGraph, Memory> {
        let (numbers, count) = numbers_of(alloc, signed)?;
        let literals = literals_of(alloc, signed, &numbers)?;
        let starts = starts_of(alloc, &literals, count)?;
        let pins = pins_of(alloc, &literals, &starts, count)?;
        Ok(TurnedGraph {
            inputs: signed.inputs,
            majorities: count.saturating_sub(signed.parts().first()),
            outputs: narrow(signed.outputs.len()),
            given: signed.parts().count(),
            literals,
            shown: shown_by(alloc, signed)?,
            starts,
            pins,
        })
    }

    /// The same graph once more.
    pub(crate) fn copy(&self, alloc: Global) -> Result<TurnedGraph, Memory> {
        Ok(TurnedGraph {
            inputs: self.inputs,
            majorities: self.majorities,
            outputs: self.outputs,
            given: self.given,
            literals: Vec::from_slice(alloc, &self.literals)?,
            shown: Vec::from_slice(alloc, &self.shown)?,
            starts: Vec::from_slice(alloc, &self.starts)?,
            pins: Vec::from_slice(alloc, &self.pins)?,
        })
    }

    /// The number of the first majority.
    pub(crate) fn first(&self) -> u32 {
        self.inputs.saturating_add(1)
    }

    /// How many nodes there are: the number of the first output among the items.
    pub(crate) fn count(&self) -> u32 {
        self.first().saturating_add(self.majorities)
    }

    /// How many items there are.
    pub(crate) fn items(&self) -> u32 {
        self.count().saturating_add(self.outputs)
    }

    /// How many pins there are.
    pub(crate) fn pin_count(&self) -> u32 {
        narrow(self.literals.len())
    }

    /// The pins that use a node.
    pub(crate) fn uses(&self, node: u32) -> &[u32] {
        let end = at(&self.starts, node.saturating_add(1));
        between(&self.pins, at(&self.starts, node), end)
    }

    /// The pin of a use of a node.
    pub(crate) fn use_pin(&self, node: u32, number: u32) -> u32 {
        at(self.uses(node), number)
    }

    /// Where a pin stands.
    pub(crate) fn place(&self, pin: u32) -> PinPlace {
        let outputs = self.majorities.saturating_mul(3);
        if pin < outputs {
            PinPlace {
                item: self.first().saturating_add(pin / 3),
                pin: pin % 3,
            }
        } else {
            let output = pin.saturating_sub(outputs);
            PinPlace {
                item: self.count().saturating_add(output),
                pin: 0,
            }
        }
    }

    /// The first pin of a majority.
    pub(crate) fn first_pin(&self, majority: u32) -> u32 {
        majority.saturating_sub(self.first()).saturating_mul(3)
    }

    /// The pin of an output.
    pub(crate) fn output_pin(&self, output: u32) -> u32 {
        self.majorities.saturating_mul(3).saturating_add(output)
    }

    /// The literals of a majority.
    pub(crate) fn operands(&self, majority: u32) -> [u32; 3] {
        let pin = self.first_pin(majority);
        [
            at(&self.literals, pin),
            at(&self.literals, pin.saturating_add(1)),
            at(&self.literals, pin.saturating_add(2)),
        ]
    }

    /// What a node shows.
    pub(crate) fn label(&self, node: u32) -> u32 {
        item(&self.shown, node, 0)
    }

    /// Turns a majority: its literals and its uses. A majority of complements is the complement of the majority, so
    /// that each output shows what it did.
    pub(crate) fn flip(&mut self, majority: u32) {
        let first = self.first_pin(majority);
        for pin in first..first.saturating_add(3) {
            turn_pin(&mut self.literals, pin);
        }
        let start = at(&self.starts, majority);
        let end = at(&self.starts, majority.saturating_add(1));
        for pin in between(&self.pins, start, end) {
            turn_pin(&mut self.literals, *pin);
        }
        turn_pin(&mut self.shown, majority);
    }
}

/// Turns the literal at an index.
fn turn_pin(literals: &mut [u32], index: u32) {
    let literal = at(literals, index);
    put(literals, index, turn(literal, true));
}
