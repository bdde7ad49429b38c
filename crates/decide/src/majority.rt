// The majority of three functions, from the majorities of their cofactors: Shannon's expansion by the first variable
// that one of them reads, with an explicit stack in the place of a recursion.
ghost use Rattle.std.specs.Prelude.{◌≡◌, ◌<◌, ◌++◌, ◌∷◌, [], ℕ, Bool, List, length, reverse, IfOk, IfErr, Some};
ghost use Rattle.circuit.specs.PlainNets.{PlainView};
ghost use Rattle.decide.specs.Code.Diagrams.{inputs_of, majority_value};
ghost use Rattle.decide.specs.Code.Grown.{Grows, Represents, IsFull};
ghost use Rattle.decide.specs.Code.Named.{IsNamed, AreNamed};
ghost use Rattle.decide.specs.Code.Majorities.{AreEdges, Awaits, Waits, Joins};
ghost use Rattle.decide.specs.Code.Turns.{turns_left};
ghost use Rattle.decide.specs.declared.majority.Turn.TheVariants as turn;

use crate::DecideRefusal;
use crate::diagram::Diagram;
use crate::edge::{Edge, Triple};
use aq_base::Memory;
use std::alloc::Global;

/// A majority of which a cofactor is being made.
#[derive(Clone, Copy)]
pub struct Frame {
    pub operands: Triple,
    /// The level of the variable that chooses between its cofactors.
    pub level: u32,
    /// The cofactor where the variable is false, once it is made. Then the other one is being made.
    pub low: Option<Edge>,
}

/// What comes next: a majority is to be made, or was made.
#[derive(Clone, Copy)]
pub enum Turn {
    Make(Triple),
    Made(Edge),
}

impl Diagram {
    /// Gives a majority that is known, or pushes a frame for it and goes on to its low cofactor.
    fn make(&self, stack: &mut Vec<Frame>, operands: Triple) -> Result<Turn, Memory>
        requires { AreEdges self.now.table.nodes.keys operands }
        ensures waits { (last : List Bool → Bool)
            → Waits self.now.table.nodes.keys stack.old.items (turn.Make operands) last
            → IfOk result (λ t. Waits self.now.table.nodes.keys stack.new.items t last) }
        ensures falls { IfOk result (λ t. turns_left self.now.table.nodes.keys stack.new.items t
            < turns_left self.now.table.nodes.keys stack.old.items (turn.Make operands)) }
    {
        if let Some(edge) = self.simple(operands) {
            return Ok(Turn::Made(edge));
        }
        if let Some(edge) = self.remembered(operands) {
            return Ok(Turn::Made(edge));
        }
        let level = self.least_level(operands);
        stack.push(Frame {
            operands,
            level,
            low: None,
        })?;
        Ok(Turn::Make(self.cofactors(operands, level, false)))
    }

    /// The majority of a frame, from its two cofactors, which is remembered.
    fn join(
        &mut self,
        alloc: Global,
        frame: Frame,
        low: Edge,
        high: Edge,
    ) -> Result<Edge, DecideRefusal>
        requires low { frame.low ≡ Some low }
        requires joins { Joins self.old.table.nodes.keys frame high }
        ensures grows { Grows self.old.table.nodes.keys self.new.table.nodes.keys }
        ensures has { IfOk result
            (Represents self.new.table.nodes.keys frame.level
            (majority_value self.old.table.nodes.keys frame.operands)) }
        ensures named { (a b : PlainView) → AreNamed a b self.old.table.nodes.keys
            → IsNamed a b (majority_value self.old.table.nodes.keys frame.operands)
            → AreNamed a b self.new.table.nodes.keys }
        ensures full { IfErr result (IsFull self.new.table.nodes.keys) }
    {
        let edge = self.choice(frame.level, low, high)?;
        self.remember(alloc, frame.operands, edge)?;
        Ok(edge)
    }

    /// Takes a cofactor of a frame: goes on to the high one where it is the low one, else joins the two.
    fn give(
        &mut self,
        alloc: Global,
        stack: &mut Vec<Frame>,
        frame: Frame,
        edge: Edge,
    ) -> Result<Turn, DecideRefusal>
        requires { Joins self.old.table.nodes.keys frame edge }
        ensures grows { Grows self.old.table.nodes.keys self.new.table.nodes.keys }
        ensures waits { (last : List Bool → Bool)
            → Awaits self.old.table.nodes.keys (reverse stack.old.items) frame.level
            (majority_value self.old.table.nodes.keys frame.operands) last
            → IfOk result (λ t. Waits self.new.table.nodes.keys stack.new.items t last) }
        ensures falls { IfOk result (λ t. turns_left self.new.table.nodes.keys stack.new.items t
            < turns_left self.old.table.nodes.keys (stack.old.items ++ frame ∷ []) (turn.Made edge)) }
        ensures named { (a b : PlainView) → AreNamed a b self.old.table.nodes.keys
            → IsNamed a b (majority_value self.old.table.nodes.keys frame.operands)
            → AreNamed a b self.new.table.nodes.keys }
        ensures full { IfErr result (IsFull self.new.table.nodes.keys) }
    {
        match frame.low {
            None => {
                stack.push(Frame {
                    operands: frame.operands,
                    level: frame.level,
                    low: Some(edge),
                })?;
                Ok(Turn::Make(self.cofactors(frame.operands, frame.level, true)))
            }
            Some(low) => {
                let joined = self.join(alloc, frame, low, edge)?;
                Ok(Turn::Made(joined))
            }
        }
    }

    /// The majority of three functions. Each turn of the loop leaves fewer turns.
    pub fn majority(&mut self, alloc: Global, operands: Triple) -> Result<Edge, DecideRefusal>
        requires { AreEdges self.old.table.nodes.keys operands }
        ensures grows { Grows self.old.table.nodes.keys self.new.table.nodes.keys }
        ensures has { IfOk result
            (Represents self.new.table.nodes.keys 0 (majority_value self.old.table.nodes.keys operands)) }
        ensures named { (a b : PlainView) → inputs_of self.old.table.nodes.keys ≡ a.inputs
            → AreNamed a b self.old.table.nodes.keys
            → IsNamed a b (majority_value self.old.table.nodes.keys operands) → AreNamed a b self.new.table.nodes.keys }
        ensures full { IfErr result (IsFull self.new.table.nodes.keys) }
    {
        let mut stack = Vec::new(alloc);
        let mut turn = Turn::Make(operands);
        loop {
            turn = match turn {
                Turn::Make(triple) => self.make(&mut stack, triple)?,
                Turn::Made(edge) => match stack.pop() {
                    None => return Ok(edge),
                    Some(frame) => self.give(alloc, &mut stack, frame, edge)?,
                },
            };
        }
    }
}
