// The least word, in the inputs' own order, on which two functions of a diagram in another variable order differ.
ghost use Rattle.std.specs.Prelude.{◌≡◌, ◌<◌, ℕ, List, length, cond, slice_index_or, IfOk};
ghost use Rattle.decide.specs.Code.Diagrams.{inputs_of, edge_value};
ghost use Rattle.decide.specs.Code.Grown.{Grows, Represents};
ghost use Rattle.decide.specs.Code.Combined.{both_true, differs_at, low_part};
ghost use Rattle.decide.specs.Code.Orders.{IsOrder, arranged};
ghost use Rattle.decide.specs.Code.Least.{IsLeastWord};

use crate::DecideRefusal;
use crate::diagram::Diagram;
use crate::edge::{Edge, FALSE, TRUE, Triple, same_edge};
use circuit::Word;
use std::alloc::Global;

/// The first function where `side` is true, else the second one.
fn select(side: bool, first: Edge, second: Edge) -> Edge
    ensures { result ≡ cond side first second }
{
    if side { first } else { second }
}

impl Diagram {
    /// The conjunction of two functions: their majority with false.
    fn conjunction(
        &mut self,
        alloc: Global,
        first: Edge,
        second: Edge,
    ) -> Result<Edge, DecideRefusal>
        requires first { first.node < length self.old.table.nodes.keys }
        requires second { second.node < length self.old.table.nodes.keys }
        ensures grows { Grows self.old.table.nodes.keys self.new.table.nodes.keys }
        ensures has { IfOk result
            (Represents self.new.table.nodes.keys 0 (both_true self.old.table.nodes.keys first second)) }
    {
        let operands = Triple {
            first,
            second,
            third: FALSE,
        };
        self.majority(alloc, operands)
    }

    /// The function that is true where two functions differ: where neither both of them nor both complements are true.
    fn difference(
        &mut self,
        alloc: Global,
        first: Edge,
        second: Edge,
    ) -> Result<Edge, DecideRefusal>
        requires first { first.node < length self.old.table.nodes.keys }
        requires second { second.node < length self.old.table.nodes.keys }
        ensures grows { Grows self.old.table.nodes.keys self.new.table.nodes.keys }
        ensures has { IfOk result
            (Represents self.new.table.nodes.keys 0 (differs_at self.old.table.nodes.keys first second)) }
    {
        let both = self.conjunction(alloc, first, second)?;
        let neither = self.conjunction(alloc, first.complement(), second.complement())?;
        self.conjunction(alloc, both.complement(), neither.complement())
    }

    /// A function where the variable at a level is false, and false elsewhere.
    fn low_part(&mut self, alloc: Global, function: Edge, level: u32) -> Result<Edge, DecideRefusal>
        requires inside { function.node < length self.old.table.nodes.keys }
        requires level { level < inputs_of self.old.table.nodes.keys }
        ensures grows { Grows self.old.table.nodes.keys self.new.table.nodes.keys }
        ensures has { IfOk result
            (Represents self.new.table.nodes.keys 0 (low_part self.old.table.nodes.keys function level)) }
    {
        let variable = self.choice(level, FALSE, TRUE)?;
        self.conjunction(alloc, function, variable.complement())
    }

    /// The least word, in the inputs' own order, on which two functions differ that are not the same edge. `rank` gives
    /// each input's level. The function that is true where the two differ is narrowed input by input, to the words in
    /// which the input is false wherever there is one.
    pub fn least_word_in(
        &mut self,
        alloc: Global,
        rank: &[u32],
        first: Edge,
        second: Edge,
    ) -> Result<Word, DecideRefusal>
        requires inputs { length rank.now ≡ inputs_of self.old.table.nodes.keys }
        requires levels { (k : ℕ) → k < length rank.now → slice_index_or rank.now k 0 < length rank.now }
        requires first { first.node < length self.old.table.nodes.keys }
        requires second { second.node < length self.old.table.nodes.keys }
        requires differ { first ≡ second → ⊥ }
        ensures { (order : List ℕ) → IsOrder (length rank.now) order rank.now → IsOrder (length rank.now) rank.now order
            → IfOk result (IsLeastWord (length rank.now)
            (λ x. edge_value self.old.table.nodes.keys (arranged order x) first)
            (λ x. edge_value self.old.table.nodes.keys (arranged order x) second)) }
    {
        let mut word = Word::new(alloc);
        let mut narrowed = self.difference(alloc, first, second)?;
        for input in 0..rank.len() {
            let low = self.low_part(alloc, narrowed, rank[input])?;
            let side = same_edge(low, FALSE);
            narrowed = select(side, narrowed, low);
            word.push(side)?;
        }
        Ok(word)
    }
}
