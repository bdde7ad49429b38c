// The least word on which two functions differ.
ghost use Rattle.std.specs.Prelude.{◌≡◌, ◌<◌, length, IfOk};
ghost use Rattle.decide.specs.Code.Diagrams.{inputs_of, edge_value};
ghost use Rattle.decide.specs.Code.Least.{IsLeastWord};

use crate::diagram::Diagram;
use crate::edge::{Edge, same_edge};
use aq_base::{List, Memory};
use circuit::Word;
use std::alloc::Global;

impl Diagram {
    /// The least word, in the variable order, on which two functions differ that are not the same edge: one walk down
    /// from both, to the low cofactors wherever these differ.
    pub fn least_word(
        &self,
        alloc: Global,
        inputs: u32,
        first: Edge,
        second: Edge,
    ) -> Result<Word, Memory>
        requires inputs { inputs ≡ inputs_of self.now.table.nodes.keys }
        requires first { first.node < length self.now.table.nodes.keys }
        requires second { second.node < length self.now.table.nodes.keys }
        requires differ { first ≡ second → ⊥ }
        ensures { IfOk result (IsLeastWord inputs
            (λ x. edge_value self.now.table.nodes.keys x first) (λ x. edge_value self.now.table.nodes.keys x second)) }
    {
        let mut word = List::new(alloc);
        let (mut f, mut g) = (first, second);
        for input in 0..inputs {
            let same = same_edge(
                self.cofactor(f, input, false),
                self.cofactor(g, input, false),
            );
            f = self.cofactor(f, input, same);
            g = self.cofactor(g, input, same);
            word.push(same)?;
        }
        Ok(word)
    }
}
