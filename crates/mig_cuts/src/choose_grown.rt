// The choice of a cut and a recipe for a node of a graph that grows. Nothing depends on it but which nodes there are.
use crate::cuts::{AllCuts, Cut};
use crate::forms::{image_replacement, leaves_of};
use crate::recipes::Recipes;
use aq_base::Memory;
use mig::Graph;
use mig_replace::{
    Best, Grower, Growth, Readers, Replacement, Ties, Uses, majority_of, required_levels,
    tried_in_growth,
};
use std::alloc::Global;

/// A node whose turn it was, and the literal that it had before it.
#[derive(Clone, Copy)]
struct Turn {
    node: u32,
    literal: u32,
}

/// What is known of a graph whose nodes get other forms, and of the one that grows. There a node has one reader before
/// its turn, and afterwards one for each use that it has in the graph that was given.
#[derive(Drop)]
pub(crate) struct GrownChoices<'a> {
    recipes: &'a Recipes,
    ties: Ties,
    cuts: AllCuts,
    readers: Readers,
    uses: Uses,
    required: Vec<u32>,
    last: Option<Turn>,
}

impl<'a> GrownChoices<'a> {
    /// What is known of a graph before its first node.
    pub(crate) fn new(
        alloc: Global,
        graph: &Graph,
        recipes: &'a Recipes,
        ties: Ties,
    ) -> Result<GrownChoices<'a>, Memory> {
        Ok(GrownChoices {
            recipes,
            ties,
            cuts: AllCuts::new(alloc, graph.inputs())?,
            readers: Readers::new(alloc),
            uses: Uses::new(alloc, graph)?,
            required: required_levels(alloc, graph)?,
            last: None,
        })
    }

    /// The literal that the last node got has its readers from now on.
    fn settle(&mut self, at: &Growth) -> Result<(), Memory> {
        if let Some(turn) = self.last {
            let found = at.found.get(turn.node as usize).copied();
            let node = found.unwrap_or(turn.literal) / 2;
            let uses = self.uses.count(turn.node);
            self.readers.hold(at.alloc, at.builder, node, uses)?;
            self.readers
                .release(at.alloc, at.builder, turn.literal / 2)?;
            self.last = None;
        }
        Ok(())
    }

    /// Takes in what happened since the last call.
    fn follow(&mut self, at: &Growth) -> Result<(), Memory> {
        self.cuts.grow(at.builder)?;
        self.readers.grow(at.builder)?;
        self.settle(at)
    }

    /// The node of the graph that was given reads this operand no more.
    fn read_no_more(&mut self, at: &Growth, operand: u32) -> Result<(), Memory> {
        match at.found.get((operand / 2) as usize) {
            Some(literal) => self.readers.release(at.alloc, at.builder, *literal / 2),
            None => Ok(()),
        }
    }

    /// The best replacement by an image of a recipe for a cut, where so many nodes are given up.
    fn best_image(&mut self, at: &Growth, cut: &Cut, freed: u32) -> Result<Option<Best>, Memory> {
        let most = self.required.get(at.node as usize).copied().unwrap_or(0);
        let plain = at.builder.level(at.literal);
        let mut best = None;
        for image in self.recipes.images(cut.table) {
            if let Some(by) = image_replacement(at.alloc, self.recipes, image, cut)? {
                let outcome = tried_in_growth(at, &by, &self.readers)?;
                let found = self.ties.worth(most, plain, by, outcome, freed);
                best = self.ties.better(best, found);
            }
        }
        Ok(best)
    }

    /// The best replacement by a cut, if one saves nodes, or levels and no nodes.
    fn by_cut(&mut self, at: &Growth, cut: &Cut) -> Result<Option<Best>, Memory> {
        let leaves = leaves_of(at.alloc, cut)?;
        for leaf in &leaves {
            self.readers.hold(at.alloc, at.builder, *leaf, 1)?;
        }
        let before = self.readers.alive();
        let node = at.literal / 2;
        self.readers.release(at.alloc, at.builder, node)?;
        let freed = before.saturating_sub(self.readers.alive());
        let best = self.best_image(at, cut, u32::try_from(freed).unwrap_or(u32::MAX))?;
        self.readers.hold(at.alloc, at.builder, node, 1)?;
        for leaf in &leaves {
            self.readers.release(at.alloc, at.builder, *leaf)?;
        }
        Ok(best)
    }

    /// The best replacement by a cut of a node.
    fn best(&mut self, at: &Growth) -> Result<Option<Best>, Memory> {
        let mut best = None;
        let mut cuts = Vec::new(at.alloc);
        cuts.extend_from_slice(self.cuts.of(at.literal / 2))?;
        for cut in &cuts {
            if cut.count > 1 {
                let found = self.by_cut(at, cut)?;
                best = self.ties.better(best, found);
            }
        }
        Ok(best)
    }
}

impl<'a> Grower for GrownChoices<'a> {
    /// The node's place reads its literal, and its operands are read by that instead of by it.
    fn prepare(&mut self, at: &Growth) -> Result<(), Memory> {
        self.follow(at)?;
        self.readers.hold(at.alloc, at.builder, at.literal / 2, 1)?;
        if let Some(node) = majority_of(at.graph, at.node) {
            self.read_no_more(at, node.x)?;
            self.read_no_more(at, node.y)?;
            self.read_no_more(at, node.z)?;
        }
        Ok(())
    }

    /// The replacement of a node, if one is worth it, and the node stands for nothing else.
    fn choose(&mut self, at: &Growth) -> Result<Option<Replacement>, Memory> {
        self.follow(at)?;
        self.last = Some(Turn {
            node: at.node,
            literal: at.literal,
        });
        if !self.uses.is_used(at.node) || self.readers.count(at.literal / 2) != 1 {
            return Ok(None);
        }
        match self.best(at)? {
            Some(best) => Ok(Some(best.by)),
            None => Ok(None),
        }
    }
}
