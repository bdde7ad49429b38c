// The choice of a cut and a recipe for a node, by the cuts of the graph that was given. Nothing depends on it but which
// nodes there are.
use crate::cuts::{AllCuts, Cut};
use crate::forms::{image_replacement, leaves_of};
use crate::recipes::Recipes;
use aq_base::Memory;
use mig::Graph;
use mig_replace::{Best, Chooser, Replacement, Site, Ties, Uses, required_levels, tried};
use std::alloc::Global;

/// How many recipes of a function are tried.
const KEPT: usize = 4;

/// What is known of a graph whose nodes get other forms.
#[derive(Drop)]
pub(crate) struct Choices<'a> {
    recipes: &'a Recipes,
    ties: Ties,
    cuts: AllCuts,
    uses: Uses,
    required: Vec<u32>,
}

impl<'a> Choices<'a> {
    /// What is known of a graph.
    pub(crate) fn new(
        alloc: Global,
        graph: &Graph,
        recipes: &'a Recipes,
        ties: Ties,
    ) -> Result<Choices<'a>, Memory> {
        Ok(Choices {
            recipes,
            ties,
            cuts: AllCuts::of_graph(alloc, graph)?,
            uses: Uses::new(alloc, graph)?,
            required: required_levels(alloc, graph)?,
        })
    }

    /// The best replacement by a cut, if one saves nodes, or levels and no nodes.
    fn by_cut(&mut self, site: &Site, cut: &Cut) -> Result<Option<Best>, Memory> {
        let leaves = leaves_of(site.alloc, cut)?;
        let freed = self
            .uses
            .served(site.alloc, site.graph, site.node, leaves.as_slice())?;
        let most = self.required(site.node);
        let mut best = None;
        for image in self.recipes.images(cut.table).iter().take(KEPT) {
            if let Some(by) = image_replacement(site.alloc, self.recipes, image, cut)? {
                let outcome = tried(site, &by, freed.as_slice())?;
                let found = site.worth(&self.ties, most, by, outcome, freed.len());
                best = self.ties.better(best, found);
            }
        }
        Ok(best)
    }

    /// Whether all leaves of a cut are used.
    fn has_used_leaves(&self, cut: &Cut) -> bool {
        for place in 0..4usize {
            if place < cut.count && !self.uses.is_used(cut.leaf(place)) {
                return false;
            }
        }
        true
    }

    /// The level at which a node is required.
    fn required(&self, node: u32) -> u32 {
        self.required.get(node as usize).copied().unwrap_or(0)
    }

    /// The best replacement by a cut of a node.
    fn best(&mut self, site: &Site) -> Result<Option<Best>, Memory> {
        let mut best = None;
        let mut cuts = Vec::new(site.alloc);
        cuts.extend_from_slice(self.cuts.of(site.node))?;
        for cut in &cuts {
            if cut.count > 1 && self.has_used_leaves(cut) {
                let found = self.by_cut(site, cut)?;
                best = self.ties.better(best, found);
            }
        }
        Ok(best)
    }
}

impl<'a> Chooser for Choices<'a> {
    /// The replacement of a node, if one is worth it. The node's nodes that serve no other are given up then.
    fn choose(&mut self, site: &Site) -> Result<Option<Replacement>, Memory> {
        if !self.uses.is_used(site.node) {
            return Ok(None);
        }
        match self.best(site)? {
            Some(best) => {
                let leaves = best.by.leaves.as_slice();
                self.uses
                    .give_up(site.alloc, site.graph, site.node, leaves)?;
                Ok(Some(best.by))
            }
            None => Ok(None),
        }
    }
}
