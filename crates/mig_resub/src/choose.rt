// The choice of a form for a node. Nothing depends on it but which nodes there are.
use crate::candidates::{Form, Sought, by_one, by_two};
use crate::divisors::divisors;
use crate::fanouts::Fanouts;
use crate::leaves::Marks;
use crate::window::{Member, Window};
use aq_base::Memory;
use mig::Graph;
use mig_replace::{Best, Chooser, Replacement, Site, Ties, Uses, required_levels, tried};
use std::alloc::Global;

/// What is known of a graph whose nodes get other forms.
#[derive(Drop)]
pub(crate) struct Choices {
    ties: Ties,
    fanouts: Fanouts,
    marks: Marks,
    uses: Uses,
    required: Vec<u32>,
}

impl Choices {
    /// What is known of a graph.
    pub(crate) fn new(alloc: Global, graph: &Graph, ties: Ties) -> Result<Choices, Memory> {
        let first = (graph.inputs() as usize).saturating_add(1);
        let total = first.saturating_add(graph.node_count());
        Ok(Choices {
            ties,
            fanouts: Fanouts::new(alloc, graph)?,
            marks: Marks::new(alloc, total)?,
            uses: Uses::new(alloc, graph)?,
            required: required_levels(alloc, graph)?,
        })
    }

    /// The members of a window that are still used.
    fn used_members(&self, site: &Site, members: &[Member]) -> Result<Vec<Member>, Memory> {
        let mut used = Vec::new(site.alloc);
        for member in members {
            if self.uses.is_used(member.node) {
                used.push(*member)?;
            }
        }
        Ok(used)
    }

    /// The better one of a replacement and a form, if that is worth it.
    fn judged(
        &mut self,
        site: &Site,
        leaves: &[u32],
        form: &Form,
        best: Option<Best>,
    ) -> Result<Option<Best>, Memory> {
        let by = form.replacement(site.alloc, leaves)?;
        let others = by.others.as_slice();
        let freed = self.uses.served(site.alloc, site.graph, site.node, others)?;
        let outcome = tried(site, &by, freed.as_slice())?;
        let most = self.required.get(site.node as usize).copied().unwrap_or(0);
        let found = site.worth(&self.ties, most, by, outcome, freed.len());
        Ok(self.ties.better(best, found))
    }

    /// The best form of a node.
    fn best(&mut self, site: &Site) -> Result<Option<Best>, Memory> {
        let window = Window::new(
            site.alloc,
            site.graph,
            &self.fanouts,
            &mut self.marks,
            site.node,
        )?;
        let used = self.used_members(site, window.members.as_slice())?;
        let divisors = divisors(site.alloc, used.as_slice())?;
        let sought = Sought {
            alloc: site.alloc,
            divisors: divisors.as_slice(),
            target: window.target,
        };
        let leaves = window.leaves.as_slice();
        let served = self.uses.served(site.alloc, site.graph, site.node, leaves)?;
        let mut best = None;
        for form in &by_one(&sought)? {
            best = self.judged(site, leaves, form, best)?;
        }
        if served.len() > 2 {
            for form in &by_two(&sought)? {
                best = self.judged(site, leaves, form, best)?;
            }
        }
        Ok(best)
    }
}

impl Chooser for Choices {
    /// The form of a node, if one is worth it. The node's nodes that serve no other are given up then.
    fn choose(&mut self, site: &Site) -> Result<Option<Replacement>, Memory> {
        if !self.uses.is_used(site.node) {
            return Ok(None);
        }
        match self.best(site)? {
            Some(best) => {
                let others = best.by.others.as_slice();
                self.uses
                    .give_up(site.alloc, site.graph, site.node, others)?;
                Ok(Some(best.by))
            }
            None => Ok(None),
        }
    }
}
