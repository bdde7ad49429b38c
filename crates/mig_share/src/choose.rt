// The other order of a node, as a replacement. Nothing depends on it but which nodes there are.
use crate::plan::Plan;
use crate::rotations::Rotation;
use aq_base::Memory;
use mig::Node;
use mig_replace::{Chooser, Replacement, Site};
use std::alloc::Global;

/// The number of a literal in a replacement, of which its node becomes a leaf: no other literal has that node.
fn leaf(leaves: &mut Vec<u32>, literal: u32) -> Result<u32, Memory> {
    if literal < 2 {
        return Ok(literal);
    }
    leaves.push(literal / 2)?;
    let place = u32::try_from(leaves.len()).unwrap_or(0);
    Ok(place.saturating_mul(2).saturating_add(literal % 2))
}

/// The replacement of a node by its other order.
fn replacement(alloc: Global, one: &Rotation) -> Result<Replacement, Memory> {
    let mut leaves = Vec::new(alloc);
    let kept = leaf(&mut leaves, one.kept)?;
    let common = leaf(&mut leaves, one.common)?;
    let moved = leaf(&mut leaves, one.moved)?;
    let other = leaf(&mut leaves, one.other)?;
    let place = u32::try_from(leaves.len()).unwrap_or(0);
    let pair = place.saturating_add(1).saturating_mul(2);
    let mut steps = Vec::new(alloc);
    steps.push(Node {
        x: moved,
        y: common,
        z: other,
    })?;
    steps.push(Node {
        x: kept,
        y: common,
        z: pair,
    })?;
    Ok(Replacement {
        leaves,
        others: Vec::new(alloc),
        steps,
        out: pair.saturating_add(2),
    })
}

impl Chooser for Plan {
    /// The other order of a node, if one is taken.
    fn choose(&mut self, site: &Site) -> Result<Option<Replacement>, Memory> {
        match self.of(site.node) {
            Some(one) => Ok(Some(replacement(site.alloc, &one)?)),
            None => Ok(None),
        }
    }
}
