// Which nodes are joined in another order: those for which more inner nodes are saved than pairs are made.
use crate::rotations::{Rotation, rotations_of};
use aq_base::Memory;
use mig::Graph;
use mig_replace::Uses;
use std::alloc::Global;

/// What a pair costs, and what an inner node saves that no node needs any more.
const NODE: u64 = 1 << 20;

/// Rotations are given up at most so many times.
const MOST_TURNS: u32 = 8;

/// The rotations with one pair, from a place to before another one, and what they save if all of them are taken.
#[derive(Clone, Copy)]
struct Group {
    first: usize,
    end: usize,
    saved: u64,
}

/// The rotations of a graph, by their pairs, and for each node the place of the one that is taken, and one more; 0 where
/// there is none.
#[derive(Drop)]
pub(crate) struct Plan {
    rotations: Vec<Rotation>,
    taken: Vec<u32>,
}

/// The share of an inner node in what is saved, for each of its uses.
fn share(uses: &Uses, one: &Rotation) -> u64 {
    NODE.checked_div(u64::from(uses.count(one.inner)))
        .unwrap_or(0)
}

/// Whether two rotations have one pair.
fn are_alike(one: &Rotation, other: &Rotation) -> bool {
    one.pair.x == other.pair.x && one.pair.y == other.pair.y && one.pair.z == other.pair.z
}

/// The groups of rotations that stand side by side.
fn groups_of(alloc: Global, rotations: &[Rotation], uses: &Uses) -> Result<Vec<Group>, Memory> {
    let mut groups = Vec::new(alloc);
    let mut group = Group {
        first: 0,
        end: 0,
        saved: 0,
    };
    for one in rotations {
        let is_same = match rotations.get(group.first) {
            Some(first) => are_alike(first, one),
            None => false,
        };
        if !is_same {
            groups.push(group)?;
            group = Group {
                first: group.end,
                end: group.end,
                saved: 0,
            };
        }
        group.end = group.end.saturating_add(1);
        group.saved = group.saved.saturating_add(share(uses, one));
    }
    groups.push(group)?;
    Ok(groups)
}

impl Plan {
    /// The place of the rotation that is taken for a node, and one more.
    fn place(&self, node: u32) -> u32 {
        self.taken.get(node as usize).copied().unwrap_or(0)
    }

    /// The rotation that is taken for a node, if there is one.
    pub(crate) fn of(&self, node: u32) -> Option<Rotation> {
        let place = self.place(node) as usize;
        self.rotations.get(place.checked_sub(1)?).copied()
    }

    /// Takes a rotation for a node, or none.
    fn set(&mut self, node: u32, place: u32) {
        let at = node as usize;
        if at < self.taken.len() {
            self.taken[at] = place;
        }
    }

    /// What the rotations of a group save whose nodes have none yet.
    fn saved(&self, group: Group, uses: &Uses) -> u64 {
        let mut saved: u64 = 0;
        for place in group.first..group.end {
            if let Some(one) = self.rotations.get(place) {
                if self.place(one.node) == 0 {
                    saved = saved.saturating_add(share(uses, one));
                }
            }
        }
        saved
    }

    /// Takes the rotations of a group whose nodes have none yet.
    fn take(&mut self, group: Group) {
        for place in group.first..group.end {
            if let Some(one) = self.rotations.get(place).copied() {
                if self.place(one.node) == 0 {
                    let number = u32::try_from(place.saturating_add(1)).unwrap_or(0);
                    self.set(one.node, number);
                }
            }
        }
    }

    /// Whether a rotation is the one that is taken for its node.
    fn is_taken(&self, place: usize, one: &Rotation) -> bool {
        self.place(one.node) as usize == place.saturating_add(1)
    }

    /// Gives up rotations with inner nodes that other nodes need; whether there were some.
    fn keep_saving(&mut self, alloc: Global, uses: &Uses) -> Result<bool, Memory> {
        let mut served = vec![in alloc; 0u32; self.taken.len()]?;
        for node in 0..self.taken.len() {
            if let Some(one) = self.of(u32::try_from(node).unwrap_or(0)) {
                let at = one.inner as usize;
                if at < served.len() {
                    served[at] = served[at].saturating_add(1);
                }
            }
        }
        let mut found = false;
        for node in 0..self.taken.len() {
            let number = u32::try_from(node).unwrap_or(0);
            if let Some(one) = self.of(number) {
                let count = served.get(one.inner as usize).copied().unwrap_or(0);
                if count < uses.count(one.inner) {
                    self.set(number, 0);
                    found = true;
                }
            }
        }
        Ok(found)
    }

    /// Gives up the rotations of a group, if those that are taken save no more than its pair costs; whether there were
    /// some.
    fn keep_worth(&mut self, group: Group, uses: &Uses) -> bool {
        let mut saved: u64 = 0;
        for place in group.first..group.end {
            if let Some(one) = self.rotations.get(place) {
                if self.is_taken(place, one) {
                    saved = saved.saturating_add(share(uses, one));
                }
            }
        }
        if saved == 0 || saved > NODE {
            return false;
        }
        for place in group.first..group.end {
            if let Some(one) = self.rotations.get(place).copied() {
                if self.is_taken(place, &one) {
                    self.set(one.node, 0);
                }
            }
        }
        true
    }

    /// Gives up what saves nothing; whether there was something.
    fn keep(&mut self, alloc: Global, groups: &[Group], uses: &Uses) -> Result<bool, Memory> {
        let mut found = self.keep_saving(alloc, uses)?;
        for group in groups {
            found |= self.keep_worth(*group, uses);
        }
        Ok(found)
    }

    /// The rotations that are taken in a graph: those of the pairs that save most first.
    pub(crate) fn new(alloc: Global, graph: &Graph) -> Result<Plan, Memory> {
        let uses = Uses::new(alloc, graph)?;
        let mut rotations = rotations_of(alloc, graph, &uses)?;
        rotations.sort_by_key(|one| one.pair.z)?;
        rotations.sort_by_key(|one| one.pair.y)?;
        rotations.sort_by_key(|one| one.pair.x)?;
        let mut groups = groups_of(alloc, &rotations, &uses)?;
        groups.sort_by_key(|group| u64::MAX.saturating_sub(group.saved))?;
        let first = (graph.inputs() as usize).saturating_add(1);
        let total = first.saturating_add(graph.node_count());
        let mut plan = Plan {
            rotations,
            taken: vec![in alloc; 0; total]?,
        };
        for group in &groups {
            if plan.saved(*group, &uses) > NODE {
                plan.take(*group);
            }
        }
        for _turn in 0..MOST_TURNS {
            if !plan.keep(alloc, &groups, &uses)? {
                break;
            }
        }
        Ok(plan)
    }
}
