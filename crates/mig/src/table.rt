// The table of the nodes that there are. What it finds is compared, so that nothing depends on what it holds.
ghost use Rattle.std.specs.Prelude.{◌≡◌, ◌<◌, Some, slice_get, IfSome};

use crate::Node;
use aq_base::Memory;
use std::alloc::Global;

/// How many places the first table has.
const FIRST_SIZE: usize = 256;

/// How many places are looked at. Half of all places are free, so few nodes are further away: but a netlist can be made
/// for that. Its equal nodes are then kept apart, in place of a search whose time grows with each node.
const MOST_STEPS: usize = 256;

/// Where a node is looked for first, of so many places.
fn home(node: Node, size: usize) -> usize
    requires { 0 < size }
{
    let mixed = (node.x as u64)
        .wrapping_mul(0x9E37_79B9_7F4A_7C15)
        .wrapping_add(node.y as u64)
        .wrapping_mul(0xC2B2_AE3D_27D4_EB4F)
        .wrapping_add(node.z as u64)
        .wrapping_mul(0x1656_67B1_9E37_79F9);
    ((mixed >> 24) % size as u64) as usize
}

/// The place after a place, of so many.
fn next(place: usize, size: usize) -> usize {
    let later = place.saturating_add(1);
    if later < size { later } else { 0 }
}

/// Puts an entry in the first place that is free, from its home on.
fn put(places: &mut Vec<u32>, node: Node, entry: u32) {
    let size = places.len();
    if size == 0 {
        return;
    }
    let mut place = home(node, size);
    for _ in 0..MOST_STEPS {
        if place < places.len() && places[place] == 0 {
            places[place] = entry;
            return;
        }
        place = next(place, size);
    }
}

/// Numbers of nodes by what they are: a place has 0, or one more than a number. At most half of the places are taken.
#[derive(Drop)]
pub(crate) struct Table {
    places: Vec<u32>,
    taken: usize,
}

impl Table {
    /// An empty table, which takes no memory.
    pub(crate) fn new(alloc: Global) -> Table {
        Table {
            places: Vec::new(alloc),
            taken: 0,
        }
    }

    /// The number of a node that is the same as this one.
    pub(crate) fn find(&self, nodes: &[Node], node: Node) -> Option<u32>
        ensures { IfSome result (λ number. slice_get nodes.now number ≡ Some node) }
    {
        let size = self.places.len();
        if size == 0 {
            return None;
        }
        let mut place = home(node, size);
        for _ in 0..MOST_STEPS {
            let entry = self.places.get(place).copied().unwrap_or(0);
            if entry == 0 {
                return None;
            }
            let number = entry - 1;
            if (number as usize) < nodes.len() {
                let found = nodes[number as usize];
                if found.x == node.x && found.y == node.y && found.z == node.z {
                    return Some(number);
                }
            }
            place = next(place, size);
        }
        None
    }

    /// Takes in the last of these nodes, the others being there. The table grows where half of it is taken.
    pub(crate) fn take_last(&mut self, alloc: Global, nodes: &[Node]) -> Result<(), Memory> {
        if self.taken >= self.places.len() / 2 {
            let size = self.places.len().saturating_mul(2).max(FIRST_SIZE);
            let mut places = vec![in alloc; 0u32; size]?;
            let mut entry = 0u32;
            for node in nodes {
                entry = entry.saturating_add(1);
                put(&mut places, *node, entry);
            }
            self.places = places;
        } else if let Some(last) = nodes.last() {
            put(
                &mut self.places,
                *last,
                u32::try_from(nodes.len()).unwrap_or(0),
            );
        }
        self.taken = nodes.len();
        Ok(())
    }
}
