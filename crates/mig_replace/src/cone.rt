// What a node computes from other nodes.
ghost use Rattle.std.specs.Prelude.{◌≡◌, ◌<◌, ◌≤◌, Some, length, slice_get, IfSome};
ghost use Rattle.mig_replace.specs.Code.Cones.{Computes};
ghost use Rattle.truth_tables.specs.Tables.{mask};

use mig::Graph;
use truth_tables::{majority_table, mask, signed};

/// The place of a node among the leaves.
fn place_of(leaves: &[u32], node: u32) -> Option<usize>
    ensures { IfSome result (λ place. slice_get leaves.now place ≡ Some node) }
{
    for (place, leaf) in leaves.iter().enumerate() {
        if *leaf == node {
            return Some(place);
        }
    }
    None
}

/// The table of a node over leaves, if no path from it leads past them, or is longer than `most`, and not too many
/// nodes are looked at.
pub(crate) fn cone(
    graph: &Graph,
    leaves: &[u32],
    node: u32,
    most: u32,
    turns: &mut u32,
) -> Option<u64>
    requires { length leaves.now ≤ 6 }
    ensures { IfSome result (λ table. Computes graph.now leaves.now node table) }
{
    if node == 0 {
        return Some(0);
    }
    if let Some(place) = place_of(leaves, node) {
        return Some(leaf_table(leaves, place));
    }
    graph.known();
    let first = graph.inputs() + 1;
    if most == 0 || *turns == 0 || node < first {
        return None;
    }
    *turns -= 1;
    let number = (node - first) as usize;
    if number >= graph.node_count() {
        return None;
    }
    let operands = graph.node(number);
    let Some(x) = cone(graph, leaves, operands.x / 2, most - 1, turns) else {
        return None;
    };
    let Some(y) = cone(graph, leaves, operands.y / 2, most - 1, turns) else {
        return None;
    };
    let Some(z) = cone(graph, leaves, operands.z / 2, most - 1, turns) else {
        return None;
    };
    Some(majority_table(
        signed(operands.x, x),
        signed(operands.y, y),
        signed(operands.z, z),
    ))
}

/// The table of a leaf.
fn leaf_table(leaves: &[u32], place: usize) -> u64
    requires few { length leaves.now ≤ 6 }
    requires here { place < length leaves.now }
    ensures { result ≡ mask place }
{
    mask(place)
}
