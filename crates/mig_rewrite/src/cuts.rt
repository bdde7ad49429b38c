// Cuts of up to three leaves. Nothing depends on them: what a node computes from leaves is found where a cut is used.
ghost use Rattle.std.specs.Prelude.{◌<◌};

use aq_base::Memory;
use mig::{Graph, Node};
use std::alloc::Global;

/// How many cuts a node keeps for its users.
const CUTS: usize = 8;

/// Up to three nodes by rising number, and the truth number of a node over them.
#[derive(Clone, Copy)]
pub(crate) struct Cut {
    pub leaves: [u32; 3],
    pub count: usize,
    pub truth: u8,

    /// Leaves that were left out since nothing depends on them, and else 0.
    pub x: u32,
    pub y: u32,
    pub z: u32,
}

/// The cut without leaves.
fn no_leaves() -> Cut {
    Cut {
        leaves: [0; 3],
        count: 0,
        truth: 0,
        x: 0,
        y: 0,
        z: 0,
    }
}

/// The cut of a node by itself.
fn own(node: u32) -> Cut {
    Cut {
        leaves: [node, 0, 0],
        count: 1,
        truth: 0xAA,
        x: 0,
        y: 0,
        z: 0,
    }
}

fn has_leaf(cut: &Cut, leaf: u32) -> bool {
    (cut.count > 0 && cut.leaves[0] == leaf)
        || (cut.count > 1 && cut.leaves[1] == leaf)
        || (cut.count > 2 && cut.leaves[2] == leaf)
}

/// A cut with one leaf more, if it has room.
fn with_leaf(cut: Cut, leaf: u32) -> Option<Cut> {
    if has_leaf(&cut, leaf) {
        return Some(cut);
    }
    let [a, b, _] = cut.leaves;
    let leaves = match cut.count {
        0 => [leaf, 0, 0],
        1 => { if leaf < a { [leaf, a, 0] } else { [a, leaf, 0] } }
        2 => {
            if leaf < a {
                [leaf, a, b]
            } else if leaf < b {
                [a, leaf, b]
            } else {
                [a, b, leaf]
            }
        }
        _ => return None,
    };
    Some(Cut {
        leaves,
        count: cut.count.saturating_add(1),
        truth: 0,
        x: cut.x,
        y: cut.y,
        z: cut.z,
    })
}

/// A cut with one more leaf that was left out, if there is room.
fn with_idle(cut: Cut, node: u32) -> Cut {
    if node == 0 || cut.x == node || cut.y == node || cut.z == node {
        return cut;
    }
    let mut more = cut;
    if cut.x == 0 {
        more.x = node;
    } else if cut.y == 0 {
        more.y = node;
    } else if cut.z == 0 {
        more.z = node;
    }
    more
}

/// The leaves of two cuts, if they are three at most.
fn union(cut: Cut, other: &Cut) -> Option<Cut> {
    let mut all = cut;
    for place in 0..3usize {
        if place < other.count {
            match with_leaf(all, other.leaves[place]) {
                Some(more) => all = more,
                None => return None,
            }
        }
    }
    Some(with_idle(with_idle(with_idle(all, other.x), other.y), other.z))
}

fn bit(truth: u8, place: u32) -> bool {
    (truth >> (place % 8)) & 1 == 1
}

/// The place of a leaf in a cut.
fn place_in(cut: &Cut, leaf: u32) -> u32
    ensures { result < 3 }
{
    if cut.leaves[0] == leaf {
        0
    } else if cut.leaves[1] == leaf {
        1
    } else {
        2
    }
}

/// The truth number over the leaves of a greater cut.
fn spread(cut: &Cut, onto: &Cut) -> u8 {
    let a = place_in(onto, cut.leaves[0]);
    let b = place_in(onto, cut.leaves[1]);
    let c = place_in(onto, cut.leaves[2]);
    let mut truth = 0u8;
    for place in 0..8u32 {
        let mut from = 0u32;
        if cut.count > 0 {
            from |= (place >> a) & 1;
        }
        if cut.count > 1 {
            from |= ((place >> b) & 1) << 1;
        }
        if cut.count > 2 {
            from |= ((place >> c) & 1) << 2;
        }
        if bit(cut.truth, from) {
            truth |= 1 << place;
        }
    }
    truth
}

fn signed(literal: u32, truth: u8) -> u8 {
    if literal % 2 == 1 { !truth } else { truth }
}

/// Whether a truth number depends on a leaf.
fn depends(truth: u8, place: usize) -> bool {
    match place {
        0 => (truth & 0xAA) >> 1 != truth & 0x55,
        1 => (truth & 0xCC) >> 2 != truth & 0x33,
        _ => (truth & 0xF0) >> 4 != truth & 0x0F,
    }
}

/// A cut without the leaves on which its truth number does not depend.
fn without_idle(cut: Cut) -> Cut {
    let mut rest = cut;
    let mut kept = [0u32; 3];
    let mut leaves = [0u32; 3];
    let mut count = 0usize;
    for place in 0..3usize {
        if place < cut.count && depends(cut.truth, place) && count < 3 {
            kept[count] = place as u32;
            leaves[count] = cut.leaves[place];
            count = count.saturating_add(1);
        } else if place < cut.count {
            rest = with_idle(rest, cut.leaves[place]);
        }
    }
    let mut truth = 0u8;
    for place in 0..8u32 {
        let mut from = 0u32;
        if count > 0 {
            from |= (place & 1) << (kept[0] % 3);
        }
        if count > 1 {
            from |= ((place >> 1) & 1) << (kept[1] % 3);
        }
        if count > 2 {
            from |= ((place >> 2) & 1) << (kept[2] % 3);
        }
        if bit(cut.truth, from) {
            truth |= 1 << place;
        }
    }
    Cut {
        leaves,
        count,
        truth,
        x: rest.x,
        y: rest.y,
        z: rest.z,
    }
}

fn same_leaves(one: &Cut, other: &Cut) -> bool {
    one.count == other.count
        && one.leaves[0] == other.leaves[0]
        && one.leaves[1] == other.leaves[1]
        && one.leaves[2] == other.leaves[2]
}

fn has_cut(cuts: &[Cut], cut: &Cut) -> bool {
    for other in cuts {
        if same_leaves(other, cut) {
            return true;
        }
    }
    false
}

/// The joins of the cuts of three operands.
fn joins(
    alloc: Global,
    x: &[Cut],
    y: &[Cut],
    z: &[Cut],
    operands: Node,
) -> Result<Vec<Cut>, Memory> {
    let mut found: Vec<Cut> = Vec::new(alloc);
    for one in x {
        for two in y {
            if let Some(both) = union(*one, two) {
                for three in z {
                    if let Some(all) = union(both, three) {
                        if !has_cut(&found, &all) {
                            let p = signed(operands.x, spread(one, &all));
                            let q = signed(operands.y, spread(two, &all));
                            let r = signed(operands.z, spread(three, &all));
                            found.push(Cut {
                                leaves: all.leaves,
                                count: all.count,
                                truth: (p & q) | (p & r) | (q & r),
                                x: all.x,
                                y: all.y,
                                z: all.z,
                            })?;
                        }
                    }
                }
            }
        }
    }
    let mut kept: Vec<Cut> = Vec::new(alloc);
    for cut in &found {
        let cut = without_idle(*cut);
        if !has_cut(&kept, &cut) {
            kept.push(cut)?;
        }
    }
    Ok(kept)
}

fn level_at(levels: &[u32], node: u32) -> u32 {
    levels.get(node as usize).copied().unwrap_or(0)
}

/// The greatest level of a leaf.
fn level_of(levels: &[u32], cut: &Cut) -> u32 {
    level_at(levels, cut.leaves[0])
        .max(level_at(levels, cut.leaves[1]))
        .max(level_at(levels, cut.leaves[2]))
}

/// The leaves of the first cut come before those of the second.
pub(crate) fn leaves_before(one: &Cut, other: &Cut) -> bool {
    if one.leaves[0] != other.leaves[0] {
        return one.leaves[0] < other.leaves[0];
    }
    if one.leaves[1] != other.leaves[1] {
        return one.leaves[1] < other.leaves[1];
    }
    one.leaves[2] < other.leaves[2]
}

/// The first cut is better than the second.
fn comes_before(levels: &[u32], one: &Cut, other: &Cut) -> bool {
    let (a, b) = (level_of(levels, one), level_of(levels, other));
    if a != b {
        return a < b;
    }
    if one.count != other.count {
        return one.count < other.count;
    }
    leaves_before(one, other)
}

/// The best cuts, in order, and then the node by itself.
fn best_cuts(alloc: Global, levels: &[u32], cuts: &[Cut], node: u32) -> Result<Vec<Cut>, Memory> {
    let mut taken = vec![in alloc; false; cuts.len()]?;
    let mut best = Vec::new(alloc);
    for _turn in 0..CUTS {
        let mut next: Option<usize> = None;
        for place in 0..cuts.len() {
            if place < taken.len() && !taken[place] {
                let better = match next {
                    Some(at) => at < cuts.len() && comes_before(levels, &cuts[place], &cuts[at]),
                    None => true,
                };
                if better {
                    next = Some(place);
                }
            }
        }
        if let Some(at) = next {
            if at < cuts.len() && at < taken.len() {
                taken[at] = true;
                best.push(cuts[at])?;
            }
        }
    }
    best.push(own(node))?;
    Ok(best)
}

/// The cuts of a node.
fn cuts_of(cuts: &[Vec<Cut>], node: u32) -> &[Cut] {
    match cuts.get(node as usize) {
        Some(found) => found.as_slice(),
        None => &[],
    }
}

/// The level of each node.
pub(crate) fn levels_of(alloc: Global, graph: &Graph) -> Result<Vec<u32>, Memory> {
    let mut levels = Vec::new(alloc);
    levels.push(0)?;
    for _input in 0..graph.inputs() {
        levels.push(0)?;
    }
    for number in 0..graph.node_count() {
        let node = graph.node(number);
        let most = level_at(&levels, node.x / 2)
            .max(level_at(&levels, node.y / 2))
            .max(level_at(&levels, node.z / 2));
        levels.push(most.saturating_add(1))?;
    }
    Ok(levels)
}

/// The cuts of each node; the last cut of a majority is the node by itself.
pub(crate) fn find_cuts(
    alloc: Global,
    graph: &Graph,
    levels: &[u32],
) -> Result<Vec<Vec<Cut>>, Memory> {
    let mut cuts: Vec<Vec<Cut>> = Vec::new(alloc);
    let mut first = Vec::new(alloc);
    first.push(no_leaves())?;
    cuts.push(first)?;
    for input in 0..graph.inputs() {
        let mut one = Vec::new(alloc);
        one.push(own(input.saturating_add(1)))?;
        cuts.push(one)?;
    }
    for number in 0..graph.node_count() {
        let node = graph.node(number);
        let joined = joins(
            alloc,
            cuts_of(&cuts, node.x / 2),
            cuts_of(&cuts, node.y / 2),
            cuts_of(&cuts, node.z / 2),
            node,
        )?;
        let at = u32::try_from(cuts.len()).unwrap_or(0);
        let best = best_cuts(alloc, levels, &joined, at)?;
        cuts.push(best)?;
    }
    Ok(cuts)
}
