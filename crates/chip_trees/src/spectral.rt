// Lines of the items: the smoothest vector of the graph's normalized Laplacian, found by a power iteration of integers.
use crate::graph::TurnedGraph;
use crate::numbers::{Random, root};
use crate::trees::Trees;
use aq_base::Memory;
use chip_search::arrays::{at, narrow, put, wide_at};
use std::alloc::Global;
use std::mem::swap;

/// Weights and square roots of degrees are so many times as large.
const UNIT: i64 = 1_048_576;

const WEIGHT: u64 = 1_048_576;

/// The parts of a slot in a position.
const SLOT: u64 = 16;

/// The greatest entry of a vector after it was scaled.
const GREATEST: i64 = 1_073_741_824;

/// An edge is gone over so many times in all, but each at least `LEAST` and at most `MOST` times.
const STEPS: u32 = 6_000_000;

const LEAST: u32 = 100;

const MOST: u32 = 1_500;

/// So often constant vectors are taken out, and the vector scaled.
const OFTEN: u32 = 8;

/// How much less the edges of a node with many uses weigh.
#[derive(Clone, Copy, PartialEq, Eq)]
pub(crate) enum Weight {
    /// By the number of uses.
    Uses,
    /// By its square root.
    Root,
}

/// An edge between two items.
#[derive(Clone, Copy)]
struct Edge {
    one: u32,
    other: u32,
    weight: i64,
}

fn add_wide(numbers: &mut [i64], index: u32, more: i64) {
    let index = index as usize;
    if index < numbers.len() {
        let number = &mut numbers[index];
        *number = number.wrapping_add(more);
    }
}

/// A number of few bits as a signed one.
fn signed(number: u64) -> i64 {
    i64::try_from(number).unwrap_or(i64::MAX)
}

/// The square root of a number that is not negative.
fn signed_root(number: i64) -> i64 {
    signed(root(u64::try_from(number).unwrap_or(0)))
}

/// The weight of an edge of a node with so many uses, over so many rows.
fn edge_weight(uses: usize, rows: u32, weight: Weight) -> i64 {
    let uses = u64::from(narrow(uses));
    let share = match weight {
        Weight::Uses => WEIGHT.checked_div(uses),
        Weight::Root => (256 * WEIGHT).checked_div(root(uses.wrapping_mul(65_536))),
    };
    let share = share.unwrap_or(0);
    signed(share.checked_div(u64::from(rows.max(1))).unwrap_or(0))
}

/// The edges, and the sum of their weights at each item.
fn edges_of(alloc: Global, trees: &Trees, weight: Weight) -> Result<(Vec<Edge>, Vec<i64>), Memory> {
    let graph: &TurnedGraph = &trees.graph;
    let mut edges = Vec::new(alloc);
    let mut degrees = vec![in alloc; 0; graph.items() as usize]?;
    for node in 1..graph.count() {
        let uses = graph.uses(node);
        for pin in uses {
            let other = graph.place(*pin).item;
            let rows = trees.depth(node).saturating_sub(trees.depth(other));
            let weight = edge_weight(uses.len(), rows, weight);
            edges.push(Edge {
                one: node,
                other,
                weight,
            })?;
            add_wide(&mut degrees, node, weight);
            add_wide(&mut degrees, other, weight);
        }
    }
    Ok((edges, degrees))
}

/// Divides the weights by the square roots of the degrees of both ends.
fn normalize(edges: &mut [Edge], roots: &[i64]) {
    for edge in edges {
        let product = wide_at(roots, edge.one).wrapping_mul(wide_at(roots, edge.other));
        let scaled = edge.weight.wrapping_mul(UNIT);
        edge.weight = scaled.checked_div(product / UNIT).unwrap_or(0);
    }
}

/// The vector without its part along the square roots of the degrees.
fn take_out(vector: &mut [i64], roots: &[i64]) {
    let mut along: i64 = 0;
    let mut square: i64 = 0;
    for (entry, root) in vector.iter().zip(roots) {
        along = along.wrapping_add(entry.wrapping_mul(*root) / UNIT);
        square = square.wrapping_add(root.wrapping_mul(*root) / UNIT);
    }
    let share = along
        .wrapping_mul(256)
        .checked_div(square / 4_096)
        .unwrap_or(0);
    for (entry, root) in vector.iter_mut().zip(roots) {
        *entry = entry.wrapping_sub(share.wrapping_mul(*root) / UNIT);
    }
}

/// The vector with its greatest entry made `GREATEST`.
fn scale(vector: &mut [i64]) {
    let mut greatest: i64 = 1;
    for entry in &*vector {
        greatest = greatest.max(entry.saturating_abs());
    }
    for entry in vector {
        let scaled = entry.wrapping_mul(GREATEST);
        *entry = scaled.checked_div(greatest).unwrap_or(0);
    }
}

/// A random vector.
fn random_vector(alloc: Global, count: u32) -> Result<Vec<i64>, Memory> {
    let mut random = Random::new();
    let mut vector = Vec::with_capacity(alloc, count as usize)?;
    for _ in 0..count {
        vector.push(i64::from(random.next() >> 1).wrapping_sub(GREATEST))?;
    }
    Ok(vector)
}

/// The smoothest vector: that of the second greatest eigenvalue of the normalized adjacency and one.
fn smoothest(alloc: Global, edges: &[Edge], roots: &[i64]) -> Result<Vec<i64>, Memory> {
    let mut vector = random_vector(alloc, narrow(roots.len()))?;
    let mut next = Vec::from_slice(alloc, &vector)?;
    let turns = STEPS.checked_div(narrow(edges.len())).unwrap_or(0);
    for turn in 0..turns.max(LEAST).min(MOST) {
        if turn % OFTEN == 0 {
            take_out(&mut vector, roots);
            scale(&mut vector);
        }
        for (entry, old) in next.iter_mut().zip(&vector) {
            *entry = *old;
        }
        for edge in edges {
            let one = edge.weight.wrapping_mul(wide_at(&vector, edge.one)) / UNIT;
            let other = edge.weight.wrapping_mul(wide_at(&vector, edge.other)) / UNIT;
            add_wide(&mut next, edge.one, other);
            add_wide(&mut next, edge.other, one);
        }
        for entry in &mut next {
            *entry = *entry / 2;
        }
        swap(&mut vector, &mut next);
    }
    Ok(vector)
}

/// The numbers of items in the order of what they have of a vector, divided by the square roots of their degrees.
fn order_by(alloc: Global, vector: &[i64], roots: &[i64]) -> Result<Vec<u32>, Memory> {
    let mut keys = Vec::with_capacity(alloc, vector.len())?;
    let mut number: u32 = 0;
    for (entry, root) in vector.iter().zip(roots) {
        let ratio = entry.wrapping_mul(UNIT).checked_div(*root).unwrap_or(0);
        keys.push((ratio, number))?;
        number = number.saturating_add(1);
    }
    keys.sort_unstable_by_key(|one| one.0);
    let mut order = Vec::with_capacity(alloc, keys.len())?;
    for key in &keys {
        order.push(key.1)?;
    }
    Ok(order)
}

/// The position of each item by its place in a line over rows of so many slots.
pub(crate) fn spectral_line(
    alloc: Global,
    trees: &Trees,
    width: u32,
    weight: Weight,
) -> Result<Vec<i32>, Memory> {
    let (mut edges, degrees) = edges_of(alloc, trees, weight)?;
    let mut roots = Vec::with_capacity(alloc, degrees.len())?;
    for degree in &degrees {
        roots.push(signed_root(degree.wrapping_mul(UNIT)))?;
    }
    normalize(&mut edges, &roots);
    let vector = smoothest(alloc, &edges, &roots)?;
    let order = order_by(alloc, &vector, &roots)?;
    let mut positions = vec![in alloc; 0; order.len()]?;
    let count = u64::from(narrow(order.len()).max(1));
    let parts = u64::from(width).wrapping_mul(SLOT);
    for place in 0..narrow(order.len()) {
        let position = u64::from(place)
            .wrapping_mul(parts)
            .checked_div(count)
            .unwrap_or(0);
        let position = i32::try_from(position).unwrap_or(0);
        put(&mut positions, at(&order, place), position);
    }
    Ok(positions)
}
