// Graphs of majorities by their literals.
ghost use Rattle.std.specs.Prelude.{◌≡◌, ◌<◌, true};
ghost use Rattle.std.specs.List.{AllByRecursion};
ghost use Rattle.mig.specs.Building.{limit};

use mig::{Builder, Graph, GraphRefusal};
use std::alloc::Global;

/// Adds the majority of three literals, if they are there.
fn add(builder: &mut Builder, node: [u32; 3]) -> Result<(), GraphRefusal> {
    builder.known();
    let limit = 2 * (1 + builder.inputs() as u64 + builder.node_count() as u64);
    let [x, y, z] = node;
    if (x as u64) < limit && (y as u64) < limit && (z as u64) < limit {
        let _literal = builder.maj(x, y, z)?;
    }
    Ok(())
}

/// Whether literals are there.
fn are_there(builder: &Builder, outputs: &[u32]) -> bool
    ensures { result ≡ true → AllByRecursion (λ l. l < limit builder.now) outputs.now }
{
    builder.known();
    let limit = 2 * (1 + builder.inputs() as u64 + builder.node_count() as u64);
    for output in outputs {
        if *output as u64 >= limit {
            return false;
        }
    }
    true
}

/// The graph whose outputs show these literals, if they are there; else a refusal.
fn finished(builder: Builder, outputs: Vec<u32>) -> Result<Graph, GraphRefusal> {
    builder.known();
    let there = are_there(&builder, outputs.as_slice());
    if !there || outputs.is_empty() || outputs.len() > 100 {
        return Err(GraphRefusal::TooManyNodes);
    }
    Ok(builder.finish(outputs))
}

/// The graph of so many inputs whose majorities have these literals, and whose outputs show these.
pub(crate) fn made(
    alloc: Global,
    inputs: u32,
    nodes: &[[u32; 3]],
    outputs: &[u32],
) -> Result<Graph, GraphRefusal> {
    let outputs = Vec::from_slice(alloc, outputs)?;
    let mut builder = Builder::new(alloc, inputs)?;
    for node in nodes {
        add(&mut builder, *node)?;
    }
    finished(builder, outputs)
}

/// The next of a row of numbers that look as if drawn at random.
fn next(random: u64) -> u64 {
    random
        .wrapping_mul(6_364_136_223_846_793_005)
        .wrapping_add(1_442_695_040_888_963_407)
}

/// A graph of five inputs and at most twelve majorities of literals that a number chooses; the last four and their
/// complements are shown.
pub(crate) fn random(alloc: Global, seed: u64) -> Result<Graph, GraphRefusal> {
    let mut builder = Builder::new(alloc, 5)?;
    let mut random = next(seed);
    for _ in 0..12 {
        random = next(random);
        let limit = 2 * (6 + builder.node_count() as u64 % 16);
        let x = (random >> 16) % limit;
        let y = (random >> 32) % limit;
        let z = (random >> 48) % limit;
        add(&mut builder, [x as u32, y as u32, z as u32])?;
    }
    let last = 2 * (5 + builder.node_count() as u32 % 16);
    let shown = [last, last - 1, last - 4, last - 5, last - 6, 1];
    finished(builder, Vec::from_array(alloc, shown)?)
}
