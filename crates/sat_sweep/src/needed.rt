// Which nodes literals need that are not known to be alike. It serves the sweep, and no clause speaks of it.
use crate::merged::Merged;
use crate::numbers::{first_node, node_limit};
use aq_base::Memory;
use std::alloc::Global;

/// Whether a node is marked.
pub(crate) fn is_marked(marks: &[bool], node: u32) -> bool {
    marks.get(node as usize).copied().unwrap_or(false)
}

/// Marks the node that stands for a literal.
fn mark(marks: &mut [bool], merged: &Merged, literal: u32) {
    let place = (merged.resolved(literal) / 2) as usize;
    if place < marks.len() {
        marks[place] = true;
    }
}

/// Marks the operands of marked nodes: operands are lower than their node, so that one walk down marks all.
fn mark_cones(marks: &mut [bool], merged: &Merged) {
    let graph = merged.graph();
    for node in (first_node(graph)..node_limit(graph)).rev() {
        if is_marked(marks, node)
            && let Some(operands) = graph.operands(node.saturating_mul(2))
        {
            mark(marks, merged, operands.x);
            mark(marks, merged, operands.y);
            mark(marks, merged, operands.z);
        }
    }
}

/// Marks the nodes that are needed by the literals of so many first places of two lists where these are not known to be
/// alike.
pub(crate) fn needed(
    alloc: Global,
    merged: &Merged,
    ones: &[u32],
    others: &[u32],
    count: usize,
) -> Result<Vec<bool>, Memory> {
    let mut marks = vec![in alloc; false; node_limit(merged.graph()) as usize]?;
    for (one, other) in ones.iter().zip(others).take(count) {
        if merged.resolved(*one) != merged.resolved(*other) {
            mark(&mut marks, merged, *one);
            mark(&mut marks, merged, *other);
        }
    }
    mark_cones(&mut marks, merged);
    Ok(marks)
}
