// Which nodes the outputs need.
ghost use Rattle.std.specs.Prelude.{◌≡◌, ◌+◌, ◌/◌, ◌<◌, ◌^◌, true, false, length, slice_index_or, slice_set, IfOk};
ghost use Rattle.std.specs.List.{AllByRecursion};
ghost use Rattle.mig.specs.Graphs.{AreNodes, bound};
ghost use Rattle.mig.specs.Code.Needed.{mark_three, AreNeeded};

use crate::{Graph, Node};
use aq_base::Memory;
use std::alloc::Global;

/// Whether a node is marked.
pub(crate) fn is_marked(marks: &[bool], number: usize) -> bool
    ensures { result ≡ slice_index_or marks.now number false }
{
    marks.get(number).copied().unwrap_or(false)
}

/// Marks the node of a literal.
fn mark(marks: &mut Vec<bool>, literal: u32)
    ensures { marks.new.items ≡ slice_set marks.old.items (literal / 2) true }
{
    let number = (literal / 2) as usize;
    if number < marks.len() {
        marks[number] = true;
    }
}

/// Marks the nodes of a majority's literals.
fn mark_operands(marks: &mut Vec<bool>, node: Node)
    ensures { marks.new.items ≡ mark_three marks.old.items node }
{
    mark(marks, node.x);
    mark(marks, node.y);
    mark(marks, node.z);
}

/// Which nodes the outputs need: operands are lower than their node, so that one walk down marks them all.
fn marks(alloc: Global, inputs: u32, nodes: &[Node], outputs: &[u32]) -> Result<Vec<bool>, Memory>
    requires nodes { AreNodes inputs nodes.now }
    requires outputs { AllByRecursion (λ l. l < bound inputs (length nodes.now)) outputs.now }
    requires few { 1 + inputs + length nodes.now < 2 ^ 30 }
    ensures { IfOk result (λ marks. AreNeeded inputs nodes.now outputs.now marks.items) }
{
    let first = inputs as usize + 1;
    let mut marks = vec![in alloc; false; first + nodes.len()]?;
    for output in outputs {
        mark(&mut marks, *output);
    }
    let mut left = nodes.len();
    while left > 0 {
        left -= 1;
        if is_marked(&marks, first + left) {
            mark_operands(&mut marks, nodes[left]);
        }
    }
    Ok(marks)
}

/// Which nodes of a graph its outputs need.
pub(crate) fn needed(alloc: Global, graph: &Graph) -> Result<Vec<bool>, Memory>
    ensures { IfOk result (λ marks. AreNeeded graph.now.inputs graph.now.nodes graph.now.outputs marks.items) }
{
    marks(
        alloc,
        graph.inputs,
        graph.nodes.as_slice(),
        graph.outputs.as_slice(),
    )
}
