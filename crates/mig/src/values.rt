// The values of nodes at a word.
ghost use Rattle.std.specs.Prelude.{◌≡◌, map, length, IfOk};
ghost use Rattle.circuit.specs.Gates.{valuation};
ghost use Rattle.mig.specs.Graphs.{literal_value, node_value, AreNodes, Fits};

use crate::Node;
use aq_base::{List, Memory};
use circuit::{CellKind, Word, value_at};
use std::alloc::Global;

/// The value of a literal.
#[tactic(auto, unfolding(crate::specs::Graphs::literal_value))]
fn literal_value(values: &[bool], literal: u32) -> bool
    ensures { result ≡ literal_value (valuation values.now) literal }
{
    let value = value_at(values, literal / 2);
    if literal % 2 == 1 { !value } else { value }
}

/// The value of a majority.
#[tactic(auto, unfolding(crate::specs::Graphs::node_value))]
fn node_value(values: &[bool], node: Node) -> bool
    ensures { result ≡ node_value (valuation values.now) node }
{
    CellKind::Majority.value(
        literal_value(values, node.x),
        literal_value(values, node.y),
        literal_value(values, node.z),
    )
}

/// The values that the nodes have at a word with a value for each input, in order.
pub(crate) fn node_values(alloc: Global, nodes: &[Node], word: &[bool]) -> Result<Vec<bool>, Memory>
    requires { AreNodes (length word.now) nodes.now }
    ensures { IfOk result (λ values. Fits (length word.now) nodes.now word.now (valuation values.items)) }
{
    let mut values = Vec::new(alloc);
    values.push(false)?;
    values.extend_from_slice(word)?;
    for node in nodes {
        let value = node_value(&values, *node);
        values.push(value)?;
    }
    Ok(values)
}

/// The values of the literals that outputs show, in order.
pub(crate) fn shown(alloc: Global, outputs: &[u32], values: &[bool]) -> Result<Word, Memory>
    ensures { IfOk result (λ word. word ≡ map (literal_value (valuation values.now)) outputs.now) }
{
    let mut word = List::new(alloc);
    for output in outputs {
        word.push(literal_value(values, *output))?;
    }
    Ok(word)
}
