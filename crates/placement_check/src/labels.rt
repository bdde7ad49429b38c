// The labels of the cells: each shows a literal of the graph, from the labels of its sources.
ghost use Rattle.std.specs.Prelude.{◌≡◌, ◌+◌, ◌<◌, ◌^◌, length, slice_get};
ghost use Rattle.placement_check.specs.Labels.{label_of, are, is_order, node_at, is_majority, shows, is_shown, fits};
ghost use Rattle.placement_check.specs.Labels.{row_fits, rows_fit};
ghost use Rattle.mig.specs.declared.node.Node.{Node};

use aq_base::List;
use circuit::CellKind;
use mig::{Graph, Node, turned};
use rowed::{RowCell, Source};

/// The label of a source; that of the constant false without a source.
fn label_of(below: &[u32], source: Option<Source>) -> u32
    ensures { result ≡ label_of below.now source }
{
    match source {
        Some(source) => below.get(source.cell as usize).copied().unwrap_or(0),
        None => 0,
    }
}

/// Whether three literals are these, in this order.
fn are(these: (u32, u32, u32), a: u32, b: u32, c: u32) -> bool
    ensures { result ≡ are these.0 these.1 these.2 a b c }
{
    a == these.0 && b == these.1 && c == these.2
}

/// Whether three literals are those of a node in some order.
fn is_order(node: Node, a: u32, b: u32, c: u32) -> bool
    ensures { result ≡ is_order node a b c }
{
    let Node { x, y, z } = node;
    are((x, y, z), a, b, c)
        || are((x, z, y), a, b, c)
        || are((y, x, z), a, b, c)
        || are((y, z, x), a, b, c)
        || are((z, x, y), a, b, c)
        || are((z, y, x), a, b, c)
}

/// The majority that has this number among all nodes, if there is one.
fn node_at(graph: &Graph, number: u32) -> Option<Node>
    ensures { result ≡ node_at graph.now number }
{
    let first = 1 + u64::from(graph.inputs());
    let k = u64::from(number).checked_sub(first)? as usize;
    if k < graph.node_count() {
        Some(graph.node(k))
    } else {
        None
    }
}

/// Whether a majority of these labels shows the literal.
fn is_majority(graph: &Graph, label: u32, a: u32, b: u32, c: u32) -> bool
    ensures { result ≡ is_majority graph.now label a b c }
{
    match node_at(graph, label / 2) {
        Some(node) => {
            if label % 2 == 0 {
                is_order(node, a, b, c)
            } else {
                is_order(node, turned(a), turned(b), turned(c))
            }
        }
        None => false,
    }
}

/// Whether a cell shows its label, where the cells of the row before show theirs.
fn shows(graph: &Graph, below: &[u32], cell: &RowCell, label: u32) -> bool
    ensures { result ≡ shows graph.now below.now cell.now label }
{
    if let Some(input) = cell.input {
        return input < graph.inputs() && u64::from(label) == 2 * (1 + u64::from(input));
    }
    let a = label_of(below, cell.source0);
    match cell.kind {
        CellKind::Buffer | CellKind::Split2 | CellKind::Split3 => label == a,
        CellKind::Inverter => label == turned(a),
        CellKind::Zero => label == 0,
        CellKind::One => label == 1,
        CellKind::Majority => is_majority(
            graph,
            label,
            a,
            label_of(below, cell.source1),
            label_of(below, cell.source2),
        ),
    }
}

/// Whether the label is the literal of the output that the cell shows, if it shows one.
fn is_shown(graph: &Graph, output: Option<u32>, label: u32) -> bool
    ensures { result ≡ is_shown graph.now output label }
{
    match output {
        Some(output) => match graph.outputs().get(output as usize) {
            Some(literal) => *literal == label,
            None => false,
        },
        None => true,
    }
}

/// Whether a cell shows its label, and its label the output.
fn fits(graph: &Graph, below: &[u32], cell: &RowCell, label: u32) -> bool
    ensures { result ≡ fits graph.now below.now label cell.now }
{
    shows(graph, below, cell, label) && is_shown(graph, cell.output, label)
}

/// Whether the labels of a row fit, one for each cell, where the row before has these.
fn row_fits(graph: &Graph, below: &[u32], cells: &[RowCell], labels: &[u32]) -> bool
    ensures { result ≡ row_fits graph.now below.now cells.now labels.now }
{
    if cells.len() != labels.len() {
        return false;
    }
    for (place, cell) in cells.iter().enumerate() {
        if !fits(graph, below, cell, labels[place]) {
            return false;
        }
    }
    true
}

/// Whether the labels of all rows fit.
pub(crate) fn rows_fit(graph: &Graph, rows: &[List<RowCell>], labels: &[List<u32>]) -> bool
    ensures { result ≡ rows_fit graph.now rows.now labels.now }
{
    if rows.len() != labels.len() {
        return false;
    }
    let mut below: &[u32] = &[];
    for (number, row) in rows.iter().enumerate() {
        let own = labels[number].as_slice();
        if !row_fits(graph, below, row.as_slice(), own) {
            return false;
        }
        below = own;
    }
    true
}
