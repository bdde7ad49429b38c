// The chip of a net in rows, and the graph of its majorities.
use crate::arrays::{at, narrow, put};
use crate::chip::{Chip, Wire};
use crate::graph::{GraphParts, UseLists, needed};
use aq_base::Memory;
use circuit::CellKind;
use mig::Node;
use rowed::{RowCell, RowNet, Source};
use std::alloc::Global;

/// A chip of a net in rows: the graph of its majorities, and the number of the output that each cell of the last row
/// shows. In the graph each cell but a majority shows what its source shows.
#[derive(Drop)]
pub(crate) struct RowChip {
    pub(crate) chip: Chip,
    pub(crate) outputs: Vec<u32>,
    inputs: u32,
    nodes: Vec<Node>,
    shown: Vec<u32>,
}

/// The label of a node.
fn label_of(node: u32) -> u32 {
    node.saturating_mul(2)
}

impl RowChip {
    /// Adds the wire of a pin to the cell that is added next, if the pin is fed; the label of what feeds it. The row
    /// below begins with cell `below`.
    fn add_wire(&mut self, below: u32, pin: u8, source: Option<Source>) -> Result<u32, Memory> {
        let Some(source) = source else {
            return Ok(0);
        };
        let from = below.saturating_add(source.cell);
        let to = self.chip.count();
        self.chip.wires.push(Wire {
            from,
            to,
            output: u8::try_from(source.output).unwrap_or(0),
            pin,
        })?;
        Ok(at(&self.chip.labels, from))
    }

    /// Adds a majority of these labels; its own label.
    fn add_node(&mut self, node: Node) -> Result<u32, Memory> {
        let first = self.inputs.saturating_add(1);
        let number = first.saturating_add(narrow(self.nodes.len()));
        self.nodes.push(node)?;
        Ok(label_of(number))
    }

    /// Adds a cell with its wires to the row.
    fn add_cell(&mut self, below: u32, cell: &RowCell) -> Result<(), Memory> {
        let x = self.add_wire(below, 0, cell.source0)?;
        let y = self.add_wire(below, 1, cell.source1)?;
        let z = self.add_wire(below, 2, cell.source2)?;
        let label = match (cell.kind, cell.input) {
            (CellKind::Majority, _) => self.add_node(Node { x, y, z })?,
            (_, Some(input)) => label_of(input.saturating_add(1)),
            _ => x,
        };
        self.chip.add(cell.kind, label)
    }

    /// Lets each constant show what its user shows, to stand near that.
    fn label_constants(&mut self) {
        for wire in &self.chip.wires {
            if at(&self.chip.labels, wire.from) == 0 {
                let label = at(&self.chip.labels, wire.to);
                put(&mut self.chip.labels, wire.from, label);
            }
        }
    }

    /// The chip of a net in rows.
    pub(crate) fn new(alloc: Global, net: &RowNet) -> Result<RowChip, Memory> {
        let mut made = RowChip {
            chip: Chip::empty(alloc),
            outputs: Vec::new(alloc),
            inputs: net.inputs,
            nodes: Vec::new(alloc),
            shown: Vec::new(alloc),
        };
        let mut below: u32 = 0;
        for row in net.rows.as_slice() {
            let first = made.chip.count();
            made.chip.begin_row()?;
            made.outputs.clear();
            for cell in row.as_slice() {
                made.add_cell(below, cell)?;
                made.outputs.push(cell.output.unwrap_or(0))?;
            }
            below = first;
        }
        made.chip.begin_row()?;
        for cell in below..made.chip.count() {
            made.shown.push(at(&made.chip.labels, cell))?;
        }
        made.label_constants();
        Ok(made)
    }

    /// The graph of its majorities.
    pub(crate) fn graph(&self) -> GraphParts<'_> {
        GraphParts {
            inputs: self.inputs,
            nodes: &self.nodes,
            outputs: &self.shown,
        }
    }

    /// The uses of its nodes.
    pub(crate) fn uses(&self, alloc: Global) -> Result<UseLists, Memory> {
        let graph = self.graph();
        let marks = needed(alloc, &graph)?;
        UseLists::new(alloc, &graph, &marks)
    }
}
