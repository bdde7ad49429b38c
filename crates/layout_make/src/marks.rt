// The labels of a drawing.
ghost use Rattle.std.specs.Prelude.{◌≡◌, ℕ, ◌<◌, ◌+◌, ◌*◌, ◌^◌, ◌++◌, ◌∷◌, length, IfOk, OnOk};
ghost use Rattle.std.specs.Fmt.{decimal};
ghost use Rattle.geom.specs.declared.layout.Element.TheVariants.{Text};
ghost use Rattle.layout_rules.specs.Labels.{letter_i, letter_o};
ghost use Rattle.rowed.specs.declared.row_cell.RowCell.{RowCell as Cell};
ghost use Rattle.sorting.specs.Numbers.{numbers};
ghost use Rattle.layout_make.specs.Spots.{spots_of, has_port, input_port, output_port};
ghost use Rattle.layout_make.specs.Sheet.{centre};
ghost use Rattle.layout_make.specs.Code.Labelling.{port_of, letter_of, port_slot, port_slots, label_at, port_texts};

use crate::areas::centre;
use crate::spots::Row;
use aq_base::{Memory, Text};
use cell_library::Library;
use geom::{Element, Label};
use layout_rules::layers::LABELS;
use rowed::RowCell;
use std::alloc::Global;

/// Which ports of a net a row shows.
#[derive(Clone, Copy, PartialEq, Eq)]
pub(crate) enum Ports {
    Inputs,
    Outputs,
}

/// The labels of a row's ports: which ports, how many at most, in which column of their slots, and at which height.
#[derive(Clone, Copy)]
pub(crate) struct PortLabels {
    pub(crate) ports: Ports,
    pub(crate) count: u32,
    pub(crate) column: u32,
    pub(crate) y: u64,
}

/// The input or the output that a cell shows.
fn port_of(cell: &RowCell, ports: Ports) -> Option<u32>
    ensures { result ≡ port_of ports cell.now }
{
    match ports {
        Ports::Inputs => cell.input,
        Ports::Outputs => cell.output,
    }
}

/// For each port below the count, the slot of the first cell of the row that has it, and 0 where there is none.
fn port_slots(alloc: Global, row: &Row, ports: Ports, count: u32) -> Result<Vec<u32>, Memory>
    requires { length row.now.slots.now ≡ length row.now.cells.now }
    ensures { IfOk result (λ slots. slots.items
        ≡ port_slots ports (spots_of row.now.cells.now row.now.slots.now) count) }
{
    let mut slots = vec![in alloc; 0; count as usize]?;
    let mut number = row.cells.len();
    while number > 0 {
        number -= 1;
        let spot = row.spot(number);
        if let Some(port) = port_of(&spot.cell, ports) {
            if port < count {
                slots[port as usize] = spot.slot;
            }
        }
    }
    Ok(slots)
}

/// The letter of a label.
fn letter(ports: Ports) -> u8
    ensures { result ≡ letter_of ports }
{
    match ports {
        Ports::Inputs => b'I',
        Ports::Outputs => b'O',
    }
}

/// The text of a port's label.
fn label_text(alloc: Global, ports: Ports, port: u32) -> Result<Vec<u8>, Memory>
    ensures { IfOk result (λ text. text.items ≡ letter_of ports ∷ decimal port) }
{
    let mut text = Vec::new(alloc);
    text.push(letter(ports))?;
    let number = format!(in alloc; "{port}")?;
    text.extend_from_slice(number.as_bytes())?;
    Ok(text)
}

/// The label of a port, in this column and at this height.
fn label(
    alloc: Global,
    library: &Library,
    ports: Ports,
    port: u32,
    column: u32,
    y: u64,
) -> Result<Label, Memory>
    requires { y < 2 ^ 62 }
    ensures { IfOk result (λ label. label ≡ label_at ports port (centre library.now column) y) }
{
    let text = label_text(alloc, ports, port)?;
    Ok(Label {
        layer: LABELS,
        x: centre(library, column) as i64,
        y: y as i64,
        text: Text::from_vec(text)?,
    })
}

/// Adds the labels of the ports of a row.
pub(crate) fn push_labels(
    alloc: Global,
    library: &Library,
    row: &Row,
    labels: PortLabels,
    elements: &mut Vec<Element>,
) -> Result<(), Memory>
    requires long { length row.now.slots.now ≡ length row.now.cells.now }
    requires y { labels.y < 2 ^ 40 }
    requires fits { (port : ℕ)
        → port_slot labels.ports (spots_of row.now.cells.now row.now.slots.now) port
        * library.now.columns + labels.column < 2 ^ 32 }
    ensures { OnOk result (elements.new.items ≡ elements.old.items
        ++ port_texts library.now labels.ports (spots_of row.now.cells.now row.now.slots.now) labels.column
        labels.y labels.count) }
{
    library.known();
    let slots = port_slots(alloc, row, labels.ports, labels.count)?;
    for port in 0..labels.count {
        let first = u64::from(slots[port as usize]) * library.columns();
        let own = (first + u64::from(labels.column)) as u32;
        let text = label(alloc, library, labels.ports, port, own, labels.y)?;
        elements.push(Element::Text(text))?;
    }
    Ok(())
}
