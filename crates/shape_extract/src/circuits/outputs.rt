// The outputs of a circuit, and its wires, where the rules of circuits are kept.
ghost use Rattle.std.specs.Prelude.{◌≡◌, ◌^◌, ◌<◌, ◌==◌, ◌&&◌, not, IfOk, count_by, length};
ghost use Rattle.geom.specs.FlatForm.{flat_count};
ghost use Rattle.layout_rules.specs.CircuitRules.{LabelsBroken};
ghost use Rattle.layout_rules.specs.Pins.{exit_count};
ghost use Rattle.layout_rules.specs.Reports.{ReportsNone};
ghost use Rattle.shape_extract.specs.Code.Marking.{AreMarks, has_label};
ghost use Rattle.shape_extract.specs.Extraction.{is_wired};
ghost use Rattle.shape_extract.specs.Code.OutputPins.{ShowsOutput, AreOutputs};
ghost use Rattle.shape_extract.specs.Code.Tables.{AreReady, AreKnownPins};

use crate::circuits::cell_feeds::{Tables, source_of};
use crate::circuits::pin_names::name_of;
use crate::tables::mark_table::Mark;
use aq_base::{List, Memory};
use geom::{Flat, Shape};
use layout_rules::layers::{INPUT_PIN, OUTPUT_PIN};
use rowed::Source;
use std::alloc::Global;

/// The number of the output that the pin shows; nothing where it shows none.
fn output_shown(flat: &Flat, marking: &[Mark], q: u32) -> Option<u32>
    requires marking { AreMarks flat.now.shapes flat.now.labels marking.now }
    requires few { flat_count flat.now < 2 ^ 32 }
    requires kept { ReportsNone (LabelsBroken flat.now) }
    requires within { q < length flat.now.shapes }
    ensures { ShowsOutput flat.now q result }
{
    let shape = &flat.shapes.as_slice()[q as usize];
    if shape.layer != OUTPUT_PIN {
        return None;
    }
    name_of(flat, marking, q)
}

/// For each output of the circuit the output of a cell that shows it.
pub fn outputs_of(alloc: Global, tables: &Tables<'_>, count: usize) -> Result<List<Source>, Memory>
    requires tables { AreReady tables.now }
    requires known { AreKnownPins tables.now }
    requires count { count ≡ exit_count tables.now.flat.now.shapes }
    ensures { IfOk result (AreOutputs tables.now.flat.now tables.now.frames.now) }
{
    let mut outputs = vec![in alloc; Source { cell: 0, output: 0 }; count]?;
    for q in 0..tables.flat.shapes.len() as u32 {
        if let Some(number) = output_shown(tables.flat, tables.marking, q) {
            outputs[number as usize] = source_of(tables, q);
        }
    }
    Ok(List::from_vec(outputs))
}

/// Whether the shape, which labels mark so, is an input pin that another cell is to feed.
fn is_wire(shape: &Shape, mark: Mark) -> bool
    ensures { result ≡ (shape.now.layer == INPUT_PIN && not (has_label mark)) }
{
    shape.layer == INPUT_PIN && !mark.has_label()
}

/// How many input pins of cells other cells feed.
pub fn wire_count(flat: &Flat, marking: &[Mark]) -> u64
    requires few { length flat.now.shapes < 2 ^ 32 }
    requires marking { AreMarks flat.now.shapes flat.now.labels marking.now }
    ensures { result ≡ count_by (is_wired flat.now) flat.now.shapes }
{
    let mut wires = 0;
    for (p, shape) in flat.shapes.as_slice().iter().enumerate() {
        if is_wire(shape, marking[p]) {
            wires += 1;
        }
    }
    wires
}
