// What feeds the inputs of cells, where the rules of circuits are kept.
ghost use Rattle.std.specs.Prelude.{◌≡◌, ◌<◌, ◌≤◌, length};
ghost use Rattle.geom.specs.declared.shapes.Shape.{Shape};
ghost use Rattle.circuit.specs.CellKinds.{inputs_of};
ghost use Rattle.layout_rules.specs.Reports.{PassTogether};
ghost use Rattle.layout_rules.specs.Pins.{IsPinOf};
ghost use Rattle.shape_extract.specs.Code.Cells.{holds_pin};
ghost use Rattle.shape_extract.specs.Extraction.{IsOutputPin, FeedsPin};
ghost use Rattle.shape_extract.specs.Code.PinNames.{IsOn};
ghost use Rattle.shape_extract.specs.Searches.{AreThose};
ghost use Rattle.shape_extract.specs.Code.Tables.{AreReady, AreKnownPins, IsFrameOf, IsFeedOfInput};

use crate::circuits::drivers::driver_of;
use crate::circuits::pin_names::name_of;
use crate::filed_shapes::FiledShapes;
use crate::rules::cell_pins::is_marked;
use crate::tables::mark_table::Mark;
use circuit::CellKind;
use circuit_extracted::Feed;
use geom::Flat;
use layout_rules::layers::{INPUT_PIN, OUTPUT_PIN};
use rowed::Source;

/// What cells are made from: the layout, its nets, its frames in order with the place of each, the driver of each net,
/// which labels mark each pin, and the frame of each pin.
#[derive(Clone, Copy)]
pub struct Tables<'a> {
    pub flat: &'a Flat,
    pub filed: &'a FiledShapes,
    pub nets: &'a [u32],
    pub frames: &'a [u32],
    pub places: &'a [u32],
    pub drivers: &'a [u32],
    pub marking: &'a [Mark],
    pub pin_frames: &'a [u32],
}

/// The output of a cell that an output pin is.
pub fn source_of(tables: &Tables<'_>, q: u32) -> Source
    requires tables { AreReady tables.now }
    requires known { AreKnownPins tables.now }
    requires output { IsOn tables.now.flat.now OUTPUT_PIN q }
    ensures { IsOutputPin tables.now.flat.now tables.now.frames.now result q }
{
    let pin = &tables.flat.shapes.as_slice()[q as usize];
    let frame = tables.pin_frames[q as usize];
    Source {
        cell: tables.places[frame as usize],
        output: u32::from(pin.datatype),
    }
}

/// What feeds an input pin: the circuit's input that its label names, or else the output pin in its net.
fn feed_of(tables: &Tables<'_>, p: u32) -> Feed
    requires tables { AreReady tables.now }
    requires known { AreKnownPins tables.now }
    requires input { IsOn tables.now.flat.now INPUT_PIN p }
    ensures { FeedsPin tables.now.flat.now tables.now.frames.now p result }
{
    if let Some(number) = name_of(tables.flat, tables.marking, p) {
        return Feed::Label(number);
    }
    let driver = driver_of(tables.flat, tables.nets, tables.drivers, p);
    let source = source_of(tables, driver);
    Feed::Pin {
        cell: source.cell,
        output: source.output,
    }
}

/// The input pin of this number among the pins of a cell.
fn input_pin(tables: &Tables<'_>, pins: &[u32], kind: CellKind, f: u32, number: u32) -> u32
    requires tables { AreReady tables.now }
    requires frame { IsFrameOf tables.now.flat.now.shapes kind f }
    requires pins { AreThose (PassTogether holds_pin tables.now.flat.now.shapes f) pins.now }
    requires number { number < inputs_of kind }
    ensures { IsPinOf tables.now.flat.now.shapes f INPUT_PIN number result }
{
    let shapes = tables.flat.shapes.as_slice();
    for pin in pins {
        let shape = &shapes[*pin as usize];
        if is_marked(shape, INPUT_PIN, number) {
            return *pin;
        }
    }
    f
}

/// What feeds the input of this number of a cell; nothing past the inputs of its kind.
pub fn feed_at(tables: &Tables<'_>, pins: &[u32], kind: CellKind, f: u32, number: u32) -> Feed
    requires tables { AreReady tables.now }
    requires known { AreKnownPins tables.now }
    requires frame { IsFrameOf tables.now.flat.now.shapes kind f }
    requires pins { AreThose (PassTogether holds_pin tables.now.flat.now.shapes f) pins.now }
    ensures { IsFeedOfInput tables.now.flat.now tables.now.frames.now kind f number result }
{
    if number >= kind.inputs() {
        return Feed::Nothing;
    }
    let pin = input_pin(tables, pins, kind, f, number);
    feed_of(tables, pin)
}
