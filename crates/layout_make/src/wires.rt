// The wires of a channel.
ghost use Rattle.std.specs.Prelude.{◌≡◌, ℕ, ◌+◌, ◌<◌, ◌^◌, ◌++◌, [], length, slice_get, Some, IfOk, OnOk};
ghost use Rattle.rowed.specs.declared.source.Source.{Source as From};
ghost use Rattle.rowed.specs.PlacedNets.{placed_rows};
ghost use Rattle.rowed.specs.Extent.{widest};
ghost use Rattle.rowed.specs.Limits.{KeepsWidth};
ghost use Rattle.cell_library.specs.Reach.{slot_width_of};
ghost use Rattle.layout_make.specs.Spots.{spots_of, spots, AreGiven};
ghost use Rattle.layout_make.specs.Channel.{wire_to, pin_wire, wires_into, from_of, channel as channel_of};
ghost use Rattle.layout_make.specs.Code.WireFits.{SourceFits, CellFits, PinFits, WiresFit};

use crate::spots::{Row, Spot, in_column, out_column};
use aq_base::{List, Memory};
use cell_library::Library;
use rowed::{Placed, Source, Wire};
use std::alloc::Global;

/// The wire from a source in the lower row to an input pin of a cell.
fn wire_to(library: &Library, lower: &Row, source: Source, spot: &Spot, pin: u32) -> Wire
    requires { PinFits library.now (spots_of lower.now.cells.now lower.now.slots.now) spot.now pin source }
    ensures { result ≡ wire_to library.now (slice_get (spots_of lower.now.cells.now lower.now.slots.now) source.cell)
        source.output spot.now pin }
{
    let from = lower.spot(source.cell as usize);
    Wire {
        from_slot: from.slot + source.output,
        to_slot: spot.slot + pin,
        from_column: out_column(library, &from, source.output),
        to_column: in_column(library, spot, pin),
    }
}

/// Adds the wire that ends at an input pin of a cell, if the pin is fed.
fn push_wire(
    library: &Library,
    lower: &Row,
    spot: &Spot,
    pin: u32,
    source: Option<Source>,
    wires: &mut Vec<Wire>,
) -> Result<(), Memory>
    requires { (s : From) → source ≡ Some s
        → PinFits library.now (spots_of lower.now.cells.now lower.now.slots.now) spot.now pin s }
    ensures { OnOk result (wires.new.items ≡ wires.old.items
        ++ pin_wire library.now (spots_of lower.now.cells.now lower.now.slots.now) spot.now pin source []) }
{
    if let Some(source) = source {
        wires.push(wire_to(library, lower, source, spot, pin))?;
    }
    Ok(())
}

/// The wires between two neighbouring rows, by the cells of the upper row and their pins.
fn wires_into(
    alloc: Global,
    library: &Library,
    lower: &Row,
    upper: &Row,
) -> Result<Vec<Wire>, Memory>
    requires fit { WiresFit library.now
        (spots_of lower.now.cells.now lower.now.slots.now) (spots_of upper.now.cells.now upper.now.slots.now) }
    requires long { length upper.now.slots.now ≡ length upper.now.cells.now }
    ensures { IfOk result (λ wires. wires.items ≡ wires_into library.now
        (spots_of lower.now.cells.now lower.now.slots.now) (spots_of upper.now.cells.now upper.now.slots.now)) }
{
    let mut wires = Vec::with_capacity(alloc, upper.cells.len())?;
    for number in 0..upper.cells.len() {
        let spot = upper.spot(number);
        push_wire(library, lower, &spot, 0, spot.cell.source0, &mut wires)?;
        push_wire(library, lower, &spot, 1, spot.cell.source1, &mut wires)?;
        push_wire(library, lower, &spot, 2, spot.cell.source2, &mut wires)?;
    }
    Ok(wires)
}

/// The wires of the channel above row `channel`, by rising column of the output where they begin: one for each input
/// pin of the row above that has a source. Slots and columns are counted from 0 at the left edge of the rows.
///
/// There is a row above, the library gives the kinds of both rows, and no row is wider than 2,000,000,000 nanometres.
/// The one refusal is want of memory.
pub fn channel_wires(
    alloc: Global,
    placed: &Placed,
    library: &Library,
    channel: u32,
) -> Result<List<Wire>, Memory>
    requires rows { channel + 1 < length placed.now.net.rows }
    requires narrow { KeepsWidth (widest (placed_rows placed.now)) (slot_width_of library.now) }
    requires lower_given { AreGiven library.now (spots placed.now channel) }
    requires upper_given { AreGiven library.now (spots placed.now (channel + 1)) }
    ensures { IfOk result (λ wires. wires ≡ channel_of placed.now library.now channel) }
{
    placed.known();
    library.known();
    let lower = Row::of(placed, channel as usize);
    let upper = Row::of(placed, channel as usize + 1);
    let mut wires = wires_into(alloc, library, &lower, &upper)?;
    wires.sort_by_key(|wire| wire.from_column)?;
    Ok(List::from_vec(wires))
}
