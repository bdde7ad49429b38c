// The circuit of a layout, put together from its cells and ports, where the rules of circuits are kept.
ghost use Rattle.std.specs.Prelude.{◌≡◌, ◌^◌, ◌<◌, IfOk};
ghost use Rattle.geom.specs.FlatForm.{flat_count};
ghost use Rattle.shape_extract.specs.Extraction.{IsCircuitOf};
ghost use Rattle.shape_extract.specs.Code.LayoutTables.{AreTablesOf};
ghost use Rattle.shape_extract.specs.Extracts.{KeepsFive};
ghost use Rattle.shape_extract.specs.Code.Parts.{AreParts};
ghost use Rattle.shape_extract.specs.Filed.{IsFiled};

use crate::circuits::cell_feeds::Tables;
use crate::circuits::cell_list::cells_of;
use crate::circuits::drivers::drivers;
use crate::circuits::frames::{ordered_frames, places_of};
use crate::circuits::outputs::{outputs_of, wire_count};
use crate::filed_shapes::FiledShapes;
use crate::tables::layout_tables::LayoutTables;
use crate::tables::ports::{count_entries, count_exits, ports};
use aq_base::{List, Memory};
use circuit_extracted::{ExCell, Extracted};
use geom::Flat;
use rowed::Source;
use std::alloc::Global;

/// The cells of a circuit, and what it takes and shows.
#[derive(Drop)]
pub struct CircuitParts {
    pub cells: List<ExCell>,
    pub inputs: u32,
    pub outputs: List<Source>,
}

fn parts_of(
    alloc: Global,
    flat: &Flat,
    filed: &FiledShapes,
    found: &LayoutTables,
) -> Result<CircuitParts, Memory>
    requires few { flat_count flat.now < 2 ^ 32 }
    requires filed { IsFiled flat.now.shapes filed.now }
    requires found { AreTablesOf flat.now found.now }
    requires kept { KeepsFive flat.now }
    ensures { IfOk result (λ parts. AreParts flat.now parts.cells parts.inputs parts.outputs) }
{
    let shapes = flat.shapes.as_slice();
    let nets = found.nets.as_slice();
    let marking = found.marking.as_slice();
    let pin_frames = found.pin_frames.as_slice();
    let edges = found.edges.as_slice();
    let rows = found.pin_rows.as_slice();
    let frames = ordered_frames(alloc, shapes)?;
    let places = places_of(alloc, shapes, frames.as_slice())?;
    let drivers = drivers(alloc, flat, nets)?;
    let tables = Tables {
        flat,
        filed,
        nets,
        frames: frames.as_slice(),
        places: places.as_slice(),
        drivers: drivers.as_slice(),
        marking,
        pin_frames,
    };
    let ports = ports(alloc, shapes, rows, edges.len().saturating_sub(1))?;
    let cells = cells_of(alloc, &tables, edges)?;
    let outputs = outputs_of(alloc, &tables, count_exits(ports.as_slice()))?;
    Ok(CircuitParts {
        cells,
        inputs: count_entries(ports.as_slice()) as u32,
        outputs,
    })
}

/// The circuit of a layout that keeps the rules of circuits. It is refused for want of memory alone.
pub fn circuit_of(
    alloc: Global,
    flat: &Flat,
    filed: &FiledShapes,
    found: LayoutTables,
) -> Result<Extracted, Memory>
    requires few { flat_count flat.now < 2 ^ 32 }
    requires filed { IsFiled flat.now.shapes filed.now }
    requires found { AreTablesOf flat.now found }
    requires kept { KeepsFive flat.now }
    ensures { IfOk result (IsCircuitOf flat.now) }
{
    let parts = parts_of(alloc, flat, filed, &found)?;
    let wires = wire_count(flat, found.marking.as_slice());
    let rows = found.edges.len() as u32;
    let CircuitParts {
        cells,
        inputs,
        outputs,
    } = parts;
    Ok(Extracted {
        cells,
        inputs,
        outputs,
        rows,
        wires,
        nets: found.nets,
    })
}
