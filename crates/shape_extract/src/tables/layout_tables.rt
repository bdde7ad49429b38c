// The tables of a layout whose cells keep their rule, made once and read by the rules and by the circuit.
ghost use Rattle.std.specs.Prelude.{◌≡◌, ◌^◌, ◌<◌, IfOk};
ghost use Rattle.geom.specs.FlatForm.{flat_count};
ghost use Rattle.layout_rules.specs.CircuitRules.{CellsBroken};
ghost use Rattle.layout_rules.specs.Reports.{ReportsNone};
ghost use Rattle.shape_extract.specs.Code.LayoutTables.{AreTablesOf};
ghost use Rattle.shape_extract.specs.Filed.{IsFiled};

use crate::connectivity::net_walk::nets_by;
use crate::filed_shapes::FiledShapes;
use crate::tables::mark_table::{Mark, mark_table};
use crate::tables::pin_frames::pin_frames;
use crate::tables::pin_rows::pin_rows;
use crate::tables::row_edges::rows;
use aq_base::{List, Memory};
use geom::Flat;
use std::alloc::Global;

/// What was found of a layout whose cells keep their rule.
#[derive(Drop)]
pub struct LayoutTables {
    /// For each shape which labels mark it.
    pub marking: Vec<Mark>,
    /// For each shape its net.
    pub nets: List<u32>,
    /// The lower edges of the rows, rising.
    pub edges: Vec<i64>,
    /// For each pin the frame in which it lies; 0 for another shape, as below.
    pub pin_frames: Vec<u32>,
    /// For each pin the row of its cell.
    pub pin_rows: Vec<usize>,
}

/// The tables of a layout. They are refused for want of memory alone.
pub fn tables_of(alloc: Global, flat: &Flat, filed: &FiledShapes) -> Result<LayoutTables, Memory>
    requires few { flat_count flat.now < 2 ^ 32 }
    requires filed { IsFiled flat.now.shapes filed.now }
    requires kept { ReportsNone (CellsBroken flat.now.shapes) }
    ensures { IfOk result (AreTablesOf flat.now) }
{
    let shapes = flat.shapes.as_slice();
    let edges = rows(alloc, shapes)?;
    let pin_frames = pin_frames(alloc, shapes, filed)?;
    let pin_rows = pin_rows(alloc, shapes, pin_frames.as_slice(), edges.as_slice())?;
    let marking = mark_table(alloc, flat, filed)?;
    let nets = nets_by(alloc, shapes, filed)?;
    Ok(LayoutTables {
        marking,
        nets,
        edges,
        pin_frames,
        pin_rows,
    })
}
