// The rows of all pins.
ghost use Rattle.std.specs.Prelude.{◌≡◌, ◌^◌, ◌<◌, IfOk, length};
ghost use Rattle.layout_rules.specs.Layers.{is_pin};
ghost use Rattle.layout_rules.specs.Reports.{Passes};
ghost use Rattle.layout_rules.specs.Rows.{AreRows};
ghost use Rattle.shape_extract.specs.Code.FramesOfPins.{ArePinFrames};
ghost use Rattle.shape_extract.specs.Code.PinRows.{IsRowOf};
ghost use Rattle.shape_extract.specs.Code.RowFaults.{ArePinRows};

use crate::layers::is_pin;
use crate::tables::row_edges::{lower_edge, row_at};
use aq_base::Memory;
use geom::Shape;
use std::alloc::Global;

/// The row of a pin's cell.
fn row_of_pin(shapes: &[Shape], frames: &[u32], edges: &[i64], p: u32) -> usize
    requires frames { ArePinFrames shapes.now frames.now }
    requires rows { AreRows shapes.now edges.now }
    requires pin { Passes is_pin shapes.now p }
    ensures { IsRowOf shapes.now p result }
{
    let f = frames[p as usize];
    row_at(edges, lower_edge(&shapes[f as usize]))
}

/// The row of a pin's cell, and 0 for another shape.
fn row_or_zero(shapes: &[Shape], frames: &[u32], edges: &[i64], p: u32) -> usize
    requires frames { ArePinFrames shapes.now frames.now }
    requires rows { AreRows shapes.now edges.now }
    requires within { p < length shapes.now }
    ensures { Passes is_pin shapes.now p → IsRowOf shapes.now p result }
{
    if !is_pin(&shapes[p as usize]) {
        return 0;
    }
    row_of_pin(shapes, frames, edges, p)
}

/// For each shape a number, which for a pin is the row of its cell, by the frame of each pin. It is refused for want of
/// memory alone.
pub fn pin_rows(
    alloc: Global,
    shapes: &[Shape],
    frames: &[u32],
    edges: &[i64],
) -> Result<Vec<usize>, Memory>
    requires few { length shapes.now < 2 ^ 32 }
    requires frames { ArePinFrames shapes.now frames.now }
    requires rows { AreRows shapes.now edges.now }
    ensures { IfOk result (λ rows. ArePinRows shapes.now rows.items) }
{
    let mut rows = Vec::new(alloc);
    for p in 0..shapes.len() as u32 {
        rows.push(row_or_zero(shapes, frames, edges, p))?;
    }
    Ok(rows)
}
