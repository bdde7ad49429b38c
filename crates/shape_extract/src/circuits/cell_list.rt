// The cells of a circuit, where the rules of circuits are kept.
ghost use Rattle.std.specs.Prelude.{◌≡◌, ◌<◌, ◌^◌, IfOk, length, slice_get, Some};
ghost use Rattle.std.specs.List.{AllZip};
ghost use Rattle.geom.specs.declared.shapes.Shape.{Shape};
ghost use Rattle.layout_rules.specs.Rows.{AreRows, row_of};
ghost use Rattle.layout_rules.specs.Reports.{Passes};
ghost use Rattle.layout_rules.specs.Layers.{is_frame};
ghost use Rattle.shape_extract.specs.Extraction.{IsCellFrom};
ghost use Rattle.shape_extract.specs.Code.Tables.{AreReady, AreKnownPins, IsFrameOf};
ghost use Rattle.shape_extract.specs.Filed.{IsFiled};

use crate::circuits::cell_feeds::{Tables, feed_at};
use crate::pairs::list_filed_partners;
use crate::planes::Plane;
use crate::rules::cell_pins::kind_numbered;
use crate::tables::pins_in_frames::HoldsPin;
use crate::tables::row_edges::{lower_edge, row_at};
use aq_base::{List, Memory};
use circuit::CellKind;
use circuit_extracted::ExCell;
use std::alloc::Global;

/// The kind of the cell with this frame.
fn kind_of(tables: &Tables<'_>, f: u32) -> CellKind
    requires tables { AreReady tables.now }
    requires frame { Passes is_frame tables.now.flat.now.shapes f }
    ensures { IsFrameOf tables.now.flat.now.shapes result f }
{
    let frame = &tables.flat.shapes.as_slice()[f as usize];
    match kind_numbered(frame.datatype) {
        Some(kind) => kind,
        None => CellKind::Buffer,
    }
}

/// The row of the cell with this frame.
fn row_of(tables: &Tables<'_>, edges: &[i64], f: u32) -> u32
    requires few { length tables.now.flat.now.shapes < 2 ^ 32 }
    requires rows { AreRows tables.now.flat.now.shapes edges.now }
    requires frame { Passes is_frame tables.now.flat.now.shapes f }
    ensures { (frame : Shape) → slice_get tables.now.flat.now.shapes f ≡ Some frame
        → result ≡ row_of tables.now.flat.now.shapes frame.rect.y0 }
{
    let frame = &tables.flat.shapes.as_slice()[f as usize];
    row_at(edges, lower_edge(frame)) as u32
}

/// The cell with this frame, which is excited in the phase of its row. The list is for use within.
fn cell_of(
    tables: &Tables<'_>,
    edges: &[i64],
    f: u32,
    pins: &mut Vec<u32>,
) -> Result<ExCell, Memory>
    requires tables { AreReady tables.now }
    requires known { AreKnownPins tables.now }
    requires filed { IsFiled tables.now.flat.now.shapes tables.now.filed.now }
    requires rows { AreRows tables.now.flat.now.shapes edges.now }
    requires frame { Passes is_frame tables.now.flat.now.shapes f }
    ensures { IfOk result (λ cell. IsCellFrom tables.now.flat.now tables.now.frames.now cell f) }
{
    let shapes = tables.flat.shapes.as_slice();
    let kind = kind_of(tables, f);
    let row = row_of(tables, edges, f);
    list_filed_partners(&HoldsPin, Plane::Pins, shapes, tables.filed, f, pins)?;
    let feed0 = feed_at(tables, pins.as_slice(), kind, f, 0);
    let feed1 = feed_at(tables, pins.as_slice(), kind, f, 1);
    let feed2 = feed_at(tables, pins.as_slice(), kind, f, 2);
    Ok(ExCell {
        kind,
        row,
        phase: (row % 4) as u16,
        feed0,
        feed1,
        feed2,
    })
}

/// The cells in the order of their frames.
pub fn cells_of(alloc: Global, tables: &Tables<'_>, edges: &[i64]) -> Result<List<ExCell>, Memory>
    requires tables { AreReady tables.now }
    requires known { AreKnownPins tables.now }
    requires filed { IsFiled tables.now.flat.now.shapes tables.now.filed.now }
    requires rows { AreRows tables.now.flat.now.shapes edges.now }
    ensures { IfOk result
        (λ cells. AllZip (IsCellFrom tables.now.flat.now tables.now.frames.now) cells tables.now.frames.now) }
{
    let mut pins = Vec::new(alloc);
    let mut cells = Vec::new(alloc);
    for frame in tables.frames {
        cells.push(cell_of(tables, edges, *frame, &mut pins)?)?;
    }
    Ok(List::from_vec(cells))
}
