// The rows of the sources of nets: where the rules are kept, a net has at most one output pin.
ghost use Rattle.std.specs.Prelude.{◌≡◌, ℕ, ◌<◌, ◌^◌, length, slice_get, IfOk, None, Some, Option};
ghost use Rattle.layout_rules.specs.Rows.{AreRows};
ghost use Rattle.shape_extract.specs.Code.Edges.{Rises};
ghost use Rattle.text_report.specs.Code.Heights.{BelongsTo};
ghost use Rattle.text_report.specs.Code.Sources.{AreInOrder, AreSourceRows, row_left};

use crate::edges::row_at;
use crate::rules::known;
use aq_base::Memory;
use geom::{Flat, Shape};
use layout_rules::layers::{INPUT_PIN, OUTPUT_PIN};
use shape_extract::lower_edge;
use std::alloc::Global;

/// The row to which the shape's lower edge belongs.
fn row_of(edges: &[i64], shape: &Shape) -> u32
    requires rising { Rises edges.now }
    requires few { length edges.now < 2 ^ 32 }
    ensures { (row : ℕ) → BelongsTo edges.now row shape.now.rect.y0 → result ≡ row }
{
    row_at(edges, lower_edge(shape)) as u32
}

/// Writes the row of each output pin to the place of its net.
fn write_rows(flat: &Flat, nets: &[u32], edges: &[i64], rows: &mut [Option<u32>])
    requires order { AreInOrder flat.now nets.now }
    requires rows { AreRows flat.now.shapes edges.now }
    requires few { length edges.now < 2 ^ 32 }
    requires long { length rows.old ≡ length flat.now.shapes }
    requires none { (net : ℕ) (row : Option ℕ) → slice_get rows.old net ≡ Some row → row ≡ None }
    ensures { AreSourceRows flat.now.shapes nets.now rows.new }
{
    let shapes = flat.shapes.as_slice();
    known(shapes);
    for (n, shape) in shapes.iter().enumerate() {
        if shape.layer == OUTPUT_PIN {
            rows[nets[n] as usize] = Some(row_of(edges, shape));
        }
    }
}

/// For each net the row of the output pin in it. It is refused for want of memory alone.
pub fn source_rows(
    alloc: Global,
    flat: &Flat,
    nets: &[u32],
    edges: &[i64],
) -> Result<Vec<Option<u32>>, Memory>
    requires order { AreInOrder flat.now nets.now }
    requires rows { AreRows flat.now.shapes edges.now }
    requires few { length edges.now < 2 ^ 32 }
    ensures { IfOk result (λ rows. AreSourceRows flat.now.shapes nets.now rows.items) }
{
    let mut rows = vec![in alloc; None; flat.shapes.len()]?;
    write_rows(flat, nets, edges, &mut rows);
    Ok(rows)
}

/// The row that is left by the wire with this input pin in this net; nothing where the shape is no wire's pin.
pub fn row_left(rows: &[Option<u32>], shape: &Shape, net: u32) -> Option<u32>
    requires { net < length rows.now }
    ensures { result ≡ row_left rows.now (shape.now, net) }
{
    if shape.layer == INPUT_PIN {
        rows[net as usize]
    } else {
        None
    }
}
