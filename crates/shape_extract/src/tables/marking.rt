// Which labels mark which pins.
ghost use Rattle.std.specs.Prelude.{◌≡◌, ◌^◌, ◌<◌, int_le, int_lt, true, All, IfOk, length};
ghost use Rattle.std.specs.List.{filter};
ghost use Rattle.geom.specs.Rectangle.{holds_point};
ghost use Rattle.layout_rules.specs.Labels.{marks};
ghost use Rattle.shape_extract.specs.Searches.{AreThose, passes_at};
ghost use Rattle.shape_extract.specs.Passing.{PassesIn};
ghost use Rattle.shape_extract.specs.Filed.{IsFiled};

use crate::filed_shapes::{FiledShapes, list_of_kinds};
use crate::kinds::Kinds;
use crate::planes::Plane;
use crate::tables::labels::marks;
use aq_base::Memory;
use geom::{Label, Rect, Shape};

/// A length of the axis that holds a number.
struct Span {
    low: i64,
    high: i64,
}

fn span_at(x: i64) -> Span
    ensures from { int_le result.low x ≡ true }
    ensures to { int_le x result.high ≡ true }
    ensures proper { int_lt result.low result.high ≡ true }
{
    Span {
        low: x.saturating_sub(1),
        high: x.saturating_add(1),
    }
}

/// A small rectangle that holds the point.
fn rect_at(x: i64, y: i64) -> Rect
    ensures { holds_point result x y ≡ true }
{
    let Span { low: x0, high: x1 } = span_at(x);
    let Span { low: y0, high: y1 } = span_at(y);
    Rect { x0, y0, x1, y1 }
}

/// Keeps those of the places at which kinds stand that the label marks.
fn keep_marked(label: &Label, kinds: &Kinds, places: &mut Vec<u32>)
    requires { All (λ p. p < length kinds.now) places.old.items }
    ensures { places.new.items ≡ filter (passes_at (marks label.now) kinds.now) places.old.items }
{
    let mut kept = 0;
    for at in 0..places.len() {
        let place = places[at];
        if marks(label, kinds.get(place)) {
            places[kept] = place;
            kept += 1;
        }
    }
    places.truncate(kept);
}

/// Lists the numbers of the pins that the label marks, by a query of the index for the kinds of pins that hold its
/// point.
pub fn list_marked(
    shapes: &[Shape],
    filed: &FiledShapes,
    label: &Label,
    found: &mut Vec<u32>,
) -> Result<(), Memory>
    requires few { length shapes.now < 2 ^ 32 }
    requires filed { IsFiled shapes.now filed.now }
    ensures { IfOk result (λ _. AreThose (PassesIn (marks label.now) shapes.now) found.new.items) }
{
    let here = rect_at(label.x, label.y);
    filed.planes.list_near(Plane::Pins, &here, 0, found)?;
    keep_marked(label, &filed.kinds.among(shapes), found);
    list_of_kinds(filed, found)?;
    Ok(())
}
