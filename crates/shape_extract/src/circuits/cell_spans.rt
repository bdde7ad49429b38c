// Where the cells lie along the excitation lines.
ghost use Rattle.std.specs.Prelude.{◌≡◌, ◌-ℤ◌, ◌^◌, ◌<◌, IfOk, length, slice_get, slice_index, Some};
ghost use Rattle.geom.specs.Rectangle.{positive_part};
ghost use Rattle.geom.specs.declared.shapes.Shape.{Shape};
ghost use Rattle.layout_rules.specs.ExcitationRule.{ExcitationBroken};
ghost use Rattle.layout_rules.specs.Layers.{is_frame};
ghost use Rattle.layout_rules.specs.LinePlaces.{way_into, IsPlaced};
ghost use Rattle.layout_rules.specs.Reports.{Passes, ReportsNone};
ghost use Rattle.shape_extract.specs.CellPlaces.{AreCellPlaces, far_at, near_at};
ghost use Rattle.shape_extract.specs.Planes.{IsPlane};
ghost use Rattle.shape_extract.specs.declared.planes.Plane.TheVariants.{Lines};
ghost use Rattle.shape_extract.specs.Code.Lines.{AreWalked};
ghost use Rattle.shape_extract.specs.Code.Ways.{AreWays, IsSpanUnder, IsUnder};

use crate::circuits::frames::ordered_frames;
use crate::lines::crossed_bars::at_left;
use crate::lines::excited_frames::LiesOver;
use crate::lines::line_walk::walk_in_order;
use crate::lines::ways::ways_of;
use crate::pairs::list_line_partners;
use crate::planes::{FiledPlane, Plane, file_plane};
use aq_base::Memory;
use geom::{Shape, width};
use std::alloc::Global;

/// How far the excitation has run along its line, in nanometres, where it comes to a cell, and where it has passed it.
#[derive(Clone, Copy)]
pub struct Span {
    pub near: u128,
    pub far: u128,
}

/// How far the first number is above the second, and 0 where it isn't.
fn excess(high: i64, low: i64) -> u64
    ensures { result ≡ positive_part (high -ℤ low) }
{
    if low < high { high.abs_diff(low) } else { 0 }
}

/// How far it is into the bar, from the side where the line comes to it, to the frame.
fn way_into(before: &Shape, bar: &Shape, frame: &Shape) -> u64
    ensures { result ≡ way_into before.now bar.now frame.now }
{
    if at_left(before, bar) {
        excess(frame.rect.x0, bar.rect.x0)
    } else {
        excess(bar.rect.x1, frame.rect.x1)
    }
}

/// Where a frame lies by the bar of this number over it.
fn span_under(shapes: &[Shape], before: &[u32], ways: &[u128], bar: u32, frame: &Shape) -> Span
    requires within { bar < length shapes.now }
    requires before { length before.now ≡ length shapes.now }
    requires reached { slice_index before.now bar < length shapes.now }
    requires ways { AreWays shapes.now before.now ways.now }
    ensures { IsSpanUnder shapes.now before.now ways.now bar frame.now result }
{
    let from = before[bar as usize] as usize;
    let into = way_into(&shapes[from], &shapes[bar as usize], frame);
    let near = ways[bar as usize] + u128::from(into);
    Span {
        near,
        far: near + u128::from(width(&frame.rect)),
    }
}

/// The bar over the frame of this number.
fn bar_over(
    shapes: &[Shape],
    lines: &FiledPlane,
    before: &[u32],
    f: u32,
    found: &mut Vec<u32>,
) -> Result<u32, Memory>
    requires few { length shapes.now < 2 ^ 32 }
    requires filed { IsPlane Lines shapes.now lines.now }
    requires kept { ReportsNone (ExcitationBroken shapes.now) }
    requires walked { AreWalked shapes.now before.now }
    requires frame { Passes is_frame shapes.now f }
    requires within { f < length shapes.now }
    ensures { IfOk result (IsUnder shapes.now before.now f) }
{
    list_line_partners(&LiesOver, shapes, lines, f, found)?;
    Ok(found[0])
}

/// Where the frame of this number lies.
fn span_of(
    shapes: &[Shape],
    lines: &FiledPlane,
    before: &[u32],
    ways: &[u128],
    f: u32,
    found: &mut Vec<u32>,
) -> Result<Span, Memory>
    requires few { length shapes.now < 2 ^ 32 }
    requires filed { IsPlane Lines shapes.now lines.now }
    requires kept { ReportsNone (ExcitationBroken shapes.now) }
    requires walked { AreWalked shapes.now before.now }
    requires ways { AreWays shapes.now before.now ways.now }
    requires frame { Passes is_frame shapes.now f }
    requires within { f < length shapes.now }
    ensures { IfOk result (λ span. (frame : Shape) → slice_get shapes.now f ≡ Some frame
        → IsPlaced shapes.now frame span.near span.far) }
{
    let bar = bar_over(shapes, lines, before, f, found)?;
    Ok(span_under(shapes, before, ways, bar, &shapes[f as usize]))
}

/// Where all frames lie, in the order of the cells.
fn spans_by(
    alloc: Global,
    shapes: &[Shape],
    lines: &FiledPlane,
    before: &[u32],
    ways: &[u128],
) -> Result<Vec<Span>, Memory>
    requires few { length shapes.now < 2 ^ 32 }
    requires filed { IsPlane Lines shapes.now lines.now }
    requires kept { ReportsNone (ExcitationBroken shapes.now) }
    requires walked { AreWalked shapes.now before.now }
    requires ways { AreWays shapes.now before.now ways.now }
    ensures { IfOk result (λ spans. AreCellPlaces shapes.now (near_at spans.items) (far_at spans.items)) }
{
    let frames = ordered_frames(alloc, shapes)?;
    let mut found = Vec::new(alloc);
    let mut spans = Vec::new(alloc);
    for place in 0..frames.len() {
        let span = span_of(shapes, lines, before, ways, frames[place], &mut found)?;
        spans.push(span)?;
    }
    Ok(spans)
}

/// Where the cells of a layout lie along the excitation lines, in the order of the cells, where the rule of these lines
/// reports nothing. It is refused for want of memory alone.
pub fn cell_spans(alloc: Global, shapes: &[Shape]) -> Result<Vec<Span>, Memory>
    requires few { length shapes.now < 2 ^ 32 }
    requires kept { ReportsNone (ExcitationBroken shapes.now) }
    ensures { IfOk result (λ spans. AreCellPlaces shapes.now (near_at spans.items) (far_at spans.items)) }
{
    let lines = file_plane(alloc, shapes, Plane::Lines)?;
    let mut order = Vec::new(alloc);
    let before = walk_in_order(alloc, shapes, &lines, &mut order)?;
    let ways = ways_of(alloc, shapes, &before, &order)?;
    spans_by(alloc, shapes, &lines, &before, &ways)
}
