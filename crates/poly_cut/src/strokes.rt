// The segments of a path.
ghost use Rattle.std.specs.Prelude.{◌≡◌, ◌&&◌, int_le, ◌+ℤ◌, ◌-ℤ◌, ◌<ℤ◌, ◌≤ℤ◌};
ghost use Rattle.poly_cut.specs.Cuts.{box};
ghost use Rattle.poly_cut.specs.Figures.{IsNarrow};
ghost use Rattle.poly_cut.specs.Paths.{stroke, segment};
ghost use Rattle.poly_cut.specs.Code.Strokes.{IsReach, IsUpward, IsSegment, IsExtent};

use crate::layout::Point;
use geom::Rect;

/// How far a segment goes to both sides, before its lower or left point, and past the other. Lengths are in nanometres.
#[derive(Drop)]
pub struct Reach {
    pub half: i64,
    pub under: i64,
    pub over: i64,
}

/// The rectangle of a segment along x.
fn across(low: &Point, high: &Point, reach: &Reach) -> Rect
    requires low { IsNarrow low.now }
    requires high { IsNarrow high.now }
    requires reach { IsReach reach.now }
    requires x { low.now.x <ℤ high.now.x }
    requires y { low.now.y ≤ℤ high.now.y }
    ensures { result ≡ box (low.now.x -ℤ reach.now.under) (low.now.y -ℤ reach.now.half) (high.now.x +ℤ reach.now.over)
        (high.now.y +ℤ reach.now.half) }
{
    Rect {
        x0: low.x - reach.under,
        y0: low.y - reach.half,
        x1: high.x + reach.over,
        y1: high.y + reach.half,
    }
}

/// The rectangle of a segment along y.
fn upright(low: &Point, high: &Point, reach: &Reach) -> Rect
    requires low { IsNarrow low.now }
    requires high { IsNarrow high.now }
    requires reach { IsReach reach.now }
    requires x { low.now.x ≤ℤ high.now.x }
    requires y { low.now.y <ℤ high.now.y }
    ensures { result ≡ box (low.now.x -ℤ reach.now.half) (low.now.y -ℤ reach.now.under) (high.now.x +ℤ reach.now.half)
        (high.now.y +ℤ reach.now.over) }
{
    Rect {
        x0: low.x - reach.half,
        y0: low.y - reach.under,
        x1: high.x + reach.half,
        y1: high.y + reach.over,
    }
}

/// The rectangle of a segment from its lower or left point to the other.
pub fn stroke(low: &Point, high: &Point, reach: &Reach) -> Rect
    requires low { IsNarrow low.now }
    requires high { IsNarrow high.now }
    requires reach { IsReach reach.now }
    requires upward { IsUpward low.now high.now }
    ensures { result ≡ stroke reach.now.half low.now reach.now.under high.now reach.now.over }
{
    if low.y < high.y {
        upright(low, high, reach)
    } else {
        across(low, high, reach)
    }
}

/// How far a segment goes to both sides, before its first point, and past its second. Lengths are in nanometres.
#[derive(Drop)]
pub struct Extent {
    pub half: i64,
    pub before: i64,
    pub behind: i64,
}

/// Whether a segment goes right or up.
fn is_forward(from: &Point, to: &Point) -> bool
    ensures { result ≡ (int_le from.now.x to.now.x && int_le from.now.y to.now.y) }
{
    from.x <= to.x && from.y <= to.y
}

/// The lengths of a segment that goes right or up.
fn forward(extent: &Extent) -> Reach
    ensures half { result.half ≡ extent.now.half }
    ensures under { result.under ≡ extent.now.before }
    ensures over { result.over ≡ extent.now.behind }
{
    Reach {
        half: extent.half,
        under: extent.before,
        over: extent.behind,
    }
}

/// The lengths of a segment that goes left or down.
fn backward(extent: &Extent) -> Reach
    ensures half { result.half ≡ extent.now.half }
    ensures under { result.under ≡ extent.now.behind }
    ensures over { result.over ≡ extent.now.before }
{
    Reach {
        half: extent.half,
        under: extent.behind,
        over: extent.before,
    }
}

/// The rectangle of a path's segment.
pub fn segment(from: &Point, to: &Point, extent: &Extent) -> Rect
    requires from { IsNarrow from.now }
    requires to { IsNarrow to.now }
    requires extent { IsExtent extent.now }
    requires straight { IsSegment from.now to.now }
    ensures { result ≡ segment extent.now.half extent.now.before extent.now.behind from.now to.now }
{
    if is_forward(from, to) {
        stroke(from, to, &forward(extent))
    } else {
        stroke(to, from, &backward(extent))
    }
}
