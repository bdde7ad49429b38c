// Rings that are rectangles.
ghost use Rattle.std.specs.Prelude.{◌≡◌, ◌⊎◌, ◌∷◌, ◌<ℤ◌, [], Some, IsTrue};
ghost use Rattle.geom.specs.Rectangle.{Rectangle};
ghost use Rattle.poly_cut.specs.Cuts.{box, ring_cut};
ghost use Rattle.poly_cut.specs.Code.Boxes.{AreCorners, IsBoxOf};

use crate::layout::Point;
use geom::Rect;

fn same_x(a: &Point, b: &Point) -> bool
    ensures { IsTrue result → a.now.x ≡ b.now.x }
{
    a.x == b.x
}

fn same_y(a: &Point, b: &Point) -> bool
    ensures { IsTrue result → a.now.y ≡ b.now.y }
{
    a.y == b.y
}

/// Whether the points are corners in turn, along x first. Rectangles without width or height count.
fn are_corners_along_x(a: &Point, b: &Point, c: &Point, d: &Point) -> bool
    ensures { IsTrue result → AreCorners a.now.x b.now.x c.now.x d.now.x a.now.y b.now.y c.now.y d.now.y }
{
    same_y(a, b) && same_x(b, c) && same_y(c, d) && same_x(d, a)
}

/// The same, along y first.
fn are_corners_along_y(a: &Point, b: &Point, c: &Point, d: &Point) -> bool
    ensures { IsTrue result → AreCorners a.now.y b.now.y c.now.y d.now.y a.now.x b.now.x c.now.x d.now.x }
{
    same_x(a, b) && same_y(b, c) && same_x(c, d) && same_y(d, a)
}

/// The same, either way round.
fn are_corners(a: &Point, b: &Point, c: &Point, d: &Point) -> bool
    ensures { IsTrue result → AreCorners a.now.x b.now.x c.now.x d.now.x a.now.y b.now.y c.now.y d.now.y
        ⊎ AreCorners a.now.y b.now.y c.now.y d.now.y a.now.x b.now.x c.now.x d.now.x }
{
    if are_corners_along_x(a, b, c, d) {
        return true;
    }
    are_corners_along_y(a, b, c, d)
}

fn is_left(a: &Point, b: &Point) -> bool
    ensures { IsTrue result → a.now.x <ℤ b.now.x }
{
    a.x < b.x
}

fn is_lower(a: &Point, b: &Point) -> bool
    ensures { IsTrue result → a.now.y <ℤ b.now.y }
{
    a.y < b.y
}

fn boxed(left: &Point, below: &Point, right: &Point, above: &Point) -> Rect
    requires wide { left.now.x <ℤ right.now.x }
    requires high { below.now.y <ℤ above.now.y }
    ensures { result ≡ box left.now.x below.now.y right.now.x above.now.y }
{
    Rect {
        x0: left.x,
        y0: below.y,
        x1: right.x,
        y1: above.y,
    }
}

/// The rectangle of two opposite corners, of which the first is the left one, if it has a height.
#[tactic(auto, using(crate::proofs::BoxRings::corners))]
fn box_between(a: &Point, c: &Point) -> Option<Rect>
    requires { a.now.x <ℤ c.now.x }
    ensures there { IsBoxOf a.now c.now result }
    ensures back { IsBoxOf c.now a.now result }
{
    if is_lower(a, c) {
        return Some(boxed(a, a, c, c));
    }
    if is_lower(c, a) {
        return Some(boxed(a, c, c, a));
    }
    None
}

/// The rectangle of two opposite corners, if it has a width and a height.
fn box_of(a: &Point, c: &Point) -> Option<Rect>
    ensures { IsBoxOf a.now c.now result }
{
    if is_left(a, c) {
        return box_between(a, c);
    }
    if is_left(c, a) {
        return box_between(c, a);
    }
    None
}

/// The rectangle that a ring of five points goes around, from any corner and either way round.
pub fn rectangle_of(ring: &[Point]) -> Option<Rect>
    ensures { (rect : Rectangle) → result ≡ Some rect → ring_cut ring.now ≡ rect ∷ [] }
{
    if ring.len() != 5 {
        return None;
    }
    let (a, b, c, d, e) = (&ring[0], &ring[1], &ring[2], &ring[3], &ring[4]);
    if !same_x(e, a) || !same_y(e, a) || !are_corners(a, b, c, d) {
        return None;
    }
    box_of(a, c)
}
