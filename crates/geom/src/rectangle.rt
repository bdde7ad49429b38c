// Rectangles with sides along the axes.
ghost use Rattle.std.specs.Prelude.{◌≡◌, ◌&&◌, ◌-ℤ◌, ◌↔◌, IsTrue, int_le, int_lt};
ghost use Rattle.geom.specs.Rectangle.{share_x, share_y, share_point, SharePoint, holds_point, within};
ghost use Rattle.geom.specs.Rectangle.{meet_x, meet_y, overlap, positive_part, width, height, gap_x, gap_y};

use std::marker::Model;

/// A rectangle with sides along the axes, in database units of one nanometre: `x0` is below `x1`, and `y0` below `y1`.
#[derive(Clone, Copy, PartialEq, Eq)]
pub struct Rect {
    pub x0: i64,
    pub y0: i64,
    pub x1: i64,
    pub y1: i64,
}

impl Model for Rect {
    ghost use Rattle.geom.specs.Rectangle.{Rectangle, IsProper};

    ghost Value = { Rectangle };

    ghost view = { λ r. record { x0 = r.x0; y0 = r.y0; x1 = r.x1; y1 = r.y1 } };

    ghost invariant = { λ r. IsProper (record { x0 = r.x0; y0 = r.y0; x1 = r.x1; y1 = r.y1 }) };

    ghost inverse = { λ v. record { x0 = v.x0; y0 = v.y0; x1 = v.x1; y1 = v.y1 } };
}

impl Rect {
    ghost use Rattle.geom.specs.Rectangle.{IsProper};

    /// What every rectangle keeps: it has a positive width and a positive height. It does nothing else.
    pub fn known(&self)
        ensures { IsProper self.now }
    {
        let _ = &self.x0;
    }
}

/// Whether the first number is no greater than the second.
pub(crate) fn at_most(a: i64, b: i64) -> bool
    ensures { result ≡ int_le a b }
{
    a <= b
}

fn touches_in_x(a: &Rect, b: &Rect) -> bool
    ensures { result ≡ share_x a.now b.now }
{
    at_most(a.x0, b.x1) && at_most(b.x0, a.x1)
}

/// Whether the two have a height in common, edges counted.
pub fn touches_in_y(a: &Rect, b: &Rect) -> bool
    ensures { result ≡ share_y a.now b.now }
{
    at_most(a.y0, b.y1) && at_most(b.y0, a.y1)
}

/// Whether the two share a point, edges and corners counted.
pub fn touches(a: &Rect, b: &Rect) -> bool
    ensures test { result ≡ share_point a.now b.now }
    ensures meaning { IsTrue result ↔ SharePoint a.now b.now }
{
    a.known();
    b.known();
    touches_in_x(a, b) && touches_in_y(a, b)
}

fn is_within_in_x(inner: &Rect, outer: &Rect) -> bool
    ensures { result ≡ (int_le outer.now.x0 inner.now.x0 && int_le inner.now.x1 outer.now.x1) }
{
    at_most(outer.x0, inner.x0) && at_most(inner.x1, outer.x1)
}

fn is_within_in_y(inner: &Rect, outer: &Rect) -> bool
    ensures { result ≡ (int_le outer.now.y0 inner.now.y0 && int_le inner.now.y1 outer.now.y1) }
{
    at_most(outer.y0, inner.y0) && at_most(inner.y1, outer.y1)
}

/// Whether the first lies within the second, edges counted.
pub fn is_within(inner: &Rect, outer: &Rect) -> bool
    ensures { result ≡ within inner.now outer.now }
{
    is_within_in_x(inner, outer) && is_within_in_y(inner, outer)
}

/// Whether x lies between the left and the right side of the rectangle, sides counted.
pub fn holds_in_x(rect: &Rect, x: i64) -> bool
    ensures { result ≡ (int_le rect.now.x0 x && int_le x rect.now.x1) }
{
    at_most(rect.x0, x) && at_most(x, rect.x1)
}

fn holds_in_y(rect: &Rect, y: i64) -> bool
    ensures { result ≡ (int_le rect.now.y0 y && int_le y rect.now.y1) }
{
    at_most(rect.y0, y) && at_most(y, rect.y1)
}

/// Whether the point lies in the rectangle, edges and corners counted.
pub fn holds_point(rect: &Rect, x: i64, y: i64) -> bool
    ensures { result ≡ holds_point rect.now x y }
{
    holds_in_x(rect, x) && holds_in_y(rect, y)
}

fn is_below(a: i64, b: i64) -> bool
    ensures { result ≡ int_lt a b }
{
    a < b
}

fn overlaps_in_x(a: &Rect, b: &Rect) -> bool
    ensures { result ≡ meet_x a.now b.now }
{
    is_below(a.x0, b.x1) && is_below(b.x0, a.x1)
}

fn overlaps_in_y(a: &Rect, b: &Rect) -> bool
    ensures { result ≡ meet_y a.now b.now }
{
    is_below(a.y0, b.y1) && is_below(b.y0, a.y1)
}

/// Whether some point is inside both.
pub fn overlaps(a: &Rect, b: &Rect) -> bool
    ensures { result ≡ overlap a.now b.now }
{
    overlaps_in_x(a, b) && overlaps_in_y(a, b)
}

/// How far the first number is above the second, and 0 where it isn't.
pub(crate) fn excess(high: i64, low: i64) -> u64
    ensures { result ≡ positive_part (high -ℤ low) }
{
    if low < high { high.abs_diff(low) } else { 0 }
}

/// The width of the rectangle.
pub fn width(r: &Rect) -> u64
    ensures { result ≡ width r.now }
{
    excess(r.x1, r.x0)
}

/// The height of the rectangle.
pub fn height(r: &Rect) -> u64
    ensures { result ≡ height r.now }
{
    excess(r.y1, r.y0)
}

/// How far apart the two are in x, in nanometres: 0 where some line along y meets both.
pub fn gap_x(a: &Rect, b: &Rect) -> u64
    ensures { result ≡ gap_x a.now b.now }
{
    excess(a.x0, b.x1).max(excess(b.x0, a.x1))
}

/// How far apart the two are in y, in nanometres: 0 where some line along x meets both.
pub fn gap_y(a: &Rect, b: &Rect) -> u64
    ensures { result ≡ gap_y a.now b.now }
{
    excess(a.y0, b.y1).max(excess(b.y0, a.y1))
}

#[cfg(test)]
mod tests {
    use super::*;

    fn at(x: i32, y: i32) -> Rect {
        let (x0, y0) = (i64::from(x), i64::from(y));
        Rect {
            x0,
            y0,
            x1: x0 + 10,
            y1: y0 + 20,
        }
    }

    #[test]
    fn neighbours_of_a_rectangle(rt: HostRuntime) {
        let first = at(0, 0);
        let others = [
            (at(5, 5), true, 0, 0),
            (at(10, 20), true, 0, 0),
            (at(11, 0), false, 1, 0),
            (at(-13, -20), false, 3, 0),
            (at(0, 27), false, 0, 7),
            (at(-2_000, 1_000), false, 1_990, 980),
        ];
        for (other, share, x, y) in others {
            assert_eq!(rt; touches(&first, &other), share);
            assert_eq!(rt; gap_x(&first, &other), x);
            assert_eq!(rt; gap_y(&other, &first), y);
        }
    }

    #[test]
    fn the_widest_gap(rt: HostRuntime) {
        let low = Rect {
            x0: i64::MIN,
            y0: i64::MIN,
            x1: i64::MIN + 1,
            y1: i64::MIN + 1,
        };
        let high = Rect {
            x0: i64::MAX - 1,
            y0: i64::MAX - 1,
            x1: i64::MAX,
            y1: i64::MAX,
        };
        assert_eq!(rt; gap_x(&low, &high), u64::MAX - 2);
        assert_eq!(rt; gap_y(&high, &low), u64::MAX - 2);
        assert!(rt; !touches(&low, &high));
    }
}
