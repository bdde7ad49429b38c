// Zones: what is no further from a rectangle than a margin.
ghost use Rattle.std.specs.Prelude.{◌≡◌, ◌≤◌, ◌↔◌, IsTrue};
ghost use Rattle.geom.specs.Rectangle.{gap_x, gap_y};
ghost use Rattle.geom.specs.Near.{IsClose};
ghost use Rattle.geom.specs.Code.Zones.{IsLowEnd, IsHighEnd};

use crate::rectangle::{Rect, at_most};

/// A rectangle with a margin in nanometres, and how far the margin reaches: its ends are found once, and then a test of
/// another rectangle takes four comparisons.
#[derive(Clone, Copy)]
pub struct Zone {
    pub rect: Rect,
    pub margin: u64,
    pub left: i64,
    pub bottom: i64,
    pub right: i64,
    pub top: i64,

    ghost left_so: { IsLowEnd left rect.x0 margin },
    ghost bottom_so: { IsLowEnd bottom rect.y0 margin },
    ghost right_so: { IsHighEnd right rect.x1 margin },
    ghost top_so: { IsHighEnd top rect.y1 margin },
}

/// How far down the margin reaches from the coordinate, or the least number where that is further.
fn low_end(at: i64, margin: u64) -> i64
    requires { margin ≤ 1000000 }
    ensures { IsLowEnd result at margin }
{
    at.saturating_sub(margin as i64)
}

/// How far up the margin reaches from the coordinate, or the greatest number where that is further.
fn high_end(at: i64, margin: u64) -> i64
    requires { margin ≤ 1000000 }
    ensures { IsHighEnd result at margin }
{
    at.saturating_add(margin as i64)
}

impl Zone {
    /// The zone of this rectangle.
    pub fn around(rect: &Rect, margin: u64) -> Self
        requires { margin ≤ 1000000 }
        ensures rect { result.rect ≡ rect.now }
        ensures margin { result.margin ≡ margin }
    {
        Zone {
            rect: *rect,
            margin,
            left: low_end(rect.x0, margin),
            bottom: low_end(rect.y0, margin),
            right: high_end(rect.x1, margin),
            top: high_end(rect.y1, margin),
        }
    }

    /// Whether the other is no further from the rectangle than the margin in x.
    fn meets_in_x(&self, other: &Rect) -> bool
        ensures { IsTrue result ↔ gap_x self.now.rect other.now ≤ self.now.margin }
    {
        at_most(self.left, other.x1) && at_most(other.x0, self.right)
    }

    /// Whether the other is no further from the rectangle than the margin in y.
    fn meets_in_y(&self, other: &Rect) -> bool
        ensures { IsTrue result ↔ gap_y self.now.rect other.now ≤ self.now.margin }
    {
        at_most(self.bottom, other.y1) && at_most(other.y0, self.top)
    }

    /// Whether the other is no further from the rectangle than the margin, in x and in y.
    pub fn meets(&self, other: &Rect) -> bool
        ensures { IsTrue result ↔ IsClose self.now.rect other.now self.now.margin }
    {
        self.meets_in_x(other) && self.meets_in_y(other)
    }
}
