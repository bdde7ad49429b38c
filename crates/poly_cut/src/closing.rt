// Rectangles that end at a level.
ghost use Rattle.std.specs.Prelude.{◌≡◌, ◌<◌, ℕ, ℤ, ◌<ℤ◌, length, slice_get, slice_set, drop, Some, None};
ghost use Rattle.geom.specs.Rectangle.{Rectangle};
ghost use Rattle.poly_cut.specs.Code.Sweeping.{Rising, last_at};
ghost use Rattle.poly_cut.specs.Code.Levels.{cut_off, FromLeft, Standing, BeginBelow, EndsWindow, EndsLevel};

use crate::ends::End;
use crate::windows::{Level, first_pair, is_past};
use aq_base::List;
use geom::Rect;
use std::collections::BTreeMap;

/// The rectangle as far as a level.
fn cut_off(rect: &Rect, level: &Level) -> Rect
    requires { rect.now.y0 <ℤ level.now.y }
    ensures { result ≡ cut_off level.now.y rect.now }
{
    rect.known();
    Rect {
        x0: rect.x0,
        y0: rect.y0,
        x1: rect.x1,
        y1: if level.y <= rect.y1 { level.y } else { rect.y1 },
    }
}

/// Ends the rectangle that was begun last at a left edge.
fn end_at(rects: &mut List<Rect>, last: &BTreeMap<i64, usize>, left: i64, level: &Level)
    requires stand { (x : ℤ) (n : ℕ) → last_at last.now x ≡ Some n → n < length rects.old }
    requires low { BeginBelow rects.old level.now.y }
    ensures some { (n : ℕ) (r : Rectangle) → last_at last.now left ≡ Some n → slice_get rects.old n ≡ Some r
        → rects.new ≡ slice_set rects.old n (cut_off level.now.y r) }
    ensures none { last_at last.now left ≡ None → rects.new ≡ rects.old }
{
    if let Some(number) = last.get(&left) {
        let shorter = cut_off(rects.get(*number), level);
        rects.set(*number, shorter);
    }
}

/// Ends the rectangles that meet the window which begins at the end of this number.
fn end_window(
    rects: &mut List<Rect>,
    last: &BTreeMap<i64, usize>,
    walls: &[i64],
    ends: &[End],
    number: usize,
    level: &Level,
)
    requires within { number < length ends.now }
    requires rising { Rising walls.now }
    requires standing { Standing rects.old last.now walls.now level.now.y }
    requires low { BeginBelow rects.old level.now.y }
    ensures { EndsWindow (drop number ends.now) level.now.y rects.old rects.new }
{
    for pair in first_pair(walls, &ends[number])..walls.len() / 2 {
        let left = walls[pair + pair];
        if is_past(ends, number, left) {
            return;
        }
        end_at(rects, last, left, level);
    }
}

/// Ends the rectangles that meet the windows of a level.
pub fn end_level(
    rects: &mut List<Rect>,
    last: &BTreeMap<i64, usize>,
    walls: &[i64],
    ends: &[End],
    level: &Level,
)
    requires rising { Rising walls.now }
    requires standing { Standing rects.old last.now walls.now level.now.y }
    requires low { BeginBelow rects.old level.now.y }
    ensures { EndsLevel ends.now level.now.y rects.old rects.new }
{
    let mut number: usize = 0;
    'windows: while number < ends.len() {
        end_window(rects, last, walls, ends, number, level);
        number += 2;
    }
}
