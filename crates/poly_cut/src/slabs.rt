// The rectangles of slabs, one on another. One that goes on through many slabs is touched where it begins and where it
// ends.
ghost use Rattle.std.specs.Prelude.{◌≡◌, [], List as Items, ◌<◌, ◌≤◌, ◌⊎◌, ℕ, ℤ, ◌<ℤ◌, ◌≤ℤ◌, length, map, slice_get};
ghost use Rattle.std.specs.Prelude.{drop, Some, None, IfOk, OnOk};
ghost use Rattle.geom.specs.Rectangle.{Rectangle};
ghost use Rattle.poly_cut.specs.Cuts.{box};
ghost use Rattle.poly_cut.specs.Code.Sweeping.{Rising, ReachesUp, last_at};
ghost use Rattle.poly_cut.specs.Code.Levels.{cut_off, IsPair, Clear, IsOpen, FromLeft, Standing, IsHigh, BeginBelow};
ghost use Rattle.poly_cut.specs.Code.Levels.{Opening, Whole, Behind, OffFrom, Risen, Goes, Begins, IsSupport};
ghost use Rattle.poly_cut.specs.Code.Levels.{IsReached};

use crate::ends::End;
use crate::windows::{Level, first_pair, is_past};
use aq_base::{List, Memory};
use geom::Rect;
use std::alloc::Global;
use std::collections::BTreeMap;

/// The rectangles so far, and at each left edge the number of the one that was begun last. Those that have not ended go
/// up to the top of the ring.
#[derive(Drop)]
pub struct Stack {
    pub rects: List<Rect>,
    pub last: BTreeMap<i64, usize>,
}

/// No rectangles.
pub fn empty(alloc: Global) -> Stack
    ensures rects { result.rects ≡ [] }
    ensures last { (x : ℤ) → last_at result.last x ≡ None }
{
    Stack {
        rects: List::new(alloc),
        last: BTreeMap::new(alloc),
    }
}

/// Whether a rectangle has the same sides as another, and reaches it from below.
fn reaches(lower: &Rect, upper: &Rect) -> bool
    ensures { IsReached lower.now upper.now result }
{
    lower.x0 == upper.x0 && lower.x1 == upper.x1 && lower.y1 >= upper.y0
}

/// The number of the rectangle that goes on as the upper one, if there is one.
fn support(stack: &Stack, upper: &Rect) -> Option<usize>
    requires { (x : ℤ) (n : ℕ) → last_at stack.now.last x ≡ Some n → n < length stack.now.rects }
    ensures { IsSupport stack.now.rects stack.now.last upper.now result }
{
    let number = *stack.last.get(&upper.x0)?;
    if reaches(stack.rects.get(number), upper) {
        Some(number)
    } else {
        None
    }
}

/// The lower rectangle, up to the top of the upper one, which it reaches.
fn raised(lower: &Rect, upper: &Rect) -> Rect
    requires { lower.now.y0 <ℤ upper.now.y1 }
    ensures { result ≡ box lower.now.x0 lower.now.y0 lower.now.x1 upper.now.y1 }
{
    lower.known();
    Rect {
        x0: lower.x0,
        y0: lower.y0,
        x1: lower.x1,
        y1: upper.y1,
    }
}

/// Lets a rectangle go on as this one, or begins this one.
fn join(stack: &mut Stack, upper: Rect) -> Result<(), Memory>
    requires stand { (x : ℤ) (n : ℕ) → last_at stack.old.last x ≡ Some n → n < length stack.old.rects }
    requires low { (n : ℕ) (r : Rectangle) → slice_get stack.old.rects n ≡ Some r → r.y0 ≤ℤ upper.y0 }
    ensures { OnOk result (Goes stack.old.rects stack.old.last upper stack.new.rects stack.new.last
        ⊎ Begins stack.old.rects stack.old.last upper stack.new.rects stack.new.last) }
{
    upper.known();
    match support(stack, &upper) {
        Some(number) => {
            let whole = raised(stack.rects.get(number), &upper);
            stack.rects.set(number, whole);
        }
        None => {
            stack.last.insert(upper.x0, stack.rects.len())?;
            stack.rects.push(upper)?;
        }
    }
    Ok(())
}

/// The rectangle between two walls, from a level up to the top.
fn between(left: i64, right: i64, level: &Level) -> Rect
    requires wide { left <ℤ right }
    requires high { level.now.y <ℤ level.now.top }
    ensures { result ≡ box left level.now.y right level.now.top }
{
    Rect {
        x0: left,
        y0: level.y,
        x1: right,
        y1: level.top,
    }
}

/// Begins the rectangles of the window which begins at the end of this number, of those pairs of walls that have not
/// been looked at, and counts those that have.
fn begin_window(
    stack: &mut Stack,
    walls: &[i64],
    ends: &[End],
    number: usize,
    from: usize,
    level: &Level,
) -> Result<usize, Memory>
    requires within { number < length ends.now }
    requires rising { Rising walls.now }
    requires left { FromLeft ends.now }
    requires high { level.now.y <ℤ level.now.top }
    requires before { Opening from ends.now walls.now level.now.y level.now.top stack.old.rects stack.old.last }
    requires behind { Behind from walls.now (drop number ends.now) ends.now }
    ensures after { IfOk result
        (λ n. Opening n ends.now walls.now level.now.y level.now.top stack.new.rects stack.new.last) }
    ensures whole { IfOk result (λ n. (whole : ℤ → Items Rectangle)
        → Whole from walls.now level.now.y level.now.top stack.old.rects whole
        → Whole n walls.now level.now.y level.now.top stack.new.rects whole) }
    ensures more { IfOk result (λ n. from ≤ n) }
    ensures off { IfOk result (λ n. OffFrom n walls.now (drop number ends.now)) }
{
    let first = from.max(first_pair(walls, &ends[number]));
    for pair in first..walls.len() / 2 {
        let (left, right) = (walls[pair + pair], walls[pair + pair + 1]);
        if is_past(ends, number, left) {
            return Ok(pair);
        }
        join(stack, between(left, right, level))?;
    }
    Ok(walls.len() / 2)
}

/// Begins the rectangles of the slab on a level, between these walls. Those that lie off all windows go on.
pub fn begin_level(
    stack: &mut Stack,
    walls: &[i64],
    ends: &[End],
    level: &Level,
) -> Result<(), Memory>
    requires rising { Rising walls.now }
    requires left { FromLeft ends.now }
    requires high { level.now.y <ℤ level.now.top }
    requires low { BeginBelow stack.old.rects level.now.y }
    requires reaches { ReachesUp (map (cut_off level.now.y) stack.old.rects) stack.old.last level.now.y }
    requires standing { Standing stack.old.rects stack.old.last walls.now level.now.y }
    requires whole { IsHigh stack.old.rects level.now.y level.now.top }
    requires clear { (i : ℕ) (a b : ℤ) → IsPair walls.now i a b → Clear ends.now a b
        → IsOpen stack.old.rects stack.old.last a b level.now.top }
    ensures { OnOk result (Risen stack.old.rects walls.now level.now.y level.now.top stack.new.rects stack.new.last) }
{
    let mut from: usize = 0;
    let mut number: usize = 0;
    'windows: while number < ends.len() {
        from = begin_window(stack, walls, ends, number, from, level)?;
        number += 2;
    }
    Ok(())
}
