// Figures cut into rectangles.
ghost use Rattle.std.specs.Prelude.{◌≡◌, ◌&&◌, ◌==◌, not, false, ◌+◌, ◌<◌, ◌≤◌, ◌^◌, [], List as Items, ℕ, ℤ, ◌<ℤ◌};
ghost use Rattle.std.specs.Prelude.{◌≤ℤ◌, length, drop, map, slice_get, Some, pos, All, IfOk, OnOk, IsPermutation};
ghost use Rattle.std.specs.Prelude.{int_lt};
ghost use Rattle.poly_cut.specs.Rings.{Edge};
ghost use Rattle.poly_cut.specs.Cuts.{ring_cut, slabs, between, all_joined};
ghost use Rattle.poly_cut.specs.Paths.{path_cut, past, end_of, before_of};
ghost use Rattle.poly_cut.specs.Figures.{IsBent, IsNarrow, IsDrawn, cut_of};
ghost use Rattle.poly_cut.specs.Code.Sweeping.{ends_of, FromBelow, levels_of};
ghost use Rattle.poly_cut.specs.Code.Levels.{cut_off, FromLeft, LevelsFromLeft, AtLevel, all_toggled};
ghost use Rattle.poly_cut.specs.declared.ends.End.{End};

use crate::boxes::rectangle_of;
use crate::closing::end_level;
use crate::ends::{End, ends};
use crate::layout::{Figure, Point};
use crate::slabs::{Stack, begin_level, empty};
use crate::strokes::{Extent, segment};
use crate::walls::toggle_all;
use crate::windows::Level;
use aq_base::{List, Memory};
use geom::Rect;
use std::alloc::Global;

/// Whether an end is below another.
fn is_below(lower: &End, upper: &End) -> bool
    ensures { result ≡ int_lt lower.now.y upper.now.y }
{
    lower.y < upper.y
}

/// The number of the first end above the level of the one with this number.
fn next_level(ends: &[End], number: usize) -> usize
    requires { number < length ends.now }
    ensures more { number < result }
    ensures within { result ≤ length ends.now }
    ensures level { (i : ℕ) (e f : End) → slice_get ends.now number ≡ Some e → number ≤ i → i < result
        → slice_get ends.now i ≡ Some f → f.y ≤ℤ e.y }
    ensures above { (e f : End) → slice_get ends.now number ≡ Some e → slice_get ends.now result ≡ Some f → e.y <ℤ f.y }
{
    let mut next = number + 1;
    'ends: while next < ends.len() && !is_below(&ends[number], &ends[next]) {
        next += 1;
    }
    next
}

/// The level at an end, under the top.
fn level_at(end: &End, top: &End) -> Level
    ensures y { result.y ≡ end.now.y }
    ensures top { result.top ≡ top.now.y }
{
    Level {
        y: end.y,
        top: top.y,
    }
}

/// Goes from a level, at which these ends lie, up into the slab on it.
fn rise(stack: &mut Stack, walls: &mut Vec<i64>, ends: &[End], level: &Level) -> Result<(), Memory>
    requires high { level.now.y <ℤ level.now.top }
    requires left { FromLeft ends.now }
    requires at { AtLevel stack.old.rects stack.old.last walls.old.items level.now.y level.now.top }
    ensures walls { OnOk result (walls.new.items ≡ all_toggled ends.now walls.old.items) }
    ensures at { OnOk result ((z : ℤ) → level.now.y <ℤ z → z ≤ℤ level.now.top
        → AtLevel stack.new.rects stack.new.last walls.new.items z level.now.top) }
    ensures joined { OnOk result ((z : ℤ) → level.now.y <ℤ z → z ≤ℤ level.now.top
        → map (cut_off z) stack.new.rects ≡ all_joined (map (cut_off level.now.y) stack.old.rects)
        (between level.now.y z walls.new.items)) }
{
    end_level(&mut stack.rects, &stack.last, walls.as_slice(), ends, level);
    toggle_all(walls, ends)?;
    begin_level(stack, walls.as_slice(), ends, level)
}

/// Whether a level is below the top, and where the first rectangle is enough there is none.
fn goes_on(lower: &End, top: &End, stack: &Stack, first: bool) -> bool
    ensures { result ≡ (int_lt lower.now.y top.now.y && not (first && not (length stack.now.rects == 0))) }
{
    is_below(lower, top) && !(first && stack.rects.len() != 0)
}

/// The rectangles of the slabs of edges with these ends, from below, or where the first is enough those up to the slab
/// in which it begins.
fn sweep(alloc: Global, ends: &[End], first: bool) -> Result<List<Rect>, Memory>
    requires below { FromBelow ends.now }
    requires left { LevelsFromLeft ends.now }
    ensures whole { IfOk result (λ rects. first ≡ false → (es : Items Edge) → IsPermutation (ends_of es) ends.now
        → rects ≡ all_joined [] (slabs es (levels_of ends.now))) }
    ensures some { IfOk result (λ rects. (es : Items Edge) → IsPermutation (ends_of es) ends.now
        → (length rects == 0) ≡ (length (all_joined [] (slabs es (levels_of ends.now))) == 0)) }
{
    let mut walls = Vec::new(alloc);
    let mut stack = empty(alloc);
    let Some(top) = ends.last() else {
        return Ok(stack.rects);
    };
    let mut number: usize = 0;
    'levels: while goes_on(&ends[number], top, &stack, first) {
        let next = next_level(ends, number);
        rise(
            &mut stack,
            &mut walls,
            &ends[number..next],
            &level_at(&ends[number], top),
        )?;
        number = next;
    }
    Ok(stack.rects)
}

/// The rectangles of a ring's slabs, or where the first is enough some of them.
fn swept(alloc: Global, ring: &[Point], first: bool) -> Result<List<Rect>, Memory>
    ensures whole { IfOk result (λ rects. first ≡ false → rects ≡ ring_cut ring.now) }
    ensures some { IfOk result (λ rects. (length rects == 0) ≡ (length (ring_cut ring.now) == 0)) }
{
    let mut ends = ends(alloc, ring)?;
    ends.sort_unstable();
    sweep(alloc, ends.as_slice(), first)
}

/// The rectangles into which a ring is cut, by lower edge and then by left edge. A rectangle, which is most of what a
/// chip has, is cut without a sweep.
pub fn cut_ring(alloc: Global, ring: &[Point]) -> Result<List<Rect>, Memory>
    ensures { IfOk result (λ rects. rects ≡ ring_cut ring.now) }
{
    if let Some(rect) = rectangle_of(ring) {
        let mut rects = List::new(alloc);
        rects.push(rect)?;
        return Ok(rects);
    }
    swept(alloc, ring, false)
}

/// Whether a ring is cut into any rectangle. The sweep stops at the first.
pub fn is_cut(alloc: Global, ring: &[Point]) -> Result<bool, Memory>
    ensures { IfOk result (λ some. some ≡ not (length (ring_cut ring.now) == 0)) }
{
    if rectangle_of(ring).is_some() {
        return Ok(true);
    }
    let rects = swept(alloc, ring, true)?;
    Ok(rects.len() != 0)
}

/// How far the segment of this number, from 1 on, goes: half past each inner point, and `end` past the path's ends.
fn extent(half: u32, extended: bool, number: usize, points: &[Point]) -> Extent
    requires within { number < length points.now }
    ensures half { result.half ≡ pos half }
    ensures before { result.before ≡ before_of half extended number }
    ensures behind { result.behind ≡ past (pos half) (end_of extended half) (drop (number + 1) points.now) }
{
    let half = i64::from(half);
    let end = if extended { half } else { 0 };
    Extent {
        half,
        before: if number == 1 { end } else { half },
        behind: if number + 1 == points.len() {
            end
        } else {
            half
        },
    }
}

/// The rectangles of a path's segments, in order.
pub fn cut_path(
    alloc: Global,
    extended: bool,
    half: u32,
    points: &[Point],
) -> Result<List<Rect>, Memory>
    requires some { 0 < half }
    requires short { half ≤ 2 ^ 30 }
    requires bent { IsBent points.now }
    requires narrow { All IsNarrow points.now }
    ensures { IfOk result (λ rects. rects ≡ path_cut extended half points.now) }
{
    let mut rects = List::new(alloc);
    for i in 1..points.len() {
        rects.push(segment(
            &points[i - 1],
            &points[i],
            &extent(half, extended, i, points),
        ))?;
    }
    Ok(rects)
}

/// The rectangles into which a figure is cut: those of a path's segments, in order, or those of a ring, by lower edge
/// and then by left edge. Together they hold what the figure holds.
pub fn cut(alloc: Global, figure: &Figure) -> Result<List<Rect>, Memory>
    requires { IsDrawn figure.now }
    ensures { IfOk result (λ rects. rects ≡ cut_of figure.now) }
{
    match figure {
        Figure::Ring(ring) => ring.rects(alloc),
        Figure::Path {
            extended,
            half,
            points,
        } => cut_path(alloc, *extended, *half, points.as_slice()),
    }
}
