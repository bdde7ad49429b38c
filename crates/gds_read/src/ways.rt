// The steps of figures: round by right angles, or along a path.
ghost use Rattle.std.specs.Prelude.{◌≡◌, ◌&&◌, ◌||◌, IfOk};
ghost use Rattle.std.specs.Ordering.{int_eq};
ghost use Rattle.gds_records.specs.WideValues.{way, is_straight, is_same, back, is_round, goes_on, is_path, turns};
ghost use Rattle.gds_records.specs.WideValues.{Still as still};
ghost use Rattle.gds_read.specs.Code.Ways.{way_of};

use aq_base::{List, Memory};
use poly_cut::Point;
use std::alloc::Global;

/// From one point to the next.
#[derive(Clone, Copy, PartialEq, Eq)]
pub enum Way {
    Right,
    Left,
    Up,
    Down,
    Still,
    Slanted,
}

/// The way from one point to the next.
pub fn way_to(from: &Point, to: &Point) -> Way
    ensures { way_of result ≡ way from.now to.now }
{
    if from.x == to.x {
        if from.y == to.y {
            Way::Still
        } else if from.y < to.y {
            Way::Up
        } else {
            Way::Down
        }
    } else if from.y != to.y {
        Way::Slanted
    } else if from.x < to.x {
        Way::Right
    } else {
        Way::Left
    }
}

// Whether it goes along one axis.
fn is_straight(way: Way) -> bool
    ensures { result ≡ is_straight (way_of way) }
{
    !matches!(way, Way::Still | Way::Slanted)
}

/// Whether both go straight, and the same way.
pub fn is_same(way: Way, other: Way) -> bool
    ensures { result ≡ is_same (way_of way) (way_of other) }
{
    match way {
        Way::Right => matches!(other, Way::Right),
        Way::Left => matches!(other, Way::Left),
        Way::Up => matches!(other, Way::Up),
        Way::Down => matches!(other, Way::Down),
        Way::Still | Way::Slanted => false,
    }
}

// The way back.
fn back(way: Way) -> Way
    ensures { way_of result ≡ back (way_of way) }
{
    match way {
        Way::Right => Way::Left,
        Way::Left => Way::Right,
        Way::Up => Way::Down,
        Way::Down => Way::Up,
        Way::Still => Way::Still,
        Way::Slanted => Way::Slanted,
    }
}

// Whether two points are beside each other, or one above the other.
fn is_step(from: &Point, to: &Point) -> bool
    ensures { result ≡ (int_eq from.now.x to.now.x || int_eq from.now.y to.now.y) }
{
    from.x == to.x || from.y == to.y
}

// Whether two points are one.
fn is_at(point: &Point, other: &Point) -> bool
    ensures { result ≡ (int_eq point.now.x other.now.x && int_eq point.now.y other.now.y) }
{
    point.x == other.x && point.y == other.y
}

/// Whether the points lead back to the first of them by steps along the axes.
pub fn is_round(points: &[Point]) -> bool
    ensures { result ≡ is_round points.now }
{
    let Some((first, more)) = points.split_first() else {
        return false;
    };
    let mut last = first;
    let mut rest = more;
    'steps: loop {
        let Some((next, more)) = rest.split_first() else {
            return is_at(last, first);
        };
        if !is_step(last, next) {
            return false;
        }
        last = next;
        rest = more;
    }
}

// Whether each step along these points goes along an axis, and none straight back.
fn goes_on(first: &Point, points: &[Point]) -> bool
    ensures { result ≡ goes_on still first.now points.now }
{
    let mut came = Way::Still;
    let mut last = first;
    let mut rest = points;
    'steps: loop {
        let Some((next, more)) = rest.split_first() else {
            return true;
        };
        let way = way_to(last, next);
        if !is_straight(way) || is_same(way, back(came)) {
            return false;
        }
        came = way;
        last = next;
        rest = more;
    }
}

/// The points where a path turns, and its ends, without those inside a straight run.
pub fn turns(alloc: Global, points: &[Point]) -> Result<List<Point>, Memory>
    ensures { IfOk result (λ kept. kept ≡ turns points.now) }
{
    let mut kept = Vec::with_capacity(alloc, points.len())?;
    let Some((first, more)) = points.split_first() else {
        return Ok(List::from_vec(kept));
    };
    let mut came = Way::Still;
    let mut last = first;
    let mut rest = more;
    'steps: loop {
        let Some((next, more)) = rest.split_first() else {
            kept.push(*last)?;
            return Ok(List::from_vec(kept));
        };
        let way = way_to(last, next);
        if !is_same(came, way) {
            kept.push(*last)?;
        }
        came = way;
        last = next;
        rest = more;
    }
}

/// Whether there are two points at least, each step goes along an axis, and none straight back.
pub fn is_path(points: &[Point]) -> bool
    ensures { result ≡ is_path points.now }
{
    if points.len() < 2 {
        return false;
    }
    let Some((first, more)) = points.split_first() else {
        return false;
    };
    goes_on(first, more)
}
