// The ends of a ring's edges.
ghost use Rattle.std.specs.Prelude.{◌≡◌, ◌++◌, ◌∷◌, [], IfOk, OnOk};
ghost use Rattle.poly_cut.specs.Rings.{edges};
ghost use Rattle.poly_cut.specs.Code.Sweeping.{ends_of, steep};

use crate::layout::Point;
use aq_base::Memory;
use std::alloc::Global;

/// An end of an edge, and the x at which the edge stands.
#[derive(Clone, Copy, PartialEq, Eq, PartialOrd, Ord)]
pub struct End {
    pub y: i64,
    pub x: i64,
}

/// The end of an edge at a point.
fn end_at(edge: &Point, at: &Point) -> End
    ensures y { result.y ≡ at.now.y }
    ensures x { result.x ≡ edge.now.x }
{
    End { y: at.y, x: edge.x }
}

/// Adds the two ends of the edge from a point to the next. One along x has no wall, and is left out.
fn add_ends(ends: &mut Vec<End>, from: &Point, to: &Point) -> Result<(), Memory>
    ensures { OnOk result (ends.new.items ≡ ends.old.items ++ ends_of (steep (edges (from.now ∷ to.now ∷ [])))) }
{
    if from.y != to.y {
        ends.push(end_at(from, from))?;
        ends.push(end_at(from, to))?;
    }
    Ok(())
}

/// The two ends of each edge of the ring that goes up or down, in turn.
pub fn ends(alloc: Global, ring: &[Point]) -> Result<Vec<End>, Memory>
    ensures { IfOk result (λ ends. ends.items ≡ ends_of (steep (edges ring.now))) }
{
    let mut ends = Vec::with_capacity(alloc, ring.len())?;
    for i in 1..ring.len() {
        add_ends(&mut ends, &ring[i - 1], &ring[i])?;
    }
    Ok(ends)
}
