// Rings, with the rectangles into which they are cut.
ghost use Rattle.std.specs.Prelude.{◌≡◌, ◌==◌, false, length, IfOk};
ghost use Rattle.std.proofs.Common.{rules};
ghost use Rattle.std.specs.Cmp.Lexicographic.{pointwise};
ghost use Rattle.std.specs.Cmp.Rules.{comparing};
ghost use Rattle.std.specs.Ordering.{eq_of_both, int_eq, on};
ghost use Rattle.poly_cut.specs.Cuts.{ring_cut};

use crate::boxes::rectangle_of;
use crate::cutting::cut_ring;
use crate::layout::Point;
use aq_base::{List, Memory};
use geom::Rect;
use std::alloc::{AllocError, Global};
use std::marker::Model;

/// The corners of a boundary in turn, from a point back to it, in nanometres. The rectangles into which it is cut are
/// counted and kept, so that it is cut once. They are not kept where they are more than twice as many as the corners,
/// so that memory stays in proportion to these, nor of a plain rectangle, which is cut at once.
#[derive(Drop)]
pub struct Ring {
    points: List<Point>,
    count: usize,
    kept: List<Rect>,
}

impl Model for Ring {
    ghost use Rattle.std.specs.Prelude.{List};
    ghost use Rattle.poly_cut.specs.declared.layout.Point.{Point};

    ghost Value = { List Point };

    ghost use Rattle.poly_cut.specs.Code.Kept.{IsKept};

    ghost view = { λ r. r.points };

    ghost invariant = { λ r. IsKept r.points r.count r.kept };
}

/// The rectangles of a ring of so many corners, or none of them where they are too many to be kept.
fn few(alloc: Global, corners: usize, rects: List<Rect>) -> List<Rect>
    ensures { (length result == 0) ≡ false → result ≡ rects }
{
    if rects.len() / 2 > corners {
        return List::new(alloc);
    }
    let mut rects = rects.into_vec();
    rects.shrink_to_fit();
    List::from_vec(rects)
}

/// A copy of rectangles.
fn copied(alloc: Global, rects: &[Rect]) -> Result<List<Rect>, Memory>
    ensures { IfOk result (λ copy. copy ≡ rects.now) }
{
    Ok(List::from_vec(Vec::from_slice(alloc, rects)?))
}

impl Ring {
    /// The ring of these corners, which is cut here.
    pub fn new(alloc: Global, points: List<Point>) -> Result<Self, Memory>
        ensures { IfOk result (λ ring. ring ≡ points) }
    {
        if rectangle_of(points.as_slice()).is_some() {
            return Ok(Ring {
                points,
                count: 1,
                kept: List::new(alloc),
            });
        }
        let rects = cut_ring(alloc, points.as_slice())?;
        let count = rects.len();
        let kept = few(alloc, points.len(), rects);
        Ok(Ring {
            points,
            count,
            kept,
        })
    }

    /// The corners in turn.
    pub fn as_slice(&self) -> &[Point]
        ensures { result.now ≡ self.now }
    {
        self.points.as_slice()
    }

    /// Into how many rectangles the ring is cut.
    pub fn count(&self) -> usize
        ensures { result ≡ length (ring_cut self.now) }
    {
        self.count
    }

    /// The rectangles into which the ring is cut, by lower edge and then by left edge.
    pub fn rects(&self, alloc: Global) -> Result<List<Rect>, Memory>
        ensures { IfOk result (λ rects. rects ≡ ring_cut self.now) }
    {
        if self.kept.len() == 0 {
            return cut_ring(alloc, self.points.as_slice());
        }
        copied(alloc, self.kept.as_slice())
    }
}

impl Clone for Ring {
    ghost is_clone = { λ ring copy. copy ≡ ring };

    fn clone(&self) -> Result<Ring, AllocError> {
        Ok(Ring {
            points: self.points.clone()?,
            count: self.count,
            kept: self.kept.clone()?,
        })
    }
}

impl PartialEq for Ring {
    ghost eq = { pointwise (eq_of_both (on (λ p. p.x) int_eq) (on (λ p. p.y) int_eq)) };

    ghost laws = { Prim.search (comparing, rules) };

    fn eq(&self, other: &Self) -> bool {
        self.points == other.points
    }
}
