// The points of an XY.
ghost use Rattle.std.specs.Prelude.{◌≡◌, IfOk};
ghost use Rattle.gds_records.specs.Drawing.{coordinate};
ghost use Rattle.gds_records.specs.WideValues.{points};
ghost use Rattle.poly_cut.specs.Turns.{point};

use crate::fields::coordinate;
use aq_base::{List, Memory};
use poly_cut::Point;
use std::alloc::Global;

// The first point of an XY.
fn first_point(xy: &[u8]) -> Point
    ensures { result ≡ point (coordinate xy.now 0) (coordinate xy.now 1) }
{
    Point {
        x: coordinate(xy, 0),
        y: coordinate(xy, 1),
    }
}

/// The points of an XY, in order.
pub fn points(alloc: Global, xy: &[u8]) -> Result<List<Point>, Memory>
    ensures { IfOk result (λ found. found ≡ points xy.now) }
{
    let mut found = Vec::with_capacity(alloc, xy.len() / 8)?;
    let mut rest = xy;
    'points: while rest.len() >= 8 {
        found.push(first_point(rest))?;
        let (_, more) = rest.split_at(8);
        rest = more;
    }
    Ok(List::from_vec(found))
}
