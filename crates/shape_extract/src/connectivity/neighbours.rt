// The shapes that touch one.
ghost use Rattle.std.specs.Prelude.{◌≡◌, ◌&&◌, ◌||◌, ◌^◌, ◌<◌, Bool, length, IfOk};
ghost use Rattle.geom.specs.declared.shapes.Shape.{Shape};
ghost use Rattle.layout_rules.specs.Layers.{is_lower, is_upper, is_via};
ghost use Rattle.layout_rules.specs.Touch.{touch};
ghost use Rattle.shape_extract.specs.Searches.{AreThose};
ghost use Rattle.shape_extract.specs.Passing.{PassesIn};
ghost use Rattle.shape_extract.specs.Planes.{in_plane, ArePlanes};
ghost use Rattle.shape_extract.specs.Code.Walk.{AreTouching, touches_in};

use crate::connectivity::touching::touch;
use crate::kinds::Kinds;
use crate::layers::{is_lower, is_upper, is_via};
use crate::pairs::{PairTest, list_passing};
use crate::planes::{Plane, Planes};
use aq_base::Memory;
use geom::Shape;

/// Two shapes that conduct to each other and share a point, of which the second lies in a plane.
#[derive(Clone, Copy)]
struct TouchIn {
    plane: Plane,
}

impl PairTest for TouchIn {
    ghost passes = { λ t a b. in_plane t.plane b && touch a b };

    ghost reach = { λ t. 0 };

    fn passes(&self, a: &Shape, b: &Shape) -> bool {
        self.plane.holds(b) && touch(a, b)
    }

    fn reach(&self) -> u64 {
        0
    }
}

/// Whether shapes of the lower plane conduct to this one.
fn meets_lower(s: &Shape) -> bool
    ensures { result ≡ (is_lower s.now || is_via s.now) }
{
    is_lower(s) || is_via(s)
}

/// Whether vias conduct to this one.
fn meets_vias(s: &Shape) -> bool
    ensures { result ≡ (is_lower s.now || is_upper s.now) }
{
    is_lower(s) || is_upper(s)
}

/// Whether shapes of the upper plane conduct to this one.
fn meets_upper(s: &Shape) -> bool
    ensures { result ≡ (is_upper s.now || is_via s.now) }
{
    is_upper(s) || is_via(s)
}

/// Lists the kinds of a plane that touch this shape, where they are wanted, and else none.
fn list_touching_in(
    wanted: bool,
    plane: Plane,
    kinds: &Kinds,
    planes: &Planes,
    from: &Shape,
    found: &mut Vec<u32>,
) -> Result<(), Memory>
    requires planes { ArePlanes kinds.now planes.now }
    ensures { IfOk result (λ _. AreThose (PassesIn (touches_in wanted plane from.now) kinds.now) found.new.items) }
{
    if wanted {
        return list_passing(&TouchIn { plane }, plane, from, kinds, planes, found);
    }
    found.clear();
    Ok(())
}

/// Lists exactly the kinds that touch the one at this place, by queries of the planes in which such kinds lie. The
/// second list is for use within.
pub fn list_touching(
    kinds: &Kinds,
    planes: &Planes,
    from: u32,
    found: &mut Vec<u32>,
    more: &mut Vec<u32>,
) -> Result<(), Memory>
    requires planes { ArePlanes kinds.now planes.now }
    requires within { from < length kinds.now }
    ensures { IfOk result (λ _. AreTouching kinds.now from found.new.items) }
{
    let shape = kinds.get(from);
    let lower = meets_lower(shape);
    let vias = meets_vias(shape);
    let upper = meets_upper(shape);
    list_touching_in(lower, Plane::Lower, kinds, planes, shape, found)?;
    list_touching_in(vias, Plane::Vias, kinds, planes, shape, more)?;
    found.extend_from_slice(more.as_slice())?;
    list_touching_in(upper, Plane::Upper, kinds, planes, shape, more)?;
    found.extend_from_slice(more.as_slice())?;
    Ok(())
}
