// Design rule check (DRC), the rule of enclosure: a shape of each metal reaches past every via.
ghost use Rattle.std.specs.Prelude.{◌≡◌, ◌<◌, ◌^◌, ◌&&◌, ◌==◌, ◌-ℤ◌, ◌+ℤ◌, true, Some, pos, int_le, length};
ghost use Rattle.std.specs.Prelude.{slice_get, IfOk};
ghost use Rattle.geom.specs.declared.shapes.Shape.{Shape};
ghost use Rattle.geom.specs.Rectangle.{within, grown};
ghost use Rattle.layout_rules.specs.GeometryRules.{is_covered, EnclosureBroken};
ghost use Rattle.shape_extract.specs.Searches.{Finds};
ghost use Rattle.shape_extract.specs.Planes.{in_plane, ArePlanes};
ghost use Rattle.rule_check.specs.Code.Seen.{limits_seen};
ghost use Rattle.rule_check.specs.Code.Close.{encloses, is_bare_by, within_x, within_y, IsAnswerAt};
ghost use Rattle.rule_check.specs.Code.Sheets.{IsSheet};

use crate::limits::Limits;
use crate::sheet::named;
use aq_base::Memory;
use geom::{Rect, Shape};
use layout_rules::layers::{M1, M2};
use shape_extract::{
    FiledShapes, Kinds, PairTest, Part, Plane, Planes, Report, first_of, is_via, list_passing,
};
use std::alloc::Global;

/// Whether the first is below the second by the margin at least.
fn is_below_by(margin: u64, low: i64, high: i64) -> bool
    ensures down { result ≡ int_le low (high -ℤ pos margin) }
    ensures up { result ≡ int_le (low +ℤ pos margin) high }
{
    low <= high && high.abs_diff(low) >= margin
}

fn is_within_in_x(margin: u64, inner: &Rect, outer: &Rect) -> bool
    ensures { result ≡ within_x (grown margin inner.now) outer.now }
{
    is_below_by(margin, outer.x0, inner.x0) && is_below_by(margin, inner.x1, outer.x1)
}

fn is_within_in_y(margin: u64, inner: &Rect, outer: &Rect) -> bool
    ensures { result ≡ within_y (grown margin inner.now) outer.now }
{
    is_below_by(margin, outer.y0, inner.y0) && is_below_by(margin, inner.y1, outer.y1)
}

/// Whether the first, grown by the margin, lies within the second.
fn is_within_by(margin: u64, inner: &Rect, outer: &Rect) -> bool
    ensures { result ≡ within (grown margin inner.now) outer.now }
{
    is_within_in_x(margin, inner, outer) && is_within_in_y(margin, inner, outer)
}

/// A shape, and one of a layer that reaches past it by this margin on all sides.
#[derive(Drop)]
struct Encloses {
    layer: u16,
    margin: u64,
}

impl PairTest for Encloses {
    ghost passes = { λ t a b. encloses t.layer t.margin a b };

    ghost reach = { λ t. 0 };

    fn passes(&self, a: &Shape, b: &Shape) -> bool {
        b.layer == self.layer && is_within_by(self.margin, &a.rect, &b.rect)
    }

    fn reach(&self) -> u64 {
        0
    }
}

/// Whether a shape of the layer, which lies in the plane, reaches past this one by the margin.
fn is_covered(
    kinds: &Kinds,
    planes: &Planes,
    plane: Plane,
    test: &Encloses,
    via: &Shape,
    found: &mut Vec<u32>,
) -> Result<bool, Memory>
    requires filed { ArePlanes kinds.now planes.now }
    requires planar { (s : Shape) → (s.layer == test.now.layer) ≡ true → in_plane plane s ≡ true }
    ensures { IfOk result (λ answer. answer ≡ is_covered kinds.now test.now.layer
        (grown test.now.margin via.now.rect)) }
{
    list_passing(test, plane, via, kinds, planes, found)?;
    let covers = found.as_slice();
    Ok(!covers.is_empty())
}

/// Whether the shape of this number is a via whose margin is not within one shape of each metal.
fn is_bare(
    kinds: &Kinds,
    planes: &Planes,
    enclose: u64,
    v: u32,
    found: &mut Vec<u32>,
) -> Result<bool, Memory>
    requires filed { ArePlanes kinds.now planes.now }
    requires within { v < length kinds.now }
    ensures { IfOk result (IsAnswerAt kinds.now v (is_bare_by enclose kinds.now)) }
{
    let via = kinds.get(v);
    if !is_via(via) {
        return Ok(false);
    }
    let lower = Encloses {
        layer: M1,
        margin: enclose,
    };
    let upper = Encloses {
        layer: M2,
        margin: enclose,
    };
    let below = is_covered(kinds, planes, Plane::Lower, &lower, via, found)?;
    let above = is_covered(kinds, planes, Plane::Upper, &upper, via, found)?;
    Ok(!(below && above))
}

/// Vias that metal does not enclose.
#[derive(Drop)]
struct Enclosure<'a> {
    kinds: &'a Kinds<'a>,
    planes: &'a Planes,
    limits: &'a Limits,
}

impl<'a> Part for Enclosure<'a> {
    ghost valid = { λ s. (length s.kinds.now < 2 ^ 32) × ArePlanes s.kinds.now s.planes.now };

    ghost count = { λ s. length s.kinds.now };

    ghost reported = { λ s. EnclosureBroken (limits_seen s.limits.now) s.kinds.now };

    fn count(&self) -> u32 {
        self.kinds.count() as u32
    }

    fn second(&self, a: u32, found: &mut Vec<u32>) -> Result<Option<u32>, Memory> {
        if is_bare(self.kinds, self.planes, self.limits.enclose, a, found)? {
            return Ok(Some(a));
        }
        Ok(None)
    }
}

/// The first via that metal does not enclose.
pub fn find_bare(
    alloc: Global,
    shapes: &[Shape],
    sheet: &FiledShapes,
    limits: &Limits,
) -> Result<Option<Report>, Memory>
    requires { IsSheet shapes.now sheet.now }
    ensures { IfOk result (Finds (EnclosureBroken (limits_seen limits.now) shapes.now)) }
{
    let kinds = sheet.kinds.among(shapes);
    let found = first_of(
        alloc,
        &Enclosure {
            kinds: &kinds,
            planes: &sheet.planes,
            limits,
        },
    )?;
    Ok(named(sheet.kinds.numbers.as_slice(), found))
}
