// Design rule check (DRC), the rule of cover: over cells lies no metal but at pins.
ghost use Rattle.std.specs.Prelude.{◌≡◌, ◌<◌, ◌^◌, ◌&&◌, int_le, length, IfOk};
ghost use Rattle.std.specs.Int.{int_max, int_min};
ghost use Rattle.geom.specs.Rectangle.{within};
ghost use Rattle.geom.specs.Rectangle.{common};
ghost use Rattle.layout_rules.specs.GeometryRules.{CoverBroken};
ghost use Rattle.shape_extract.specs.Searches.{Finds, FindsAt};
ghost use Rattle.shape_extract.specs.Planes.{ArePlanes};
ghost use Rattle.rule_check.specs.Code.Cover.{is_at_pin_of, AreWithin, any_at, may_trespass, trespasses_by};
ghost use Rattle.rule_check.specs.Code.Cover.{FindsTrespass};
ghost use Rattle.rule_check.specs.Code.Close.{within_x, within_y};
ghost use Rattle.rule_check.specs.Code.Sheets.{IsSheet};

use crate::sheet::named;
use aq_base::Memory;
use geom::{Rect, Shape, is_within, overlaps};
use layout_rules::layers::M1;
use shape_extract::{
    FiledShapes, Kinds, Part, Plane, Planes, Report, first_of, is_frame, is_pin, is_upper, is_via,
};
use std::alloc::Global;

/// Whether the first number is at most the greater of the others.
fn is_below_one(low: i64, a: i64, b: i64) -> bool
    ensures { result ≡ int_le low (int_max a b) }
{
    low <= a || low <= b
}

/// Whether the lesser of the first two numbers is at most the third.
fn is_one_below(a: i64, b: i64, high: i64) -> bool
    ensures { result ≡ int_le (int_min a b) high }
{
    a <= high || b <= high
}

fn holds_common_in_x(a: &Rect, b: &Rect, outer: &Rect) -> bool
    ensures { result ≡ within_x (common a.now b.now) outer.now }
{
    is_below_one(outer.x0, a.x0, b.x0) && is_one_below(a.x1, b.x1, outer.x1)
}

fn holds_common_in_y(a: &Rect, b: &Rect, outer: &Rect) -> bool
    ensures { result ≡ within_y (common a.now b.now) outer.now }
{
    is_below_one(outer.y0, a.y0, b.y0) && is_one_below(a.y1, b.y1, outer.y1)
}

/// Whether what the first two have in common lies within the third.
fn holds_common(a: &Rect, b: &Rect, outer: &Rect) -> bool
    ensures { result ≡ within (common a.now b.now) outer.now }
{
    holds_common_in_x(a, b, outer) && holds_common_in_y(a, b, outer)
}

/// Whether the shape is a pin of the frame that holds all that the metal has in common with the frame.
fn is_at_pin_of(metal: &Shape, frame: &Shape, pin: &Shape) -> bool
    ensures { result ≡ is_at_pin_of metal.now frame.now pin.now }
{
    is_pin(pin)
        && is_frame(frame)
        && is_within(&pin.rect, &frame.rect)
        && holds_common(&metal.rect, &frame.rect, &pin.rect)
}

/// Whether one of these shapes is a pin of the frame that holds all that the metal has in common with the frame.
fn has_pin(kinds: &Kinds, numbers: &[u32], metal: &Shape, frame: &Shape) -> bool
    requires { AreWithin kinds.now numbers.now }
    ensures { result ≡ any_at (is_at_pin_of metal.now frame.now) kinds.now numbers.now }
{
    for number in numbers {
        if is_at_pin_of(metal, frame, kinds.get(*number)) {
            return true;
        }
    }
    false
}

/// Whether the shape trespasses on the frame, by the pins near the shape.
fn trespasses(kinds: &Kinds, pins: &[u32], s: &Shape, frame: &Shape) -> bool
    requires { AreWithin kinds.now pins.now }
    ensures { result ≡ trespasses_by kinds.now pins.now s.now frame.now }
{
    is_frame(frame)
        && overlaps(&s.rect, &frame.rect)
        && (is_via(s) || is_upper(s) || (s.layer == M1 && !has_pin(kinds, pins, s, frame)))
}

/// The first of these frames on which the shape trespasses, by the pins near it.
fn first_trespass(kinds: &Kinds, frames: &[u32], pins: &[u32], s: &Shape) -> Option<u32>
    requires frames { AreWithin kinds.now frames.now }
    requires pins { AreWithin kinds.now pins.now }
    ensures { FindsTrespass kinds.now frames.now pins.now s.now result }
{
    for number in frames {
        if trespasses(kinds, pins, s, kinds.get(*number)) {
            return Some(*number);
        }
    }
    None
}

/// Room for the pins near a wire, so that the list of them mostly doesn't grow.
const FEW: usize = 4;

/// Whether the shape is of a layer that may trespass.
fn may_trespass(s: &Shape) -> bool
    ensures { result ≡ may_trespass s.now }
{
    is_via(s) || is_upper(s) || s.layer == M1
}

/// The first frame on which the shape of this number trespasses.
fn find_trespass(
    alloc: Global,
    kinds: &Kinds,
    planes: &Planes,
    a: u32,
    found: &mut Vec<u32>,
) -> Result<Option<u32>, Memory>
    requires filed { ArePlanes kinds.now planes.now }
    requires within { a < length kinds.now }
    ensures { IfOk result (FindsAt (CoverBroken kinds.now) a) }
{
    let s = kinds.get(a);
    if !may_trespass(s) {
        return Ok(None);
    }
    s.rect.known();
    planes.list_near(Plane::Frames, &s.rect, 0, found)?;
    let frames = found.as_slice();
    if frames.is_empty() {
        return Ok(None);
    }
    let mut pins = Vec::with_capacity(alloc, FEW)?;
    planes.list_near(Plane::Pins, &s.rect, 0, &mut pins)?;
    let frame = first_trespass(kinds, frames, pins.as_slice(), s);
    Ok(frame)
}

/// Metal and vias over cells.
#[derive(Drop)]
struct Cover<'a> {
    alloc: Global,
    kinds: &'a Kinds<'a>,
    planes: &'a Planes,
}

impl<'a> Part for Cover<'a> {
    ghost valid = { λ s. (length s.kinds.now < 2 ^ 32) × ArePlanes s.kinds.now s.planes.now };

    ghost count = { λ s. length s.kinds.now };

    ghost reported = { λ s. CoverBroken s.kinds.now };

    fn count(&self) -> u32 {
        self.kinds.count() as u32
    }

    fn second(&self, a: u32, found: &mut Vec<u32>) -> Result<Option<u32>, Memory> {
        find_trespass(self.alloc, self.kinds, self.planes, a, found)
    }
}

/// The first metal or via over a cell.
pub fn find_cover(
    alloc: Global,
    shapes: &[Shape],
    sheet: &FiledShapes,
) -> Result<Option<Report>, Memory>
    requires { IsSheet shapes.now sheet.now }
    ensures { IfOk result (Finds (CoverBroken shapes.now)) }
{
    let kinds = sheet.kinds.among(shapes);
    let found = first_of(
        alloc,
        &Cover {
            alloc,
            kinds: &kinds,
            planes: &sheet.planes,
        },
    )?;
    Ok(named(sheet.kinds.numbers.as_slice(), found))
}
