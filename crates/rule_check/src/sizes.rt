// Design rule check (DRC), the rule of sizes: metal, vias and pins are large enough.
ghost use Rattle.std.specs.Prelude.{◌≡◌, ◌<◌, ◌^◌, length, IfOk};
ghost use Rattle.layout_rules.specs.GeometryRules.{is_below, is_too_small, SizesBroken};
ghost use Rattle.shape_extract.specs.Searches.{Finds};
ghost use Rattle.rule_check.specs.Code.Seen.{limits_seen};

use crate::limits::Limits;
use aq_base::Memory;
use geom::{Rect, Shape, height, width};
use shape_extract::{Part, Report, first_of, is_metal, is_pin, is_via};
use std::alloc::Global;

fn is_below(least_width: u64, least_height: u64, rect: &Rect) -> bool
    ensures { result ≡ is_below least_width least_height rect.now }
{
    width(rect) < least_width || height(rect) < least_height
}

fn is_too_small(limits: &Limits, s: &Shape) -> bool
    ensures { result ≡ is_too_small (limits_seen limits.now) s.now }
{
    (is_metal(s) && is_below(limits.wire, limits.wire, &s.rect))
        || (is_via(s) && is_below(limits.via, limits.via, &s.rect))
        || (is_pin(s) && is_below(limits.wire, limits.pin, &s.rect))
}

/// Shapes that are too small.
#[derive(Drop)]
struct Sizes<'a> {
    shapes: &'a [Shape],
    limits: &'a Limits,
}

impl<'a> Part for Sizes<'a> {
    ghost valid = { λ s. length s.shapes.now < 2 ^ 32 };

    ghost count = { λ s. length s.shapes.now };

    ghost reported = { λ s. SizesBroken (limits_seen s.limits.now) s.shapes.now };

    fn count(&self) -> u32 {
        self.shapes.len() as u32
    }

    fn second(&self, a: u32, _found: &mut Vec<u32>) -> Result<Option<u32>, Memory> {
        if is_too_small(self.limits, &self.shapes[a as usize]) {
            return Ok(Some(a));
        }
        Ok(None)
    }
}

/// The first shape that is too small.
pub fn find_small(
    alloc: Global,
    shapes: &[Shape],
    limits: &Limits,
) -> Result<Option<Report>, Memory>
    requires { length shapes.now < 2 ^ 32 }
    ensures { IfOk result (Finds (SizesBroken (limits_seen limits.now) shapes.now)) }
{
    first_of(alloc, &Sizes { shapes, limits })
}
