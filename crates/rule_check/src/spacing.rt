// Design rule check (DRC), the rule of spacing: shapes that don't touch keep their distance.
ghost use Rattle.std.specs.Prelude.{◌≡◌, ℕ, ◌-◌, ◌<◌, ◌≤◌, ◌^◌, true, false, length, IfOk, MatchOption};
ghost use Rattle.geom.specs.declared.shapes.Shape.{Shape};
ghost use Rattle.layout_rules.specs.GeometryRules.{are_of_one_group, are_too_close, SpacingBroken};
ghost use Rattle.shape_extract.specs.Searches.{Finds};
ghost use Rattle.shape_extract.specs.Planes.{in_plane};
ghost use Rattle.rule_check.specs.Code.Seen.{limits_seen};
ghost use Rattle.rule_check.specs.Code.Above.{FindsAbove};
ghost use Rattle.rule_check.specs.Code.Close.{is_of_a_group, IsFiledWith};
ghost use Rattle.rule_check.specs.Code.Sheets.{IsSheet};

use crate::limits::Limits;
use crate::sheet::{known, named};
use aq_base::Memory;
use geom::{Shape, gap_x, gap_y, touches};
use shape_extract::{
    FiledShapes, Kinds, PairTest, Part, Plane, Planes, Report, first_of, is_lower, is_upper,
    is_via, list_passing,
};
use std::alloc::Global;

fn are_of_one_group(a: &Shape, b: &Shape) -> bool
    ensures { result ≡ are_of_one_group a.now b.now }
{
    (is_lower(a) && is_lower(b)) || (is_via(a) && is_via(b)) || (is_upper(a) && is_upper(b))
}

/// The plane of the shapes from which this one keeps its distance; none where it is of no such layer.
fn group_of(s: &Shape) -> Option<Plane>
    ensures { MatchOption result (is_of_a_group s.now ≡ false)
        (λ plane. (t : Shape) → are_of_one_group s.now t ≡ true → in_plane plane t ≡ true) }
{
    if is_lower(s) {
        Some(Plane::Lower)
    } else if is_via(s) {
        Some(Plane::Vias)
    } else if is_upper(s) {
        Some(Plane::Upper)
    } else {
        None
    }
}

/// Two shapes that must keep this distance and don't.
#[derive(Drop)]
struct TooClose {
    space: u64,
}

impl PairTest for TooClose {
    ghost passes = { λ t a b. are_too_close t.space a b };

    ghost reach = { λ t. t.space - 1 };

    fn passes(&self, a: &Shape, b: &Shape) -> bool {
        are_of_one_group(a, b)
            && !touches(&a.rect, &b.rect)
            && (gap_x(&a.rect, &b.rect) < self.space && gap_y(&a.rect, &b.rect) < self.space)
    }

    fn reach(&self) -> u64 {
        self.space.saturating_sub(1)
    }
}

/// The first of these numbers that is above a.
pub fn first_above(numbers: &[u32], a: u32) -> Option<u32>
    ensures { FindsAbove numbers.now a result }
{
    for number in numbers {
        if *number > a {
            return Some(*number);
        }
    }
    None
}

/// Shapes that stand too close, each pair at its lesser number.
#[derive(Drop)]
struct Spacing<'a> {
    kinds: &'a Kinds<'a>,
    planes: &'a Planes,
    limits: &'a Limits,
}

impl<'a> Part for Spacing<'a> {
    ghost valid = { λ s. IsFiledWith s.limits.now.space s.kinds.now s.planes.now };

    ghost count = { λ s. length s.kinds.now };

    ghost reported = { λ s. SpacingBroken (limits_seen s.limits.now) s.kinds.now };

    fn count(&self) -> u32 {
        self.kinds.count() as u32
    }

    fn second(&self, a: u32, found: &mut Vec<u32>) -> Result<Option<u32>, Memory> {
        let first = self.kinds.get(a);
        let Some(group) = group_of(first) else {
            return Ok(None);
        };
        let space = self.limits.space;
        list_passing(
            &TooClose { space },
            group,
            first,
            self.kinds,
            self.planes,
            found,
        )?;
        let above = first_above(found.as_slice(), a);
        Ok(above)
    }
}

/// The first two shapes that stand too close.
pub fn find_close(
    alloc: Global,
    shapes: &[Shape],
    sheet: &FiledShapes,
    limits: &Limits,
) -> Result<Option<Report>, Memory>
    requires sheet { IsSheet shapes.now sheet.now }
    requires space_some { 1 ≤ limits.now.space }
    requires space_most { limits.now.space ≤ 1000000 }
    ensures { IfOk result (Finds (SpacingBroken (limits_seen limits.now) shapes.now)) }
{
    let kinds = sheet.kinds.among(shapes);
    known(&kinds);
    let found = first_of(
        alloc,
        &Spacing {
            kinds: &kinds,
            planes: &sheet.planes,
            limits,
        },
    )?;
    Ok(named(sheet.kinds.numbers.as_slice(), found))
}
