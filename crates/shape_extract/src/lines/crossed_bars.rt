// Bars and how their line runs along them, from one side to the other.
ghost use Rattle.std.specs.Prelude.{◌≡◌, ◌^◌, ◌<◌, IfOk, length};
ghost use Rattle.layout_rules.specs.Reports.{Alone};
ghost use Rattle.layout_rules.specs.ExcitationLines.{
  Contact,
  at_left,
  at_right,
  at_left_only,
  at_right_only,
  enters,
  leaves,
};
ghost use Rattle.layout_rules.specs.ExcitationRule.{AreLaidOut};
ghost use Rattle.layout_rules.specs.Code.ChainRule.{IsChainUncrossed};
ghost use Rattle.shape_extract.specs.Searches.{SaysWhether, Finds, AreThose};
ghost use Rattle.shape_extract.specs.Code.Lines.{AreWalked, GoesOnWrongly};
ghost use Rattle.shape_extract.specs.Planes.{IsPlane};
ghost use Rattle.shape_extract.specs.declared.planes.Plane.TheVariants.{Lines};

use crate::lines::contacts::{is_part, list_contacts};
use crate::lines::reached_parts::is_reached;
use crate::planes::FiledPlane;
use crate::search::{Part, Report, first_of};
use aq_base::Memory;
use geom::{Shape, holds_in_x, touches_in_y};
use layout_rules::layers::BAR;
use std::alloc::Global;

/// Whether the shape shares a point with the bar's left edge.
pub fn at_left(s: &Shape, bar: &Shape) -> bool
    ensures { result ≡ at_left s.now bar.now }
{
    holds_in_x(&s.rect, bar.rect.x0) && touches_in_y(&s.rect, &bar.rect)
}

/// Whether the shape shares a point with the bar's right edge.
fn at_right(s: &Shape, bar: &Shape) -> bool
    ensures { result ≡ at_right s.now bar.now }
{
    holds_in_x(&s.rect, bar.rect.x1) && touches_in_y(&s.rect, &bar.rect)
}

fn at_left_only(s: &Shape, bar: &Shape) -> bool
    ensures { result ≡ at_left_only s.now bar.now }
{
    at_left(s, bar) && !at_right(s, bar)
}

fn at_right_only(s: &Shape, bar: &Shape) -> bool
    ensures { result ≡ at_right_only s.now bar.now }
{
    at_right(s, bar) && !at_left(s, bar)
}

/// Whether the line comes to the bar at one side.
fn enters(before: &Shape, bar: &Shape) -> bool
    ensures { result ≡ enters before.now bar.now }
{
    at_left_only(before, bar) || at_right_only(before, bar)
}

/// Whether the line goes on at the other side of the bar.
fn leaves(before: &Shape, bar: &Shape, after: &Shape) -> bool
    ensures { result ≡ leaves before.now bar.now after.now }
{
    if at_left(before, bar) {
        at_right_only(after, bar)
    } else {
        at_left_only(after, bar)
    }
}

/// Whether a contact of bar b other than shape a, which comes before it, is not at the other side alone.
fn goes_on_wrongly(shapes: &[Shape], contacts: &[u32], a: u32, b: u32) -> bool
    requires contacts { AreThose (Contact shapes.now b) contacts.now }
    requires before { a < length shapes.now }
    requires bar { b < length shapes.now }
    ensures { SaysWhether result (GoesOnWrongly shapes.now a b) }
{
    let bar = &shapes[b as usize];
    let before = &shapes[a as usize];
    for number in contacts {
        if *number != a {
            let after = &shapes[*number as usize];
            if !leaves(before, bar, after) {
                return true;
            }
        }
    }
    false
}

/// Whether the shape of this number is a bar that its line doesn't run along from one side to the other.
fn is_not_crossed(
    shapes: &[Shape],
    lines: &FiledPlane,
    before: &[u32],
    b: u32,
    found: &mut Vec<u32>,
) -> Result<bool, Memory>
    requires filed { IsPlane Lines shapes.now lines.now }
    requires few { length shapes.now < 2 ^ 32 }
    requires within { b < length shapes.now }
    requires lines { AreLaidOut shapes.now }
    requires walked { AreWalked shapes.now before.now }
    ensures { IfOk result (λ yes. SaysWhether yes (IsChainUncrossed shapes.now b)) }
{
    if !is_part(shapes, BAR, b) {
        return Ok(false);
    }
    if !is_reached(shapes, before, b) {
        return Ok(false);
    }
    let a = before[b as usize];
    if !enters(&shapes[a as usize], &shapes[b as usize]) {
        return Ok(true);
    }
    list_contacts(shapes, lines, b, found)?;
    let wrong = goes_on_wrongly(shapes, found.as_slice(), a, b);
    Ok(wrong)
}

/// Bars that their lines don't run along from one side to the other.
#[derive(Drop)]
struct UncrossedBars<'a> {
    shapes: &'a [Shape],
    lines: &'a FiledPlane,
    before: &'a [u32],
}

impl<'a> Part for UncrossedBars<'a> {
    ghost valid = { λ s. (length s.shapes.now < 2 ^ 32)
        × (AreLaidOut s.shapes.now × AreWalked s.shapes.now s.before.now) × IsPlane Lines s.shapes.now s.lines.now };

    ghost count = { λ s. length s.shapes.now };

    ghost reported = { λ s. Alone (IsChainUncrossed s.shapes.now) };

    fn count(&self) -> u32 {
        self.shapes.len() as u32
    }

    fn second(&self, a: u32, found: &mut Vec<u32>) -> Result<Option<u32>, Memory> {
        if is_not_crossed(self.shapes, self.lines, self.before, a, found)? {
            return Ok(Some(a));
        }
        Ok(None)
    }
}

/// The first bar that its line doesn't run along from one side to the other.
pub fn find_uncrossed(
    alloc: Global,
    shapes: &[Shape],
    lines: &FiledPlane,
    before: &[u32],
) -> Result<Option<Report>, Memory>
    requires filed { IsPlane Lines shapes.now lines.now }
    requires few { length shapes.now < 2 ^ 32 }
    requires lines { AreLaidOut shapes.now }
    requires walked { AreWalked shapes.now before.now }
    ensures { IfOk result (Finds (Alone (IsChainUncrossed shapes.now))) }
{
    first_of(
        alloc,
        &UncrossedBars {
            shapes,
            lines,
            before,
        },
    )
}
