// Parts of excitation lines that no start leads to.
ghost use Rattle.std.specs.Prelude.{◌≡◌, ◌^◌, ◌<◌, IfOk, length};
ghost use Rattle.layout_rules.specs.Reports.{Alone};
ghost use Rattle.layout_rules.specs.ExcitationLines.{IsReached};
ghost use Rattle.layout_rules.specs.ExcitationRule.{IsCutOff};
ghost use Rattle.shape_extract.specs.Searches.{SaysWhether, Finds};
ghost use Rattle.shape_extract.specs.Code.Lines.{AreWalked};

use crate::layers::is_line;
use crate::search::{Part, Report, first_of};
use aq_base::Memory;
use geom::Shape;
use std::alloc::Global;

/// Whether the walk along the lines reached the shape of this number.
pub fn is_reached(shapes: &[Shape], before: &[u32], n: u32) -> bool
    requires walked { AreWalked shapes.now before.now }
    requires within { n < length shapes.now }
    ensures { SaysWhether result (IsReached shapes.now n) }
{
    (before[n as usize] as usize) < shapes.len()
}

/// Whether the shape of this number is a part of a line to which no start leads.
fn is_cut_off(shapes: &[Shape], before: &[u32], n: u32) -> bool
    requires walked { AreWalked shapes.now before.now }
    requires within { n < length shapes.now }
    ensures { SaysWhether result (IsCutOff shapes.now n) }
{
    if !is_line(&shapes[n as usize]) {
        return false;
    }
    !is_reached(shapes, before, n)
}

/// Parts of lines to which no start leads.
#[derive(Drop)]
struct CutOffParts<'a> {
    shapes: &'a [Shape],
    before: &'a [u32],
}

impl<'a> Part for CutOffParts<'a> {
    ghost valid = { λ s. (length s.shapes.now < 2 ^ 32) × AreWalked s.shapes.now s.before.now };

    ghost count = { λ s. length s.shapes.now };

    ghost reported = { λ s. Alone (IsCutOff s.shapes.now) };

    fn count(&self) -> u32 {
        self.shapes.len() as u32
    }

    fn second(&self, a: u32, _found: &mut Vec<u32>) -> Result<Option<u32>, Memory> {
        if is_cut_off(self.shapes, self.before, a) {
            return Ok(Some(a));
        }
        Ok(None)
    }
}

/// The first part of a line to which no start leads.
pub fn find_cut_off(
    alloc: Global,
    shapes: &[Shape],
    before: &[u32],
) -> Result<Option<Report>, Memory>
    requires few { length shapes.now < 2 ^ 32 }
    requires walked { AreWalked shapes.now before.now }
    ensures { IfOk result (Finds (Alone (IsCutOff shapes.now))) }
{
    first_of(alloc, &CutOffParts { shapes, before })
}
