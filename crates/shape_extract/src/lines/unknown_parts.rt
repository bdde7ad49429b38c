// Parts of excitation lines that are no bars, links or starts.
ghost use Rattle.std.specs.Prelude.{◌≡◌, ◌^◌, ◌<◌, IfOk, length};
ghost use Rattle.layout_rules.specs.Reports.{Alone, Passes};
ghost use Rattle.layout_rules.specs.ExcitationRule.{is_no_part};
ghost use Rattle.shape_extract.specs.Searches.{Finds};

use crate::layers::is_line;
use crate::search::{Part, Report, first_of};
use aq_base::Memory;
use geom::Shape;
use layout_rules::layers::START;
use std::alloc::Global;

fn is_no_part(s: &Shape) -> bool
    ensures { result ≡ is_no_part s.now }
{
    is_line(s) && s.datatype > START
}

/// Parts of lines that are no bars, links or starts.
#[derive(Drop)]
struct UnknownParts<'a> {
    shapes: &'a [Shape],
}

impl<'a> Part for UnknownParts<'a> {
    ghost valid = { λ s. length s.shapes.now < 2 ^ 32 };

    ghost count = { λ s. length s.shapes.now };

    ghost reported = { λ s. Alone (Passes is_no_part s.shapes.now) };

    fn count(&self) -> u32 {
        self.shapes.len() as u32
    }

    fn second(&self, a: u32, _found: &mut Vec<u32>) -> Result<Option<u32>, Memory> {
        if is_no_part(&self.shapes[a as usize]) {
            return Ok(Some(a));
        }
        Ok(None)
    }
}

/// The first part of a line that is no bar, link or start.
pub fn find_unknown_part(alloc: Global, shapes: &[Shape]) -> Result<Option<Report>, Memory>
    requires { length shapes.now < 2 ^ 32 }
    ensures { IfOk result (Finds (Alone (Passes is_no_part shapes.now))) }
{
    first_of(alloc, &UnknownParts { shapes })
}
