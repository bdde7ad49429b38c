// The starts of excitation lines, one for each layer that has shapes.
ghost use Rattle.std.specs.Prelude.{◌≡◌, ◌^◌, ◌<◌, length, count_by};
ghost use Rattle.layout_rules.specs.Reports.{Alone};
ghost use Rattle.layout_rules.specs.ExcitationRule.{LacksOneStart};
ghost use Rattle.shape_extract.specs.Searches.{Finds};
ghost use Rattle.shape_extract.specs.Code.LineParts.{is_start_on, FindsOn};

use crate::layers::is_line;
use crate::search::Report;
use geom::Shape;
use layout_rules::layers::START;

fn is_start_on(s: &Shape, layer: u16) -> bool
    ensures { result ≡ is_start_on layer s.now }
{
    is_line(s) && s.datatype == START && s.layer == layer
}

/// How many starts the layer has.
fn count_starts(shapes: &[Shape], layer: u16) -> usize
    ensures { result ≡ count_by (is_start_on layer) shapes.now }
{
    shapes.iter().filter(|s| is_start_on(s, layer)).count()
}

/// The least shape of the layer.
fn first_on(shapes: &[Shape], layer: u16) -> Option<u32>
    requires { length shapes.now < 2 ^ 32 }
    ensures { FindsOn shapes.now layer result }
{
    for (n, shape) in shapes.iter().enumerate() {
        if shape.layer == layer {
            return Some(n as u32);
        }
    }
    None
}

/// The least shape of a layer that has shapes and no start, or several.
pub fn find_start_fault(shapes: &[Shape], layer: u16) -> Option<Report>
    requires { length shapes.now < 2 ^ 32 }
    ensures { Finds (Alone (LacksOneStart shapes.now layer)) result }
{
    let first = first_on(shapes, layer)?;
    if count_starts(shapes, layer) == 1 {
        return None;
    }
    Some(Report {
        first,
        second: first,
    })
}
