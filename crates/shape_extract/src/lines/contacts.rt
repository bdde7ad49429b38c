// Parts of excitation lines and their contacts.
ghost use Rattle.std.specs.Prelude.{◌≡◌, ◌&&◌, ◌==◌, ◌^◌, ◌<◌, IfOk, length, not};
ghost use Rattle.std.specs.List.{filter};
ghost use Rattle.layout_rules.specs.ExcitationLines.{meet, Contact, IsPart};
ghost use Rattle.shape_extract.specs.Searches.{SaysWhether, AreThose};
ghost use Rattle.shape_extract.specs.Filed.{IsFiled};
ghost use Rattle.shape_extract.specs.Planes.{IsPlane};
ghost use Rattle.shape_extract.specs.declared.planes.Plane.TheVariants.{Lines};

use crate::filed_shapes::FiledShapes;
use crate::layers::is_line;
use crate::pairs::{PairTest, list_filed_partners, list_line_partners};
use crate::planes::{FiledPlane, Plane};
use aq_base::Memory;
use geom::{Shape, touches};

/// Whether the shape of this number is a part of a line with this datatype.
pub fn is_part(shapes: &[Shape], datatype: u16, n: u32) -> bool
    requires { n < length shapes.now }
    ensures { SaysWhether result (IsPart shapes.now datatype n) }
{
    let shape = &shapes[n as usize];
    is_line(shape) && shape.datatype == datatype
}

/// Two parts on one layer that share a point.
struct Meet;

impl PairTest for Meet {
    ghost passes = { λ s a b. meet a b };

    ghost reach = { λ s. 0 };

    fn passes(&self, a: &Shape, b: &Shape) -> bool {
        is_line(a) && a.layer == b.layer && touches(&a.rect, &b.rect)
    }

    fn reach(&self) -> u64 {
        0
    }
}

/// Takes a number out of a list.
fn remove_number(numbers: &mut Vec<u32>, a: u32)
    ensures { numbers.new.items ≡ filter (λ n. not (n == a)) numbers.old.items }
{
    numbers.retain(|n| *n != a);
}

/// Lists the contacts of the shape of this number, where many parts may be equal.
pub fn list_filed_contacts(
    shapes: &[Shape],
    filed: &FiledShapes,
    a: u32,
    found: &mut Vec<u32>,
) -> Result<(), Memory>
    requires filed { IsFiled shapes.now filed.now }
    requires few { length shapes.now < 2 ^ 32 }
    requires within { a < length shapes.now }
    ensures { IfOk result (λ _. AreThose (Contact shapes.now a) found.new.items) }
{
    list_filed_partners(&Meet, Plane::Lines, shapes, filed, a, found)?;
    remove_number(found, a);
    Ok(())
}

/// Lists the contacts of the shape of this number, where no part has many.
pub fn list_contacts(
    shapes: &[Shape],
    lines: &FiledPlane,
    a: u32,
    found: &mut Vec<u32>,
) -> Result<(), Memory>
    requires filed { IsPlane Lines shapes.now lines.now }
    requires within { a < length shapes.now }
    ensures { IfOk result (λ _. AreThose (Contact shapes.now a) found.new.items) }
{
    list_line_partners(&Meet, shapes, lines, a, found)?;
    remove_number(found, a);
    Ok(())
}
