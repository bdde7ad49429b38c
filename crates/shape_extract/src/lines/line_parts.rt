// The contacts that each part of an excitation line is to have.
ghost use Rattle.std.specs.Prelude.{◌≡◌, ◌^◌, ◌<◌, ℕ, IfOk, length, slice_index};
ghost use Rattle.layout_rules.specs.Layers.{is_line};
ghost use Rattle.layout_rules.specs.Reports.{Alone, Passes};
ghost use Rattle.layout_rules.specs.ExcitationLines.{Contact};
ghost use Rattle.layout_rules.specs.ExcitationRule.{HasItsContacts, IsMisjoined};
ghost use Rattle.shape_extract.specs.Searches.{SaysWhether, Finds, AreThose};
ghost use Rattle.shape_extract.specs.Code.LineParts.{AreBars, AreNoBars, IsOneBar, AreTwoBars, AreBarEnds};
ghost use Rattle.shape_extract.specs.Filed.{IsFiled};

use crate::filed_shapes::FiledShapes;
use crate::layers::is_line;
use crate::lines::contacts::{is_part, list_filed_contacts};
use crate::search::{Part, Report, first_of};
use aq_base::Memory;
use geom::Shape;
use layout_rules::layers::{BAR, LINK, START};
use std::alloc::Global;

/// Whether each of these shapes is a bar.
fn are_bars(shapes: &[Shape], numbers: &[u32]) -> bool
    requires { (p : ℕ) → p < length numbers.now → slice_index numbers.now p < length shapes.now }
    ensures { SaysWhether result (AreBars shapes.now numbers.now) }
{
    for number in numbers {
        if !is_part(shapes, BAR, *number) {
            return false;
        }
    }
    true
}

/// Whether none of these shapes is a bar.
fn are_no_bars(shapes: &[Shape], numbers: &[u32]) -> bool
    requires { (p : ℕ) → p < length numbers.now → slice_index numbers.now p < length shapes.now }
    ensures { SaysWhether result (AreNoBars shapes.now numbers.now) }
{
    for number in numbers {
        if is_part(shapes, BAR, *number) {
            return false;
        }
    }
    true
}

/// Whether these are the contacts of a start.
fn is_one_bar(shapes: &[Shape], contacts: &[u32]) -> bool
    requires { (p : ℕ) → p < length contacts.now → slice_index contacts.now p < length shapes.now }
    ensures { SaysWhether result (IsOneBar shapes.now contacts.now) }
{
    contacts.len() == 1 && are_bars(shapes, contacts)
}

/// Whether these are the contacts of a link.
fn are_two_bars(shapes: &[Shape], contacts: &[u32]) -> bool
    requires { (p : ℕ) → p < length contacts.now → slice_index contacts.now p < length shapes.now }
    ensures { SaysWhether result (AreTwoBars shapes.now contacts.now) }
{
    contacts.len() == 2 && are_bars(shapes, contacts)
}

/// Whether these are the contacts of a bar.
fn are_bar_ends(shapes: &[Shape], contacts: &[u32]) -> bool
    requires { (p : ℕ) → p < length contacts.now → slice_index contacts.now p < length shapes.now }
    ensures { SaysWhether result (AreBarEnds shapes.now contacts.now) }
{
    1 <= contacts.len() && contacts.len() <= 2 && are_no_bars(shapes, contacts)
}

/// Whether the part of a line has the contacts that it is to have.
fn has_its_contacts(shapes: &[Shape], n: u32, contacts: &[u32]) -> bool
    requires part { Passes is_line shapes.now n }
    requires within { n < length shapes.now }
    requires contacts { AreThose (Contact shapes.now n) contacts.now }
    ensures { SaysWhether result (HasItsContacts shapes.now n) }
{
    let part = &shapes[n as usize];
    if part.datatype == START {
        return is_one_bar(shapes, contacts);
    }
    if part.datatype == LINK {
        return are_two_bars(shapes, contacts);
    }
    if part.datatype == BAR {
        return are_bar_ends(shapes, contacts);
    }
    true
}

/// Whether the shape is a part of a line that has other contacts than it is to have.
fn is_misjoined(
    shapes: &[Shape],
    filed: &FiledShapes,
    n: u32,
    found: &mut Vec<u32>,
) -> Result<bool, Memory>
    requires filed { IsFiled shapes.now filed.now }
    requires few { length shapes.now < 2 ^ 32 }
    requires within { n < length shapes.now }
    ensures { IfOk result (λ yes. SaysWhether yes (IsMisjoined shapes.now n)) }
{
    if !is_line(&shapes[n as usize]) {
        return Ok(false);
    }
    list_filed_contacts(shapes, filed, n, found)?;
    let joined = has_its_contacts(shapes, n, found.as_slice());
    Ok(!joined)
}

/// Parts of lines with other contacts than they are to have.
#[derive(Drop)]
struct MisjoinedParts<'a> {
    shapes: &'a [Shape],
    filed: &'a FiledShapes,
}

impl<'a> Part for MisjoinedParts<'a> {
    ghost valid = { λ s. (length s.shapes.now < 2 ^ 32) × IsFiled s.shapes.now s.filed.now };

    ghost count = { λ s. length s.shapes.now };

    ghost reported = { λ s. Alone (IsMisjoined s.shapes.now) };

    fn count(&self) -> u32 {
        self.shapes.len() as u32
    }

    fn second(&self, a: u32, found: &mut Vec<u32>) -> Result<Option<u32>, Memory> {
        if is_misjoined(self.shapes, self.filed, a, found)? {
            return Ok(Some(a));
        }
        Ok(None)
    }
}

/// The first part of a line with other contacts than it is to have.
pub fn find_misjoined(
    alloc: Global,
    shapes: &[Shape],
    filed: &FiledShapes,
) -> Result<Option<Report>, Memory>
    requires few { length shapes.now < 2 ^ 32 }
    requires filed { IsFiled shapes.now filed.now }
    ensures { IfOk result (Finds (Alone (IsMisjoined shapes.now))) }
{
    first_of(alloc, &MisjoinedParts { shapes, filed })
}
