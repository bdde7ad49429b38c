// Parts of the element that some records say.
ghost use Rattle.std.specs.Prelude.{◌≡◌, IfOk};
ghost use Rattle.gds_records.specs.declared.codes.TheConstants.{LAYER, STRING};
ghost use Rattle.gds_records.specs.Records.{number, trimmed};
ghost use Rattle.gds_records.specs.Drawing.{field, coordinate, place_of};
ghost use Rattle.gds_read.specs.Code.Decoding.{IsSpelled, records_in};
ghost use Rattle.gds_read.specs.Code.Numbering.{IsNumbering};
ghost use Rattle.gds_read.specs.Code.Outlining.{names_in};

use crate::cursor::field;
use crate::fields::{coordinate, number};
use crate::numbers::{Numbers, number_of};
use crate::outline::NamedOutline;
use crate::values::trimmed;
use aq_base::{Bytes, List, Memory, Text};
use gds_records::codes::{LAYER, STRING};
use geom::Label;
use std::alloc::Global;

/// A copy of a part of the bytes.
pub fn copied(alloc: Global, text: &[u8]) -> Result<Bytes, Memory>
    ensures { IfOk result (λ bytes. bytes ≡ text.now) }
{
    let mut bytes = Vec::new(alloc);
    bytes.extend_from_slice(text)?;
    Ok(List::from_vec(bytes))
}

/// The number of the structure that a name names, and where there is none that of structures.
pub fn named(structures: &[NamedOutline<'_>], numbers: &Numbers<'_>, name: &[u8]) -> u32
    requires { IsNumbering numbers.now.entries (names_in structures.now) }
    ensures { result ≡ place_of name.now (names_in structures.now) }
{
    match number_of(numbers, name) {
        Some(number) => number,
        None => structures.len() as u32,
    }
}

/// The label that records with this XY say.
pub fn label(alloc: Global, part: &[u8], xy: &[u8]) -> Result<Label, Memory>
    requires { IsSpelled part.now }
    ensures layer { IfOk result (λ label. label.layer ≡ number (field LAYER (records_in part.now))) }
    ensures x { IfOk result (λ label. label.x ≡ coordinate xy.now 0) }
    ensures y { IfOk result (λ label. label.y ≡ coordinate xy.now 1) }
    ensures text { IfOk result (λ label. label.text ≡ trimmed (field STRING (records_in part.now))) }
{
    let text = Text::from_vec(copied(alloc, trimmed(field(part, STRING)))?.into_vec())?;
    Ok(Label {
        layer: number(field(part, LAYER)),
        x: coordinate(xy, 0),
        y: coordinate(xy, 1),
        text,
    })
}
