// The structures of a wide stream, item by item.
ghost use Rattle.std.specs.Prelude.{◌≡◌, map, IfOk};
ghost use Rattle.gds_records.specs.Drawing.{element_parts, starts};
ghost use Rattle.gds_records.specs.WideDrawing.{item_of, wide_structure_of};
ghost use Rattle.gds_read.specs.Code.Decoding.{IsSpelled, records_in};
ghost use Rattle.gds_read.specs.Code.Numbering.{IsNumbering};
ghost use Rattle.gds_read.specs.Code.Outlining.{names_in};

use crate::cursor::{behind, behind_first, field, kind_at, length_at};
use crate::element::copied;
use crate::item::item;
use crate::numbers::Numbers;
use crate::outline::NamedOutline;
use crate::values::trimmed;
use aq_base::{List, Memory};
use gds_records::codes::{BGNSTR, ENDEL, ENDSTR, STRNAME};
use poly_cut::{Item, WideStructure};
use std::alloc::Global;

// The items of the structure whose BGNSTR record these follow.
fn items(
    alloc: Global,
    structures: &[NamedOutline<'_>],
    numbers: &Numbers<'_>,
    bytes: &[u8],
) -> Result<List<Item>, Memory>
    requires spelled { IsSpelled bytes.now }
    requires numbers { IsNumbering numbers.now.entries (names_in structures.now) }
    ensures { IfOk result (λ items. items
        ≡ map (item_of (names_in structures.now)) (element_parts (records_in bytes.now))) }
{
    let mut items = List::new(alloc);
    let mut part = behind_first(bytes);
    let mut size: usize = 0;
    'records: loop {
        let (_, rest) = part.split_at(size);
        if rest.is_empty() {
            return Ok(items);
        }
        let kind = kind_at(rest);
        if kind == ENDSTR {
            return Ok(items);
        }
        size += length_at(rest);
        if kind == ENDEL {
            let (whole, more) = part.split_at(size);
            items.push(item(alloc, structures, numbers, whole)?)?;
            part = more;
            size = 0;
        }
    }
}

// The structure whose BGNSTR record these follow.
fn wide_structure(
    alloc: Global,
    structures: &[NamedOutline<'_>],
    numbers: &Numbers<'_>,
    bytes: &[u8],
) -> Result<WideStructure, Memory>
    requires spelled { IsSpelled bytes.now }
    requires numbers { IsNumbering numbers.now.entries (names_in structures.now) }
    ensures { IfOk result (λ s. s ≡ wide_structure_of (names_in structures.now) (records_in bytes.now)) }
{
    let name = copied(alloc, trimmed(field(bytes, STRNAME)))?;
    let items = items(alloc, structures, numbers, bytes)?;
    Ok(WideStructure { name, items })
}

/// The structures that records of a wide stream say.
pub fn wide_structures(
    alloc: Global,
    outlines: &[NamedOutline<'_>],
    numbers: &Numbers<'_>,
    bytes: &[u8],
) -> Result<List<WideStructure>, Memory>
    requires spelled { IsSpelled bytes.now }
    requires numbers { IsNumbering numbers.now.entries (names_in outlines.now) }
    ensures { IfOk result (λ found. found
        ≡ map (wide_structure_of (names_in outlines.now)) (starts (records_in bytes.now))) }
{
    let mut found = List::new(alloc);
    let mut rest = bytes;
    'records: while !rest.is_empty() {
        let kind = kind_at(rest);
        rest = behind(rest);
        if kind == BGNSTR {
            found.push(wide_structure(alloc, outlines, numbers, rest)?)?;
        }
    }
    Ok(found)
}
