// Structures in outline: their names, and the names that they refer to.
ghost use Rattle.std.specs.Prelude.{◌≡◌, ◌+◌, ◌<◌, ◌≤◌, ◌^◌, ◌++◌, map, length, IfOk, OnOk};
ghost use Rattle.gds_records.specs.Faults.{here_record, kind_of};
ghost use Rattle.gds_records.specs.Records.{trimmed};
ghost use Rattle.gds_records.specs.Drawing.{name_of};
ghost use Rattle.gds_records.specs.Whole.{Use, uses_from, outlines};
ghost use Rattle.gds_read.specs.Code.Decoding.{IsSpelled, records_in};
ghost use Rattle.gds_read.specs.Code.Outlining.{use_of, outline_of, uses_at};

use crate::cursor::{behind, data_at, field, kind_at, length_at};
use crate::values::trimmed;
use aq_base::{List, Memory};
use gds_records::codes::{BGNSTR, ENDSTR, SNAME, STRNAME};
use std::alloc::Global;

/// A reference: the place of its SNAME record, and the name that it refers to.
#[derive(Clone, Copy)]
pub struct NamedUse<'a> {
    pub place: usize,
    pub name: &'a [u8],
}

/// A structure: the place of its BGNSTR record, its name, and its references in order.
#[derive(Drop)]
pub struct NamedOutline<'a> {
    pub place: usize,
    pub name: &'a [u8],
    pub uses: List<NamedUse<'a>>,
}

// Adds the reference that the record at the front is, if it is one.
fn add_use<'a>(uses: &mut List<NamedUse<'a>>, bytes: &'a [u8], place: usize) -> Result<(), Memory>
    requires spelled { IsSpelled bytes.now }
    requires some { 0 < length bytes.now }
    ensures { OnOk result (map use_of uses.new ≡ map use_of uses.old ++ uses_at place (here_record bytes.now)) }
{
    if kind_at(bytes) != SNAME {
        return Ok(());
    }
    let name = trimmed(data_at(bytes));
    uses.push(NamedUse { place, name })
}

// The references up to ENDSTR, in records that begin at a place.
fn uses_in<'a>(alloc: Global, bytes: &'a [u8], place: usize) -> Result<List<NamedUse<'a>>, Memory>
    requires spelled { IsSpelled bytes.now }
    requires fits { place + length bytes.now < 2 ^ 64 }
    ensures { IfOk result (λ uses. map use_of uses ≡ uses_from place (records_in bytes.now)) }
{
    let mut uses = List::new(alloc);
    let mut at = place;
    let mut rest = bytes;
    'records: while !rest.is_empty() {
        if kind_at(rest) == ENDSTR {
            return Ok(uses);
        }
        add_use(&mut uses, rest, at)?;
        at += length_at(rest);
        rest = behind(rest);
    }
    Ok(uses)
}

// The structure whose BGNSTR record stands at a place, and whose other records begin at the next.
fn outline_at<'a>(
    alloc: Global,
    bytes: &'a [u8],
    place: usize,
    next: usize,
) -> Result<NamedOutline<'a>, Memory>
    requires spelled { IsSpelled bytes.now }
    requires fits { next + length bytes.now < 2 ^ 64 }
    ensures place { IfOk result (λ s. s.place ≡ place) }
    ensures name { IfOk result (λ s. s.name.now ≡ name_of (records_in bytes.now)) }
    ensures uses { IfOk result (λ s. map use_of s.uses ≡ uses_from next (records_in bytes.now)) }
{
    let name = trimmed(field(bytes, STRNAME));
    let uses = uses_in(alloc, bytes, next)?;
    Ok(NamedOutline { place, name, uses })
}

/// The structures of records in outline. They are no more than the bytes.
pub fn outlines_in(alloc: Global, bytes: &[u8]) -> Result<List<NamedOutline<'_>>, Memory>
    requires { IsSpelled bytes.now }
    ensures same { IfOk result (λ found. map outline_of found ≡ outlines 0 (records_in bytes.now)) }
    ensures few { IfOk result (λ found. length found ≤ length bytes.now) }
{
    let mut found = List::new(alloc);
    let mut at: usize = 0;
    let mut rest = bytes;
    'records: while !rest.is_empty() {
        let place = at;
        let kind = kind_at(rest);
        at += length_at(rest);
        rest = behind(rest);
        if kind == BGNSTR {
            let outline = outline_at(alloc, rest, place, at)?;
            found.push(outline)?;
        }
    }
    Ok(found)
}
