// The conditions on the whole stream.
ghost use Rattle.std.specs.Prelude.{◌≡◌, ◌<◌, length, map, Some, None, IfOk, IfErr};
ghost use Rattle.gds_records.specs.Whole.{all_uses, tops, top_in, top_fault, last_place};
ghost use Rattle.gds_read.specs.Code.Decoding.{IsSpelled, records_in};
ghost use Rattle.gds_read.specs.Code.Outlining.{use_of, outline_of};
ghost use Rattle.gds_read.specs.Code.Numbering.{number_in, AreUsed, unnumbered};
ghost use Rattle.gds_read.specs.Code.Texts.{texts};
ghost use Rattle.gds_read.specs.Code.Tops.{told_tops};

use crate::cursor::end_at;
use crate::names::{Names, is_taken};
use crate::numbers::{Numbers, number_of};
use crate::outline::{NamedOutline, NamedUse};
use gds_records::StreamKind;

/// The structures that none refers to.
#[derive(Clone, Copy)]
pub enum Tops {
    Nothing,
    /// One, by its number.
    One(usize),
    /// The place of the second of them.
    Several(usize),
}

/// What is wrong with the whole stream, and where.
#[derive(Clone, Copy, Debug)]
pub struct Fault {
    pub offset: usize,
    pub kind: StreamKind,
}

// The place of the first of these references that names no structure.
fn unknown_in(uses: &[NamedUse<'_>], numbers: &Numbers<'_>) -> Option<usize>
    ensures { result ≡ unnumbered (number_in numbers.now.entries) (map use_of uses.now) }
{
    for item in uses {
        if number_of(numbers, item.name).is_none() {
            return Some(item.place);
        }
    }
    None
}

/// The place of the first reference that names no structure.
pub fn first_unknown(structures: &[NamedOutline<'_>], numbers: &Numbers<'_>) -> Option<usize>
    ensures { result ≡ unnumbered (number_in numbers.now.entries) (all_uses (map outline_of structures.now)) }
{
    for outline in structures {
        if let Some(place) = unknown_in(outline.uses.as_slice(), numbers) {
            return Some(place);
        }
    }
    None
}

fn find_tops(structures: &[NamedOutline<'_>], used: &Names<'_>) -> Tops
    requires { AreUsed (texts used.now.keys) (all_uses (map outline_of structures.now)) }
    ensures { result ≡ told_tops (tops 0 (all_uses (map outline_of structures.now)) (map outline_of structures.now)) }
{
    let mut first: Option<usize> = None;
    for (number, outline) in structures.iter().enumerate() {
        if is_taken(used, outline.name) {
            continue;
        }
        if first.is_some() {
            return Tops::Several(outline.place);
        }
        first = Some(number);
    }
    match first {
        Some(top) => Tops::One(top),
        None => Tops::Nothing,
    }
}

/// The number of the top, which no structure refers to, where there is one alone.
pub fn one_top(
    bytes: &[u8],
    structures: &[NamedOutline<'_>],
    used: &Names<'_>,
) -> Result<usize, Fault>
    requires spelled { IsSpelled bytes.now }
    requires used { AreUsed (texts used.now.keys) (all_uses (map outline_of structures.now)) }
    ensures none { IfOk result (λ top. top_fault (last_place 0 (records_in bytes.now))
        (tops 0 (all_uses (map outline_of structures.now)) (map outline_of structures.now)) ≡ None) }
    ensures top { IfOk result (λ top. top
        ≡ top_in (tops 0 (all_uses (map outline_of structures.now)) (map outline_of structures.now))) }
    ensures within { IfOk result (λ top. top < length structures.now) }
    ensures fault { IfErr result (λ fault. top_fault (last_place 0 (records_in bytes.now))
        (tops 0 (all_uses (map outline_of structures.now)) (map outline_of structures.now))
        ≡ Some (fault.offset, fault.kind)) }
{
    match find_tops(structures, used) {
        Tops::One(top) => Ok(top),
        Tops::Several(offset) => {
            let kind = StreamKind::SeveralTops;
            Err(Fault { offset, kind })
        }
        Tops::Nothing => {
            let offset = end_at(bytes);
            let kind = StreamKind::NoTop;
            Err(Fault { offset, kind })
        }
    }
}
