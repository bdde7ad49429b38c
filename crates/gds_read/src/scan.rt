// The records of a stream, one after another, up to ENDLIB or to the first fault.
ghost use Rattle.std.specs.Prelude.{◌≡◌, ◌≤◌, ◌+◌, ◌∷◌, [], length, take, drop, Some, true, IfOk};
ghost use Rattle.gds_records.specs.Profiled.{here_record, length_of};
ghost use Rattle.gds_records.specs.Profiles.{wide};
ghost use Rattle.gds_records.specs.Records.{record_with};
ghost use Rattle.gds_records.specs.WideValues.{wide_opener, last_colrow};
ghost use Rattle.gds_records.specs.Steps.{value_here, all_steps};
ghost use Rattle.gds_read.specs.declared.scan.Step.TheVariants.{On, Fault};
ghost use Rattle.gds_read.specs.Code.Fronts.{IsWhole};
ghost use Rattle.gds_read.specs.Code.Places.{rest_of, is_clear_place};
ghost use Rattle.gds_read.specs.Code.Steps.{kept, IsStep, told_as, offset_of};
ghost use Rattle.gds_read.specs.Code.Texts.{texts};

use crate::front::{fault_at_front, record_length};
use crate::names::{Names, add, is_taken};
use crate::place::{Place, START, next};
use crate::values::trimmed;
use crate::wide_values::wide_fault;
use aq_base::Memory;
use gds_records::StreamKind;
use gds_records::codes::{AREF, BOUNDARY, COLROW, ENDLIB, PATH, SREF, STRNAME, TEXT};
use std::alloc::Global;

/// Where the records end, or the first fault at one of them.
#[derive(Clone, Copy, PartialEq, Eq)]
pub enum Outcome {
    Stopped { offset: usize, kind: StreamKind },
    Ended { offset: usize },
}

/// The place after a record, or what is wrong with the record.
#[derive(Clone, Copy)]
enum Step {
    On(Place),
    Fault(StreamKind),
}

/// The data of the record at the front.
pub fn content(bytes: &[u8]) -> &[u8]
    requires least { 4 ≤ length_of bytes.now }
    requires enough { length_of bytes.now ≤ length bytes.now }
    ensures { result.now ≡ drop 4 (take (length_of bytes.now) bytes.now) }
{
    let (record, _) = bytes.split_at(record_length(bytes));
    let (_, content) = record.split_at(4);
    content
}

// The record that opened the element, behind one of this type: BOUNDARY, PATH, SREF, AREF or TEXT, whichever came last.
fn opener_after(element: u8, kind: u8) -> u8
    ensures { result ≡ wide_opener element (record_with kind 0 [] ∷ []) }
{
    match kind {
        BOUNDARY | PATH | SREF | AREF | TEXT => kind,
        _ => element,
    }
}

/// The content of the last COLROW, behind the record at the front.
fn colrow_after<'a>(colrow: &'a [u8], bytes: &'a [u8]) -> &'a [u8]
    requires least { 4 ≤ length_of bytes.now }
    requires enough { length_of bytes.now ≤ length bytes.now }
    ensures { result.now ≡ last_colrow colrow.now (here_record bytes.now ∷ []) }
{
    if bytes[2] == COLROW {
        content(bytes)
    } else {
        colrow
    }
}

// What is wrong with the value of the record at the front.
fn value_here(
    alloc: Global,
    element: u8,
    colrow: &[u8],
    names: &Names<'_>,
    bytes: &[u8],
) -> Result<Option<StreamKind>, Memory>
    requires { IsWhole bytes.now }
    ensures { IfOk result
        (λ fault. fault ≡ value_here wide (kept element colrow.now (texts names.now.keys)) bytes.now) }
{
    let data = content(bytes);
    let taken = bytes[2] == STRNAME && is_taken(names, trimmed(data));
    wide_fault(alloc, element, colrow, taken, bytes[2], data)
}

// The place after the record at the front, or what is wrong with it.
fn next_step(
    alloc: Global,
    place: Place,
    element: u8,
    colrow: &[u8],
    names: &Names<'_>,
    bytes: &[u8],
) -> Result<Step, Memory>
    requires { is_clear_place place ≡ true }
    ensures { IfOk result (λ step. IsStep (rest_of place)
        (kept element colrow.now (texts names.now.keys)) bytes.now step) }
{
    if let Some(kind) = fault_at_front(bytes) {
        return Ok(Step::Fault(kind));
    }
    let Some(after) = next(place, bytes[2]) else {
        return Ok(Step::Fault(StreamKind::Order));
    };
    match value_here(alloc, element, colrow, names, bytes)? {
        Some(kind) => Ok(Step::Fault(kind)),
        None => Ok(Step::On(after)),
    }
}

/// Reads the records of a stream up to ENDLIB, or up to the first fault at one. Behind an end, the names are those of
/// the structures.
pub fn scan<'a>(alloc: Global, bytes: &'a [u8], names: &mut Names<'a>) -> Result<Outcome, Memory>
    requires { texts names.old.keys ≡ [] }
    ensures told { IfOk result (λ outcome. all_steps wide bytes.now ≡ told_as bytes.now outcome) }
    ensures within { IfOk result (λ outcome. offset_of outcome ≤ length bytes.now) }
{
    let mut at: usize = 0;
    let mut place = START;
    let mut element: u8 = 0;
    let mut colrow: &[u8] = &[];
    'records: loop {
        let (_, rest) = bytes.split_at(at);
        let next = match next_step(alloc, place, element, colrow, names, rest)? {
            Step::On(next) => next,
            Step::Fault(kind) => return Ok(Outcome::Stopped { offset: at, kind }),
        };
        let kind = rest[2];
        at += record_length(rest);
        if kind == ENDLIB {
            return Ok(Outcome::Ended { offset: at });
        }
        if kind == STRNAME {
            add(names, trimmed(content(rest)))?;
        }
        element = opener_after(element, kind);
        colrow = colrow_after(colrow, rest);
        place = next;
    }
}
