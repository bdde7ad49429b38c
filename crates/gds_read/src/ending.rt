// Where the records of a stream end.
ghost use Rattle.std.specs.Prelude.{◌≡◌, ◌<◌, length, true, false, IfOk, IfErr, IfNone, IfSome};
ghost use Rattle.gds_records.specs.Profiled.{are_zero, zeros_before};
ghost use Rattle.gds_read.specs.Code.Bodies.{IsBody, IsFirstRefusal};

use crate::refusal::StreamRefusal;
use crate::scan::{Outcome, scan};
use gds_records::{StreamKind, found_is_fault, steps_tell_scan, whole_is_read};
use indexmap::IndexSet;
use name_hash::NameHash;
use std::alloc::Global;

// The place of the first byte that is not zero.
fn first_other(bytes: &[u8]) -> Option<usize>
    ensures none { IfNone result (are_zero bytes.now ≡ true) }
    ensures some { IfSome result (λ place. are_zero bytes.now ≡ false) }
    ensures place { IfSome result (λ place. place ≡ zeros_before bytes.now) }
    ensures within { IfSome result (λ place. place < length bytes.now) }
{
    for (place, b) in bytes.iter().enumerate() {
        if *b != 0 {
            return Some(place);
        }
    }
    None
}

/// The place behind ENDLIB, where all records up to it are without fault and only zero bytes follow.
pub fn end_of_records(alloc: Global, hash: NameHash, bytes: &[u8]) -> Result<usize, StreamRefusal>
    ensures ok { IfOk result (λ end. IsBody bytes.now end) }
    ensures err { IfErr result (λ refusal. IsFirstRefusal bytes.now refusal) }
{
    found_is_fault();
    steps_tell_scan();
    whole_is_read();
    let mut names = IndexSet::with_hasher(alloc, hash);
    match scan(alloc, bytes, &mut names)? {
        Outcome::Stopped { offset, kind } => Err(StreamRefusal::bad(offset, kind)),
        Outcome::Ended { offset } => {
            let (_, rest) = bytes.split_at(offset);
            match first_other(rest) {
                Some(place) => Err(StreamRefusal::bad(offset + place, StreamKind::Value)),
                None => Ok(offset),
            }
        }
    }
}
