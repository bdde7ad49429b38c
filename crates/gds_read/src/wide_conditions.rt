// The conditions on the whole of a wide stream.
ghost use Rattle.std.specs.Prelude.{◌≡◌, ◌<◌, length, map, None, IfOk, IfErr};
ghost use Rattle.gds_records.specs.Whole.{all_uses, outlines, top_of};
ghost use Rattle.gds_records.specs.WideWhole.{wide_whole_fault, first_long};
ghost use Rattle.gds_read.specs.Code.Bodies.{IsWholeRefusal};
ghost use Rattle.gds_read.specs.Code.Decoding.{IsSpelled, records_in};
ghost use Rattle.gds_read.specs.Code.Outlining.{outline_of, names_in};
ghost use Rattle.gds_read.specs.Code.Numbering.{IsNumbering, AreUsed};
ghost use Rattle.gds_read.specs.Code.Texts.{texts};

use crate::chains::{first_long, long_chains};
use crate::conditions::{first_unknown, one_top};
use crate::graph::graph;
use crate::names::Names;
use crate::numbers::Numbers;
use crate::outline::NamedOutline;
use crate::refusal::StreamRefusal;
use aq_base::Memory;
use gds_records::StreamKind;
use std::alloc::Global;

// The place of the first structure from which a chain of more than 64 references goes down, as from one in a loop.
fn too_deep(
    alloc: Global,
    structures: &[NamedOutline<'_>],
    numbers: &Numbers<'_>,
) -> Result<Option<usize>, Memory>
    requires { IsNumbering numbers.now.entries (names_in structures.now) }
    ensures { IfOk result (λ place. place
        ≡ first_long (map outline_of structures.now) (map outline_of structures.now)) }
{
    let graph = graph(alloc, structures, numbers)?;
    let long = long_chains(alloc, graph.as_slice())?;
    Ok(first_long(structures, numbers, long.as_slice()))
}

/// The number of the top, or what is wrong with the whole stream.
pub fn wide_top_or_fault(
    alloc: Global,
    bytes: &[u8],
    structures: &[NamedOutline<'_>],
    numbers: &Numbers<'_>,
    used: &Names<'_>,
) -> Result<usize, StreamRefusal>
    requires spelled { IsSpelled bytes.now }
    requires outlines { map outline_of structures.now ≡ outlines 0 (records_in bytes.now) }
    requires numbers { IsNumbering numbers.now.entries (names_in structures.now) }
    requires used { AreUsed (texts used.now.keys) (all_uses (map outline_of structures.now)) }
    ensures none { IfOk result (λ top. wide_whole_fault (records_in bytes.now) ≡ None) }
    ensures top { IfOk result (λ top. top ≡ top_of (records_in bytes.now)) }
    ensures within { IfOk result (λ top. top < length structures.now) }
    ensures err { IfErr result (λ refusal. IsWholeRefusal (records_in bytes.now) refusal) }
{
    if let Some(place) = first_unknown(structures, numbers) {
        return Err(StreamRefusal::bad(place, StreamKind::UnknownName));
    }
    if let Some(place) = too_deep(alloc, structures, numbers)? {
        return Err(StreamRefusal::bad(place, StreamKind::Unsupported));
    }
    match one_top(bytes, structures, used) {
        Ok(top) => Ok(top),
        Err(fault) => Err(StreamRefusal::bad(fault.offset, fault.kind)),
    }
}
