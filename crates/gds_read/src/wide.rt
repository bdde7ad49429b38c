// Bytes read as a wide stream.
ghost use Rattle.std.specs.Prelude.{◌≡◌, ◌<◌, ◌≤◌, ◌^◌, length, None, IfOk, IfErr};
ghost use Rattle.geom.specs.FlatForm.{shape_limit};
ghost use Rattle.poly_cut.specs.Counts.{wide_count};
ghost use Rattle.gds_records.specs.Stream.{wide_layout_of};
ghost use Rattle.gds_records.specs.WideWhole.{wide_whole_fault};
ghost use Rattle.gds_read.specs.Code.Bodies.{IsWholeRefusal, IsOversize};
ghost use Rattle.gds_read.specs.Code.Decoding.{IsSpelled, records_in};
ghost use Rattle.gds_read.specs.Code.Outlining.{AreOutlined};
ghost use Rattle.gds_read.specs.WideReading.{IsWideReadAs, IsWideRefusedFor};

use crate::ending::end_of_records;
use crate::names::used_names;
use crate::naming::hash_of_names;
use crate::numbers::numbers;
use crate::outline::outlines_in;
use crate::refusal::StreamRefusal;
use crate::wide_conditions::wide_top_or_fault;
use crate::wide_structures::wide_structures;
use name_hash::NameHash;
use poly_cut::{WideLayout, count_flat};
use std::alloc::Global;

/// How many shapes and labels a flat form may have.
const SHAPE_LIMIT: u64 = 8_000_000;

// The layout of the records of a wide stream, if they meet the conditions on the whole.
fn layout_of(alloc: Global, hash: NameHash, bytes: &[u8]) -> Result<WideLayout, StreamRefusal>
    requires spelled { IsSpelled bytes.now }
    requires few { length bytes.now < 2 ^ 32 }
    ensures layout { IfOk result (λ layout. layout ≡ wide_layout_of (records_in bytes.now)) }
    ensures none { IfOk result (λ layout. wide_whole_fault (records_in bytes.now) ≡ None) }
    ensures outlined { IfOk result (λ layout. AreOutlined (records_in bytes.now)) }
    ensures err { IfErr result (λ refusal. IsWholeRefusal (records_in bytes.now) refusal) }
{
    let outlines = outlines_in(alloc, bytes)?;
    let numbers = numbers(alloc, hash, outlines.as_slice())?;
    let used = used_names(alloc, hash, outlines.as_slice())?;
    let top = wide_top_or_fault(alloc, bytes, outlines.as_slice(), &numbers, &used)?;
    drop(used);
    let structures = wide_structures(alloc, outlines.as_slice(), &numbers, bytes)?;
    Ok(WideLayout {
        structures,
        top: top as u32,
    })
}

// The layout, if its flat form is of a size that is taken.
fn within_size(alloc: Global, layout: WideLayout) -> Result<WideLayout, StreamRefusal>
    ensures same { IfOk result (λ taken. taken ≡ layout) }
    ensures within { IfOk result (λ taken. wide_count layout ≤ shape_limit) }
    ensures err { IfErr result (λ refusal. IsOversize layout refusal) }
{
    let count = count_flat(alloc, &layout)?;
    if count > SHAPE_LIMIT {
        return Err(StreamRefusal::TooManyShapes { count });
    }
    Ok(layout)
}

/// The layout whose wide stream the bytes are, or why they are not read: figures with right angles, and references that
/// are turned, repeated and nested down to 64. Bytes that are a wide stream have one layout, and all others a first
/// fault; want of memory apart, a wide stream is read exactly where its flat form is of a size that is taken.
/// Coordinates are in nanometres; the offset of a fault counts bytes from 0. The number of shapes and labels that are
/// too many is exact, and `u64::MAX` stands for all above it. The bytes are fewer than 2^32.
pub fn read_wide(alloc: Global, bytes: &[u8]) -> Result<WideLayout, StreamRefusal>
    requires { length bytes.now < 2 ^ 32 }
    ensures ok { IfOk result (λ layout. IsWideReadAs bytes.now layout) }
    ensures err { IfErr result (λ refusal. IsWideRefusedFor bytes.now refusal) }
{
    let hash = hash_of_names(bytes);
    let end = end_of_records(alloc, hash, bytes)?;
    let (records, _) = bytes.split_at(end);
    let layout = layout_of(alloc, hash, records)?;
    within_size(alloc, layout)
}
