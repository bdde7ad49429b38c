// The record at the front of bytes.
ghost use Rattle.std.specs.Prelude.{◌≡◌, ◌≤◌, length, Some, None, IfNone};
ghost use Rattle.gds_records.specs.Profiled.{own_fault_in, length_of};
ghost use Rattle.gds_records.specs.Profiles.{wide};
ghost use Rattle.gds_read.specs.Code.Fronts.{IsWhole, code_fault};

use crate::table::{entry_of, is_among};
use gds_records::StreamKind;

/// The length that the head says.
pub fn record_length(bytes: &[u8]) -> usize
    requires { 4 ≤ length bytes.now }
    ensures { result ≡ length_of bytes.now }
{
    usize::from(bytes[0]) * 256 + usize::from(bytes[1])
}

/// What is wrong with the record's type, data type or length.
fn code_fault(kind: u8, form: u8, length: usize) -> Option<StreamKind>
    ensures { result ≡ code_fault kind form length }
{
    let Some(entry) = entry_of(kind) else {
        return Some(StreamKind::Unsupported);
    };
    if entry.form != form {
        Some(StreamKind::DataType)
    } else if !is_among(entry.lengths, length) {
        Some(StreamKind::Length)
    } else {
        None
    }
}

/// What is wrong with the record that stands here, whatever came before it.
pub fn fault_at_front(bytes: &[u8]) -> Option<StreamKind>
    ensures fault { result ≡ own_fault_in wide bytes.now }
    ensures whole { IfNone result (IsWhole bytes.now) }
{
    if bytes.len() < 4 {
        return Some(StreamKind::Truncated);
    }
    let length = record_length(bytes);
    if length < 4 || length % 2 != 0 {
        return Some(StreamKind::Length);
    }
    if bytes.len() < length {
        return Some(StreamKind::Truncated);
    }
    code_fault(bytes[2], bytes[3], length)
}
