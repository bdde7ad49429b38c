// Records that are known to be whole, one after another.
ghost use Rattle.std.specs.Prelude.{◌≡◌, ◌+◌, ◌<◌, ◌≤◌, length, drop};
ghost use Rattle.gds_records.specs.Faults.{here_record, kind_of, length_of};
ghost use Rattle.gds_records.specs.Drawing.{field, has};
ghost use Rattle.gds_records.specs.Whole.{last_place};
ghost use Rattle.gds_read.specs.Code.Decoding.{IsSpelled, Goes, records_in};

use crate::front::record_length;
use gds_records::codes::ENDLIB;

/// The record type at the front.
pub fn kind_at(bytes: &[u8]) -> u8
    requires spelled { IsSpelled bytes.now }
    requires some { 0 < length bytes.now }
    ensures { result ≡ kind_of bytes.now }
{
    bytes[2]
}

/// The length of the record at the front.
pub fn length_at(bytes: &[u8]) -> usize
    requires spelled { IsSpelled bytes.now }
    requires some { 0 < length bytes.now }
    ensures value { result ≡ 4 + length (here_record bytes.now).content }
    ensures within { result ≤ length bytes.now }
    ensures head { result ≡ length_of bytes.now }
{
    record_length(bytes)
}

/// What stands behind the record at the front.
pub fn behind(bytes: &[u8]) -> &[u8]
    requires spelled { IsSpelled bytes.now }
    requires some { 0 < length bytes.now }
    ensures { Goes bytes.now result.now }
{
    let (_, rest) = bytes.split_at(record_length(bytes));
    rest
}

/// What stands behind the record at the front, if there is one.
pub fn behind_first(bytes: &[u8]) -> &[u8]
    requires { IsSpelled bytes.now }
    ensures spelled { IsSpelled result.now }
    ensures records { records_in result.now ≡ drop 1 (records_in bytes.now) }
{
    if bytes.is_empty() {
        bytes
    } else {
        behind(bytes)
    }
}

/// The data of the record at the front.
pub fn data_at(bytes: &[u8]) -> &[u8]
    requires spelled { IsSpelled bytes.now }
    requires some { 0 < length bytes.now }
    ensures { result.now ≡ (here_record bytes.now).content }
{
    let (record, _) = bytes.split_at(record_length(bytes));
    let (_, data) = record.split_at(4);
    data
}

/// The data of the first record of a type, or none.
pub fn field(bytes: &[u8], kind: u8) -> &[u8]
    requires { IsSpelled bytes.now }
    ensures { result.now ≡ field kind (records_in bytes.now) }
{
    let mut rest = bytes;
    'records: while !rest.is_empty() {
        if kind_at(rest) == kind {
            return data_at(rest);
        }
        rest = behind(rest);
    }
    &[]
}

/// Whether there is a record of a type.
pub fn has(bytes: &[u8], kind: u8) -> bool
    requires { IsSpelled bytes.now }
    ensures { result ≡ has kind (records_in bytes.now) }
{
    let mut rest = bytes;
    'records: while !rest.is_empty() {
        if kind_at(rest) == kind {
            return true;
        }
        rest = behind(rest);
    }
    false
}

/// The place of ENDLIB.
pub fn end_at(bytes: &[u8]) -> usize
    requires { IsSpelled bytes.now }
    ensures { result ≡ last_place 0 (records_in bytes.now) }
{
    let mut at = 0;
    let mut rest = bytes;
    'records: while !rest.is_empty() {
        if kind_at(rest) == ENDLIB {
            return at;
        }
        at += length_at(rest);
        rest = behind(rest);
    }
    at
}
