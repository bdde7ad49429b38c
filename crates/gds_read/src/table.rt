// The rows of the table of records.
ghost use Rattle.std.specs.Prelude.{◌≡◌};
ghost use Rattle.gds_records.specs.Table.{wide_table, entry_of, is_among};

use gds_records::table::{Entry, Lengths, WIDE_TABLE};

// The first row of a record type, if there is one.
fn entry_in(entries: &[Entry], kind: u8) -> Option<Entry>
    ensures { result ≡ entry_of kind entries.now }
{
    for entry in entries {
        if entry.kind == kind {
            return Some(*entry);
        }
    }
    None
}

/// The row of a record type, if it is one that is read.
pub fn entry_of(kind: u8) -> Option<Entry>
    ensures { result ≡ entry_of kind wide_table }
{
    entry_in(WIDE_TABLE, kind)
}

/// Whether a record may have this length in bytes, its head counted.
pub fn is_among(lengths: Lengths, length: usize) -> bool
    ensures { result ≡ is_among lengths length }
{
    match lengths {
        Lengths::Exactly(exact) => length == exact,
        Lengths::Even => length % 2 == 0,
        Lengths::Points => length >= 12 && length % 8 == 4,
    }
}
