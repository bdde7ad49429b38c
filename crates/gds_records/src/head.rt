// The four bytes before a record's data.
ghost use Rattle.std.specs.Prelude.{◌≤◌, length};
ghost use Rattle.gds_records.specs.Heads.{IsHeadAt};

/// The head of a record, or that there is none.
#[derive(Clone, Copy, PartialEq, Eq)]
pub enum Head {
    /// Fewer than four bytes are left.
    Short,
    /// The record's length, which counts the head, and the bytes for its record type and its data type.
    Full { length: u16, kind: u8, form: u8 },
}

/// The head of the record at a place of the bytes.
pub fn record_head(bytes: &[u8], at: usize) -> Head
    requires { at ≤ length bytes.now }
    ensures { IsHeadAt bytes.now at result }
{
    if bytes.len() - at < 4 {
        return Head::Short;
    }
    Head::Full {
        length: u16::from_be_bytes([bytes[at], bytes[at + 1]]),
        kind: bytes[at + 2],
        form: bytes[at + 3],
    }
}
