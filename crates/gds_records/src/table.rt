//! The table of records: the data type and the lengths of each record type (GDSII Stream Format manual, record by
//! record).
use crate::codes::{
    ANGLE, AREF, ASCII_STRING, ATTRTABLE, BGNLIB, BGNSTR, BIT_ARRAY, BOUNDARY, COLROW, DATATYPE,
    EIGHT_BYTE_REAL, ELFLAGS, ENDEL, ENDLIB, ENDSTR, FONTS, FOUR_BYTE_INTEGER, GENERATIONS, HEADER,
    LAYER, LIBNAME, MAG, NO_DATA, PATH, PATHTYPE, PLEX, PRESENTATION, PROPATTR, PROPVALUE, REFLIBS,
    SNAME, SREF, STRANS, STRING, STRNAME, TEXT, TEXTTYPE, TWO_BYTE_INTEGER, UNITS, WIDTH, XY,
};
use Lengths::{Even, Exactly, Points};

/// The lengths that a record may have in bytes, its head counted.
#[derive(Clone, Copy)]
pub enum Lengths {
    /// This one.
    Exactly(usize),
    /// Any even one.
    Even,
    /// That of some points: 8 for each, and 4.
    Points,
}

/// A row of the table: a record type, its data type, and its lengths.
#[derive(Clone, Copy)]
pub struct Entry {
    /// The record type, one of `codes`.
    pub kind: u8,
    /// The data type, one of `codes`.
    pub form: u8,
    /// The lengths of such records.
    pub lengths: Lengths,
}

macro_rules! row {
    ($kind:ident, $form:ident, $lengths:expr) => {
        Entry {
            kind: $kind,
            form: $form,
            lengths: $lengths,
        }
    };
}

// The rows of strict streams, behind some others. A reader takes the first row that it finds, so those of boundaries,
// of which a chip has most, come first.
macro_rules! rows {
    ($($more:expr),*) => {
        &[
            $($more,)*
            row!(BOUNDARY, NO_DATA, Exactly(4)),
            row!(LAYER, TWO_BYTE_INTEGER, Exactly(6)),
            row!(DATATYPE, TWO_BYTE_INTEGER, Exactly(6)),
            row!(XY, FOUR_BYTE_INTEGER, Points),
            row!(ENDEL, NO_DATA, Exactly(4)),
            row!(TEXT, NO_DATA, Exactly(4)),
            row!(TEXTTYPE, TWO_BYTE_INTEGER, Exactly(6)),
            row!(STRING, ASCII_STRING, Even),
            row!(SREF, NO_DATA, Exactly(4)),
            row!(SNAME, ASCII_STRING, Even),
            row!(STRANS, BIT_ARRAY, Exactly(6)),
            row!(MAG, EIGHT_BYTE_REAL, Exactly(12)),
            row!(ANGLE, EIGHT_BYTE_REAL, Exactly(12)),
            row!(PATHTYPE, TWO_BYTE_INTEGER, Exactly(6)),
            row!(WIDTH, FOUR_BYTE_INTEGER, Exactly(8)),
            row!(PRESENTATION, BIT_ARRAY, Exactly(6)),
            row!(ELFLAGS, BIT_ARRAY, Exactly(6)),
            row!(PLEX, FOUR_BYTE_INTEGER, Exactly(8)),
            row!(PROPATTR, TWO_BYTE_INTEGER, Exactly(6)),
            row!(PROPVALUE, ASCII_STRING, Even),
            row!(BGNSTR, TWO_BYTE_INTEGER, Exactly(28)),
            row!(STRNAME, ASCII_STRING, Even),
            row!(ENDSTR, NO_DATA, Exactly(4)),
            row!(HEADER, TWO_BYTE_INTEGER, Exactly(6)),
            row!(BGNLIB, TWO_BYTE_INTEGER, Exactly(28)),
            row!(LIBNAME, ASCII_STRING, Even),
            row!(REFLIBS, ASCII_STRING, Even),
            row!(FONTS, ASCII_STRING, Even),
            row!(ATTRTABLE, ASCII_STRING, Even),
            row!(GENERATIONS, TWO_BYTE_INTEGER, Exactly(6)),
            row!(UNITS, EIGHT_BYTE_REAL, Exactly(20)),
            row!(ENDLIB, NO_DATA, Exactly(4)),
        ]
    };
}

/// The record types of strict streams.
pub const TABLE: &[Entry] = rows!();

/// The record types of wide streams: those that only these have, and those of strict ones.
pub const WIDE_TABLE: &[Entry] = rows!(
    row!(PATH, NO_DATA, Exactly(4)),
    row!(AREF, NO_DATA, Exactly(4)),
    row!(COLROW, TWO_BYTE_INTEGER, Exactly(8))
);
