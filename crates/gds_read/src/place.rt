// The places of a reader of streams: what it has read, as far as this says what may follow.
ghost use Rattle.std.specs.Prelude.{◌≡◌, true, MatchOption};
ghost use Rattle.gds_records.specs.Language.{Nothing};
ghost use Rattle.gds_records.specs.Derivative.{after};
ghost use Rattle.gds_read.specs.declared.place.Level.TheVariants.{Structure};
ghost use Rattle.gds_read.specs.Code.Places.{at_level, rest_of, is_clear_place, IsAt};

use crate::sequence::Part::{Flags, May, Must, Over, Turn};
use crate::sequence::{Coming, Sequence, follow};
use gds_records::codes::{
    AREF, ATTRTABLE, BGNLIB, BGNSTR, BOUNDARY, COLROW, DATATYPE, ENDEL, ENDLIB, ENDSTR, FONTS,
    GENERATIONS, HEADER, LAYER, LIBNAME, PATH, PATHTYPE, PRESENTATION, PROPATTR, PROPVALUE,
    REFLIBS, SNAME, SREF, STRING, STRNAME, TEXT, TEXTTYPE, UNITS, WIDTH, XY,
};

/// What a reader stands in, and may go on with where nothing is left of a sequence.
#[derive(Clone, Copy)]
pub enum Level {
    /// A library: structures, or its end.
    Library,
    /// A structure: elements, or its end.
    Structure,
    /// An element: properties, or its end.
    Element,
    /// A property: its value.
    Property,
    /// Nothing: the stream has ended.
    Done,
}

/// Where a reader stands: what is left of a sequence, and what it is a part of.
#[derive(Clone, Copy)]
pub struct Place {
    pub level: Level,
    pub left: Sequence,
}

macro_rules! place {
    ($level:ident, $front:expr, $behind:expr) => {
        Place {
            level: Level::$level,
            left: Sequence {
                front: $front,
                behind: $behind,
            },
        }
    };
}

/// Before the first record.
pub const START: Place = place!(
    Library,
    Must(HEADER),
    &[
        Must(BGNLIB),
        Must(LIBNAME),
        May(REFLIBS),
        May(FONTS),
        May(ATTRTABLE),
        May(GENERATIONS),
        Must(UNITS),
    ]
);

const STRUCTURES: Place = place!(Library, Over, &[]);

const BEHIND_BGNSTR: Place = place!(Structure, Must(STRNAME), &[]);

const ELEMENTS: Place = place!(Structure, Over, &[]);

const PROPERTIES: Place = place!(Element, Over, &[]);

const BEHIND_PROPATTR: Place = place!(Property, Over, &[]);

const DONE: Place = place!(Done, Over, &[]);

const BEHIND_BOUNDARY: Place = place!(Element, Flags, &[Must(LAYER), Must(DATATYPE), Must(XY)]);

const BEHIND_PATH: Place = place!(
    Element,
    Flags,
    &[
        Must(LAYER),
        Must(DATATYPE),
        May(PATHTYPE),
        Must(WIDTH),
        Must(XY),
    ]
);

const BEHIND_SREF: Place = place!(Element, Flags, &[Must(SNAME), Turn, Must(XY)]);

const BEHIND_AREF: Place = place!(Element, Flags, &[Must(SNAME), Turn, Must(COLROW), Must(XY)]);

const BEHIND_TEXT: Place = place!(
    Element,
    Flags,
    &[
        Must(LAYER),
        Must(TEXTTYPE),
        May(PRESENTATION),
        May(PATHTYPE),
        May(WIDTH),
        Turn,
        Must(XY),
        Must(STRING),
    ]
);

// The place after a record of this type between elements.
fn next_element(kind: u8) -> Option<Place>
    ensures { MatchOption result (after kind (at_level Structure) ≡ Nothing) (IsAt (after kind (at_level Structure))) }
{
    match kind {
        BOUNDARY => Some(BEHIND_BOUNDARY),
        PATH => Some(BEHIND_PATH),
        SREF => Some(BEHIND_SREF),
        AREF => Some(BEHIND_AREF),
        TEXT => Some(BEHIND_TEXT),
        ENDSTR => Some(STRUCTURES),
        _ => None,
    }
}

// The place after a record of this type where nothing is left of a sequence.
fn next_at(level: Level, kind: u8) -> Option<Place>
    ensures { MatchOption result (after kind (at_level level) ≡ Nothing) (IsAt (after kind (at_level level))) }
{
    match (level, kind) {
        (Level::Library, BGNSTR) => Some(BEHIND_BGNSTR),
        (Level::Library, ENDLIB) => Some(DONE),
        (Level::Structure, _) => next_element(kind),
        (Level::Element, PROPATTR) => Some(BEHIND_PROPATTR),
        (Level::Element, ENDEL) => Some(ELEMENTS),
        (Level::Property, PROPVALUE) => Some(PROPERTIES),
        _ => None,
    }
}

/// The place after a record of this type, if it may stand here.
pub fn next(place: Place, kind: u8) -> Option<Place>
    requires { is_clear_place place ≡ true }
    ensures { MatchOption result (after kind (rest_of place) ≡ Nothing) (IsAt (after kind (rest_of place))) }
{
    match follow(place.left, kind) {
        Coming::On(left) => Some(Place {
            level: place.level,
            left,
        }),
        Coming::Past => next_at(place.level, kind),
        Coming::Barred => None,
    }
}
