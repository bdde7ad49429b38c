// Records that come in turn: parts of a sequence, and what a record comes to at its front.
ghost use Rattle.std.specs.Prelude.{◌≡◌, ◌∷◌};
ghost use Rattle.gds_read.specs.Code.Sequences.{choices, pick, follow, followed};

use Part::{Flags, May, Must, Over, Turn, Turned};
use gds_records::codes::{ANGLE, ELFLAGS, MAG, PLEX, STRANS};

/// What may come at one place of a sequence.
#[derive(Clone, Copy)]
pub enum Part {
    /// Nothing more.
    Over,
    /// A record of this type.
    Must(u8),
    /// A record of this type, or none.
    May(u8),
    /// ELFLAGS and PLEX, each of which may be missing.
    Flags,
    /// STRANS, and behind it MAG and ANGLE, or none of the three.
    Turn,
    /// MAG and ANGLE, each of which may be missing.
    Turned,
}

/// Parts that come in turn: one that may have begun, and those behind it.
#[derive(Clone, Copy)]
pub struct Sequence {
    pub front: Part,
    pub behind: &'static [Part],
}

/// What a record comes to at the front of a sequence.
#[derive(Clone, Copy)]
pub enum Coming {
    /// It may come, and this is left behind it.
    On(Sequence),
    /// It is in no part, and all of them may be missing.
    Past,
    /// Another record has to come before it.
    Barred,
}

// What is left of a part behind a record of this type, if it may come there.
fn rest_of_part(part: Part, kind: u8) -> Option<Part>
    ensures { result ≡ pick kind (choices part) }
{
    match part {
        Over => None,
        Must(only) | May(only) => if only == kind { Some(Over) } else { None },
        Flags => match kind {
            ELFLAGS => Some(May(PLEX)),
            PLEX => Some(Over),
            _ => None,
        },
        Turn => match kind {
            STRANS => Some(Turned),
            _ => None,
        },
        Turned => match kind {
            MAG => Some(May(ANGLE)),
            ANGLE => Some(Over),
            _ => None,
        },
    }
}

/// What a record of this type comes to.
pub fn follow(sequence: Sequence, kind: u8) -> Coming
    ensures { followed result ≡ follow kind (sequence.front ∷ sequence.behind.now) }
{
    let mut front = sequence.front;
    let mut behind = sequence.behind;
    'parts: loop {
        if let Some(front) = rest_of_part(front, kind) {
            return Coming::On(Sequence { front, behind });
        }
        if let Must(_) = front {
            return Coming::Barred;
        }
        let Some((part, others)) = behind.split_first() else {
            return Coming::Past;
        };
        front = *part;
        behind = others;
    }
}
