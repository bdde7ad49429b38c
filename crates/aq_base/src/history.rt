// The history of a store or a sink: its calls and what they gave, in a list that only clauses read.
ghost use Rattle.std.specs.Prelude.{◌≡◌, List, [], ◌∷◌};
ghost use Rattle.std.specs.Borrow.{ftrue};
ghost use Rattle.aq_base.specs.History.{Event, noted, took, load_event, create_event, close_event};
ghost use Rattle.aq_base.specs.History.{NotAppended, Discarded, Given};

use crate::store::{LoadRefusal, StoreRefusal};
use std::marker::{Model, PhantomData};

/// A call that was answered.
#[derive(Clone, Copy, PartialEq, Eq)]
pub enum Call {
    Loaded,
    NotLoaded(LoadRefusal),
    Created,
    NotCreated(StoreRefusal),
    Appended,
    NotAppended(StoreRefusal),
    Closed,
    NotClosed(StoreRefusal),
    Discarded,
    Given,
}

/// The calls of a store with their answers, the newest first. It takes no memory: only clauses read it.
#[derive(Drop)]
pub struct History {
    marker: PhantomData<u8>,
    pub ghost events: { List Event },
}

impl Model for History {
    ghost also_owns = { λ _. ftrue };
}

impl History {
    /// No call so far.
    pub fn new() -> History
        ensures { result.events ≡ [] }
    {
        History {
            marker: PhantomData,
        }
    }

    // Notes one call, with its name and its bytes.
    fn note(&mut self, _call: &[Call], _name: &[u8], _bytes: &[u8])
        ensures { self.new.events ≡ noted _call.now _name.now _bytes.now self.old.events }
    {}

    /// Notes a load: what its file gave, or why it was refused.
    pub fn loaded(&mut self, name: &str, bytes: &[u8], answer: Result<(), LoadRefusal>)
        ensures { self.new.events ≡ load_event name.now bytes.now answer ∷ self.old.events }
    {
        match answer {
            Ok(()) => self.note(&[Call::Loaded], name.as_bytes(), bytes),
            Err(why) => self.note(&[Call::NotLoaded(why)], name.as_bytes(), &[]),
        }
    }

    /// Notes a `create`.
    pub fn created(&mut self, name: &str, answer: Result<(), StoreRefusal>)
        ensures { self.new.events ≡ create_event name.now answer ∷ self.old.events }
    {
        match answer {
            Ok(()) => self.note(&[Call::Created], name.as_bytes(), &[]),
            Err(why) => self.note(&[Call::NotCreated(why)], name.as_bytes(), &[]),
        }
    }

    /// Notes bytes that were taken.
    pub fn appended(&mut self, piece: &[u8])
        ensures { self.new.events ≡ took piece.now self.old.events }
    {
        self.note(&[Call::Appended], &[], piece);
    }

    /// Notes that no more bytes were taken.
    pub fn not_appended(&mut self, why: StoreRefusal)
        ensures { self.new.events ≡ NotAppended why ∷ self.old.events }
    {
        self.note(&[Call::NotAppended(why)], &[], &[]);
    }

    /// Notes a `close`.
    pub fn closed(&mut self, answer: Result<(), StoreRefusal>)
        ensures { self.new.events ≡ close_event answer ∷ self.old.events }
    {
        match answer {
            Ok(()) => self.note(&[Call::Closed], &[], &[]),
            Err(why) => self.note(&[Call::NotClosed(why)], &[], &[]),
        }
    }

    /// Notes a `discard`.
    pub fn discarded(&mut self)
        ensures { self.new.events ≡ Discarded ∷ self.old.events }
    {
        self.note(&[Call::Discarded], &[], &[]);
    }

    /// Notes that a name was given bytes by no call.
    pub fn given(&mut self, name: &str, bytes: &[u8])
        ensures { self.new.events ≡ Given name.now bytes.now ∷ self.old.events }
    {
        self.note(&[Call::Given], name.as_bytes(), bytes);
    }
}
