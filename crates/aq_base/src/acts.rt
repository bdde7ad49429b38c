// What the calls of std were and gave, in a list that only clauses read.
ghost use Rattle.std.specs.Prelude.{◌≡◌, List, [], ◌∷◌};
ghost use Rattle.std.specs.Borrow.{ftrue};
ghost use Rattle.aq_base.specs.Acts.{Did, noted, call_did};

use crate::store::LoadRefusal;
use std::marker::{Model, PhantomData};

/// A call of std that ends well or is refused, and gives nothing more.
#[derive(Clone, Copy, PartialEq, Eq)]
pub enum Act {
    /// Reading some bytes.
    Read,
    /// Reading where a link leads.
    Link,
    /// Opening a file to be written, and shutting it as it was.
    Try,
    /// Making a draft: a new file under a name that no file has.
    Draft,
    /// Making a file empty, or a new one.
    Make,
    /// Writing some bytes.
    Write,
    /// Flushing what was written.
    Flush,
    /// Giving the draft the mode of the file that it replaces.
    Mode,
    /// Asking what is open, where that is no regular file.
    Special,
    /// Syncing what was written; a file system that knows no sync is taken to keep it.
    Sync,
    /// Renaming the draft onto its target.
    Place,
    /// Syncing the folder of the draft and its target.
    SyncFolder,
    /// Removing the draft.
    Remove,
}

/// One call of std, and how it ended.
#[derive(Clone, Copy, PartialEq, Eq)]
pub enum Note {
    Opened,
    NotOpened(LoadRefusal),
    Gave,
    AtEnd,
    Linked,
    Drafted,
    Made,
    Took,
    Done(Act),
    Refused(Act),
}

/// The calls of std, the newest first. It takes no memory: only clauses read it.
#[derive(Drop)]
pub struct Acts {
    marker: PhantomData<u8>,
    pub ghost done: { List Did },
}

impl Model for Acts {
    ghost also_owns = { λ _. ftrue };
}

impl Acts {
    /// Nothing was called.
    pub fn new() -> Acts
        ensures { result.done ≡ [] }
    {
        Acts {
            marker: PhantomData,
        }
    }

    /// Notes one call, with its name and its bytes, or its other name.
    pub fn note(&mut self, _note: &[Note], _name: &[u8], _bytes: &[u8])
        ensures { self.new.done ≡ noted _note.now _name.now _bytes.now self.old.done }
    {}

    /// Notes a call that ended well or was refused.
    pub fn ended(&mut self, act: Act, is_done: bool)
        ensures { self.new.done ≡ call_did act is_done ∷ self.old.done }
    {
        if is_done {
            self.note(&[Note::Done(act)], &[], &[]);
        } else {
            self.note(&[Note::Refused(act)], &[], &[]);
        }
    }
}
