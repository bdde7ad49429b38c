// The files of the system, one call of std at a time, each noted. Calls that only ask what stands at a path are not
// noted, nor is the opening of a folder, nor a read or a write that was interrupted before it began. No other file of
// this crate names the files of std.
ghost use Rattle.std.specs.Prelude.{◌≡◌, ◌∷◌, [], length, is_some, is_ok, string_bytes};
ghost use Rattle.aq_base.specs.Acts.{drafting};

use crate::acts::{Act, Acts, Note};
use crate::store::{LoadRefusal, StoreRefusal};
use std::alloc::Global;
use std::fs::{Metadata, OpenFile, OpenOptions, Permissions};
use std::io::{Error, ErrorKind, Read, Result as Answer, Write};
use std::os::unix::fs::{MetadataExt, OpenOptionsExt, PermissionsExt};
pub use std::rt::Files as RuntimeFiles;
use std::{fs, result};

// The bits of a mode that a file hands on to the one that replaces it.
const PERMISSIONS: u32 = 0o777;

/// How a file was opened.
#[derive(Clone, Copy, PartialEq, Eq)]
pub enum Opening {
    Opened,
    Absent,
    Failed,
}

/// What one read gave, or one write took.
#[derive(Clone, Copy, PartialEq, Eq)]
pub enum Piece {
    Bytes(usize),
    End,
    Again,
    Failed,
}

/// What is known of what stands at a path.
#[derive(Clone, Copy)]
pub(crate) struct About {
    pub(crate) is_file: bool,
    pub(crate) is_link: bool,
    pub(crate) device: u64,
    pub(crate) number: u64,
    pub(crate) mode: u32,
}

// A new file that is to be renamed onto its target, with the mode that it is to have, if any.
#[derive(Drop)]
struct Draft {
    path: String,
    target: String,
    mode: Option<u32>,
}

/// The files of the system, and all calls of std that were made on them. A draft that stands when it is dropped is
/// removed.
pub struct Disk<R: RuntimeFiles> {
    runtime: R,
    alloc: Global,
    reading: Option<R::File>,
    writing: Option<R::File>,
    draft: Option<Draft>,
    // The folder of the draft, if it can be opened.
    folder: Option<R::File>,
    acts: Acts,
    ghost tied: { is_some draft ≡ drafting acts.done },
}

impl<R: RuntimeFiles + Drop> Drop for Disk<R> {
    fn drop(self) {
        if let Some(draft) = &self.draft {
            let _ = self.runtime.remove_file(draft.path.as_str());
        }
        let Disk {
            runtime: _,
            alloc: _,
            reading: _,
            writing: _,
            draft: _,
            folder: _,
            acts: _,
        } = self;
    }
}

// What is known of what stands at a path, or none where nothing does.
fn known(answer: Answer<Metadata>) -> result::Result<Option<About>, StoreRefusal> {
    match answer {
        Ok(about) => Ok(Some(About {
            is_file: about.is_file(),
            is_link: about.is_symlink(),
            device: about.dev(),
            number: about.ino(),
            mode: about.mode() & PERMISSIONS,
        })),
        Err(error) => {
            if error.kind() == ErrorKind::NotFound {
                return Ok(None);
            }
            Err(refusal_of(&error))
        }
    }
}

// Why a call was refused.
fn refusal_of(error: &Error) -> StoreRefusal {
    match error.kind() {
        ErrorKind::OutOfMemory => StoreRefusal::Memory,
        _ => StoreRefusal::Failed,
    }
}

// Whether what a file holds is on its way to stay. A file system that knows no sync is taken to keep it.
fn is_kept<F: OpenFile>(file: &F) -> bool {
    match file.sync_all() {
        Ok(()) => true,
        Err(error) => {
            error.kind() == ErrorKind::InvalidInput || error.kind() == ErrorKind::Unsupported
        }
    }
}

// Whether a file is no regular one: a pipe, a terminal or a device keeps nothing. A file that can't be asked what it is
// counts as a regular one.
fn keeps_nothing<F: OpenFile>(file: &F) -> bool {
    match file.metadata() {
        Ok(about) => !about.is_file(),
        Err(_) => false,
    }
}

// Gives a file a mode.
fn gets_mode<F: OpenFile>(file: &F, mode: Option<u32>) -> bool {
    match mode {
        Some(mode) => file.set_permissions(Permissions::from_mode(mode)).is_ok(),
        None => true,
    }
}

// How a draft is opened: as a new file, which whoever may not read the old one may not read either.
fn how_to_draft(mode: Option<u32>) -> OpenOptions {
    let mut how = OpenOptions::new();
    how.write(true).create_new(true);
    if let Some(mode) = mode {
        how.mode(mode);
    }
    how
}

impl<R: RuntimeFiles> Disk<R> {
    ghost use Rattle.aq_base.specs.Disks.{acts_of, Fits, read_did, write_did, open_did, link_did, draft_did};
    ghost use Rattle.aq_base.specs.Disks.{make_did, special_did};
    ghost use Rattle.aq_base.specs.Acts.{call_did};

    /// The files that this runtime opens; no call was made.
    pub fn new(alloc: Global, runtime: R) -> Disk<R>
        ensures { acts_of result ≡ [] }
    {
        Disk {
            runtime,
            alloc,
            reading: None,
            writing: None,
            draft: None,
            folder: None,
            acts: Acts::new(),
        }
    }

    // ---- what is asked

    // What a name leads to.
    pub(crate) fn about(&self, name: &str) -> result::Result<Option<About>, StoreRefusal> {
        known(self.runtime.metadata(name))
    }

    // What stands at a path, be it a link.
    pub(crate) fn about_link(&self, path: &str) -> result::Result<Option<About>, StoreRefusal> {
        known(self.runtime.symlink_metadata(path))
    }

    // Whether a draft stands.
    pub(crate) fn has_draft(&self) -> bool
        ensures { result ≡ drafting (acts_of self.now) }
    {
        self.draft.is_some()
    }

    // Whether the folder of the draft could be opened.
    pub(crate) fn has_folder(&self) -> bool {
        self.folder.is_some()
    }

    // Whether the draft has the mode that it is to have.
    pub(crate) fn has_mode(&self) -> bool {
        match (self.draft_mode(), &self.writing) {
            (Some(mode), Some(file)) => match file.metadata() {
                Ok(about) => about.mode() & PERMISSIONS == mode,
                Err(_) => false,
            },
            _ => true,
        }
    }

    // The mode that the draft is to have, if any.
    fn draft_mode(&self) -> Option<u32> {
        match &self.draft {
            Some(draft) => draft.mode,
            None => None,
        }
    }

    // ---- a file that is read

    // Opens a file to read.
    pub(crate) fn open(&mut self, name: &str) -> Opening
        ensures { acts_of self.new ≡ open_did name.now result ∷ acts_of self.old }
    {
        match fs::open(&self.runtime, name) {
            Ok(file) => {
                self.reading = Some(file);
                self.acts.note(&[Note::Opened], name.as_bytes(), &[]);
                Opening::Opened
            }
            Err(error) => {
                if error.kind() == ErrorKind::NotFound {
                    let note = Note::NotOpened(LoadRefusal::Absent);
                    self.acts.note(&[note], name.as_bytes(), &[]);
                    return Opening::Absent;
                }
                let note = Note::NotOpened(LoadRefusal::Failed);
                self.acts.note(&[note], name.as_bytes(), &[]);
                Opening::Failed
            }
        }
    }

    // Reads once from the file that was opened last.
    #[tactic(auto, using(crate::proofs::Acting::standing))]
    pub(crate) fn read(&mut self, piece: &mut [u8]) -> Piece
        ensures fits { Fits result (length piece.new) }
        ensures noted { acts_of self.new ≡ read_did result piece.new (acts_of self.old) }
    {
        let answer = match &mut self.reading {
            Some(file) => file.read(piece),
            None => return self.unread(),
        };
        match answer {
            Ok(0) => {
                self.reading = None;
                self.acts.note(&[Note::AtEnd], &[], &[]);
                Piece::End
            }
            Ok(count) => {
                self.acts.note(&[Note::Gave], &[], &piece[..count]);
                Piece::Bytes(count)
            }
            Err(error) => {
                if error.kind() == ErrorKind::Interrupted {
                    return Piece::Again;
                }
                self.unread()
            }
        }
    }

    // Notes that a read was refused, as one is where nothing is open.
    fn unread(&mut self) -> Piece
        ensures answer { result ≡ Piece.Failed }
        ensures noted { acts_of self.new ≡ read_did result [] (acts_of self.old) }
    {
        self.acts.note(&[Note::Refused(Act::Read)], &[], &[]);
        Piece::Failed
    }

    // ---- a file that is made

    // Where the link at a path leads.
    pub(crate) fn read_link(&mut self, path: &str) -> result::Result<String, StoreRefusal>
        ensures { acts_of self.new ≡ link_did path.now result ∷ acts_of self.old }
    {
        match self.runtime.read_link(self.alloc, path) {
            Ok(target) => {
                let target = target.into_string();
                self.acts
                    .note(&[Note::Linked], path.as_bytes(), target.as_bytes());
                Ok(target)
            }
            Err(error) => {
                self.acts.note(&[Note::Refused(Act::Link)], &[], &[]);
                Err(refusal_of(&error))
            }
        }
    }

    // Opens a file to write, and shuts it as it was: what may not be written may not be replaced.
    pub(crate) fn try_to_write(&mut self, path: &str) -> result::Result<(), StoreRefusal>
        ensures { acts_of self.new ≡ call_did Act.Try (is_ok result) ∷ acts_of self.old }
    {
        match OpenOptions::new().write(true).open(&self.runtime, path) {
            Ok(_) => {
                self.acts.note(&[Note::Done(Act::Try)], &[], &[]);
                Ok(())
            }
            Err(error) => {
                self.acts.note(&[Note::Refused(Act::Try)], &[], &[]);
                Err(refusal_of(&error))
            }
        }
    }

    // Opens the folder of a draft, if it can be opened, to sync it later.
    pub(crate) fn open_folder(&mut self, path: &str)
        ensures { acts_of self.new ≡ acts_of self.old }
    {
        self.folder = fs::open(&self.runtime, path).ok();
    }

    // Makes a draft at a path, to be written; or says that a file stands there.
    pub(crate) fn draft(
        &mut self,
        path: String,
        target: String,
        mode: Option<u32>,
    ) -> result::Result<bool, StoreRefusal>
        ensures { acts_of self.new
            ≡ draft_did (string_bytes path) (string_bytes target) result ∷ acts_of self.old }
    {
        match how_to_draft(mode).open(&self.runtime, path.as_str()) {
            Ok(file) => {
                self.writing = Some(file);
                self.acts
                    .note(&[Note::Drafted], path.as_bytes(), target.as_bytes());
                self.draft = Some(Draft { path, target, mode });
                Ok(true)
            }
            Err(error) => {
                self.acts.note(&[Note::Refused(Act::Draft)], &[], &[]);
                if error.kind() == ErrorKind::AlreadyExists {
                    return Ok(false);
                }
                Err(refusal_of(&error))
            }
        }
    }

    // Makes a file empty, or a new one, to be written.
    pub(crate) fn make(&mut self, name: &str) -> result::Result<(), StoreRefusal>
        ensures { acts_of self.new ≡ make_did name.now result ∷ acts_of self.old }
    {
        match fs::create(&self.runtime, name) {
            Ok(file) => {
                self.writing = Some(file);
                self.acts.note(&[Note::Made], name.as_bytes(), &[]);
                Ok(())
            }
            Err(error) => {
                self.acts.note(&[Note::Refused(Act::Make)], &[], &[]);
                Err(refusal_of(&error))
            }
        }
    }

    // Writes once to the file that was made last.
    #[tactic(auto, using(crate::proofs::Acting::standing))]
    pub(crate) fn write(&mut self, piece: &[u8]) -> Piece
        ensures fits { Fits result (length piece.now) }
        ensures noted { acts_of self.new ≡ write_did result piece.now (acts_of self.old) }
    {
        let answer = match &mut self.writing {
            Some(file) => file.write(piece),
            None => return self.untaken(),
        };
        match answer {
            Ok(0) => self.untaken(),
            Ok(count) => {
                self.acts.note(&[Note::Took], &[], &piece[..count]);
                Piece::Bytes(count)
            }
            Err(error) => {
                if error.kind() == ErrorKind::Interrupted {
                    return Piece::Again;
                }
                self.untaken()
            }
        }
    }

    // Notes that a write was refused, as one is that takes nothing, or where nothing is open.
    fn untaken(&mut self) -> Piece
        ensures answer { result ≡ Piece.Failed }
        ensures noted { acts_of self.new ≡ write_did result [] (acts_of self.old) }
    {
        self.acts.note(&[Note::Refused(Act::Write)], &[], &[]);
        Piece::Failed
    }

    // ---- a file that is closed or given up. Where nothing is open, a call is noted as refused.

    // Flushes what was written.
    #[tactic(auto, using(crate::proofs::Acting::standing))]
    pub(crate) fn flush(&mut self) -> bool
        ensures { acts_of self.new ≡ call_did Act.Flush result ∷ acts_of self.old }
    {
        let is_done = match &mut self.writing {
            Some(file) => file.flush().is_ok(),
            None => false,
        };
        self.acts.ended(Act::Flush, is_done);
        is_done
    }

    // Gives the draft the mode that it is to have.
    #[tactic(auto, using(crate::proofs::Acting::standing))]
    pub(crate) fn set_mode(&mut self) -> bool
        ensures { acts_of self.new ≡ call_did Act.Mode result ∷ acts_of self.old }
    {
        let is_done = match &self.writing {
            Some(file) => gets_mode(file, self.draft_mode()),
            None => false,
        };
        self.acts.ended(Act::Mode, is_done);
        is_done
    }

    // Whether what is written is no regular file.
    pub(crate) fn is_special(&mut self) -> bool
        ensures { acts_of self.new ≡ special_did result (acts_of self.old) }
    {
        let special = match &self.writing {
            Some(file) => keeps_nothing(file),
            None => false,
        };
        if !special {
            return false;
        }
        self.acts.note(&[Note::Done(Act::Special)], &[], &[]);
        true
    }

    // Syncs what was written.
    #[tactic(auto, using(crate::proofs::Acting::standing))]
    pub(crate) fn sync(&mut self) -> bool
        ensures { acts_of self.new ≡ call_did Act.Sync result ∷ acts_of self.old }
    {
        let is_done = match &self.writing {
            Some(file) => is_kept(file),
            None => false,
        };
        self.acts.ended(Act::Sync, is_done);
        is_done
    }

    // Renames the draft onto its target.
    pub(crate) fn place(&mut self) -> bool
        ensures { acts_of self.new ≡ call_did Act.Place result ∷ acts_of self.old }
    {
        let is_done = match &self.draft {
            Some(draft) => self
                .runtime
                .rename(draft.path.as_str(), draft.target.as_str())
                .is_ok(),
            None => false,
        };
        if !is_done {
            self.acts.note(&[Note::Refused(Act::Place)], &[], &[]);
            return false;
        }
        self.draft = None;
        self.acts.note(&[Note::Done(Act::Place)], &[], &[]);
        true
    }

    // Syncs the folder of the draft.
    #[tactic(auto, using(crate::proofs::Acting::standing))]
    pub(crate) fn sync_folder(&mut self) -> bool
        ensures { acts_of self.new ≡ call_did Act.SyncFolder result ∷ acts_of self.old }
    {
        let is_done = match &self.folder {
            Some(folder) => is_kept(folder),
            None => false,
        };
        self.acts.ended(Act::SyncFolder, is_done);
        is_done
    }

    // Removes the draft.
    pub(crate) fn remove(&mut self) -> bool
        ensures { acts_of self.new ≡ call_did Act.Remove result ∷ acts_of self.old }
    {
        let is_done = match &self.draft {
            Some(draft) => self.runtime.remove_file(draft.path.as_str()).is_ok(),
            None => false,
        };
        self.draft = None;
        if !is_done {
            self.acts.note(&[Note::Refused(Act::Remove)], &[], &[]);
            return false;
        }
        self.acts.note(&[Note::Done(Act::Remove)], &[], &[]);
        true
    }

    // Lets go of the file that was written, and of its folder.
    pub(crate) fn release(&mut self)
        ensures { acts_of self.new ≡ acts_of self.old }
    {
        self.writing = None;
        self.folder = None;
    }
}
