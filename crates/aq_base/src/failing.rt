// Calls that are counted, some of which are to fail.
ghost use Rattle.std.specs.Prelude.{◌≡◌, ◌∷◌, ◌++◌, [], take, OnOk, OnErr};
ghost use Rattle.aq_base.specs.Failing.{counted, keep_of};

use std::alloc::{AllocError, Global};

/// A call that is to fail: its number, counted from 0, and how many bytes it keeps.
#[derive(Clone, Copy, PartialEq, Eq)]
pub struct FailingCall {
    pub call: u64,
    pub keep: u64,
}

/// The number of calls so far, and the calls that are to fail.
#[derive(Drop)]
pub struct Calls {
    pub count: u64,
    pub failing: Vec<FailingCall>,
}

impl Calls {
    /// No call so far, and none that is to fail.
    pub fn new(alloc: Global) -> Calls
        ensures count { result.count ≡ 0 }
        ensures failing { result.failing.items ≡ [] }
    {
        Calls {
            count: 0,
            failing: Vec::new(alloc),
        }
    }

    /// Counts a call, and says how many bytes it keeps if it is to fail.
    pub fn next_call(&mut self) -> Option<u64>
        ensures keep { result ≡ keep_of self.old.failing.items self.old.count }
        ensures count { self.new.count ≡ counted self.old.count }
        ensures failing { self.new.failing ≡ self.old.failing }
    {
        let call = self.count;
        self.count = call.saturating_add(1);
        match self.failing.iter().find(|entry| entry.call == call) {
            Some(entry) => Some(entry.keep),
            None => None,
        }
    }

    /// Adds a call that is to fail.
    pub fn fail_at(&mut self, call: u64, keep: u64) -> Result<(), AllocError>
        ensures ok { OnOk result (self.new.failing.items ≡ self.old.failing.items
            ++ record { call = call; keep = keep } ∷ []) }
        ensures err { OnErr result (self.new.failing.items ≡ self.old.failing.items) }
        ensures count { self.new.count ≡ self.old.count }
    {
        self.failing.push(FailingCall { call, keep })?;
        Ok(())
    }
}

/// The first bytes of a piece, or all where it has no more.
pub fn kept(piece: &[u8], keep: u64) -> &[u8]
    ensures { result.now ≡ take keep piece.now }
{
    let count = piece.len().min(usize::try_from(keep).unwrap_or(usize::MAX));
    &piece[..count]
}
