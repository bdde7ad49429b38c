// A page of text that waits to be put, so that a line of many signals is put by few calls. It stands on the stack: the
// line that tells a fault takes no memory.
ghost use Rattle.std.specs.Prelude.{◌≡◌, ◌∷◌, ◌++◌, ◌<◌, ◌≤◌, ℕ, List, [], length, take, OnOk, IfErr, MatchBool};
ghost use Rattle.aq_base.specs.Output.{printed, PrintsPart};
ghost use Rattle.aqfp_top.specs.Code.Pages.{Pends};

use aq_base::{Sink, StoreRefusal};
use std::marker::Model;

/// How many bytes a page takes.
const PAGE: usize = 4_096;

/// Bytes that wait to be put.
#[derive(Drop)]
pub struct Page {
    bytes: [u8; PAGE],
    used: usize,
}

impl Model for Page {
    ghost use Rattle.std.specs.Prelude.{ℕ, ◌≤◌, List, take};

    ghost Value = { List ℕ };

    ghost view = { λ s. take s.used s.bytes };

    ghost invariant = { λ s. s.used ≤ 4096 };
}

impl Page {
    /// A page without bytes.
    pub fn new() -> Self
        ensures { result ≡ [] }
    {
        Page {
            bytes: [0; PAGE],
            used: 0,
        }
    }

    fn is_full(&self) -> bool
        ensures { MatchBool result (length self.now ≡ 4096) (length self.now < 4096) }
    {
        self.used == PAGE
    }

    fn push(&mut self, byte: u8)
        requires { length self.old < 4096 }
        ensures { self.new ≡ self.old ++ byte ∷ [] }
    {
        self.bytes[self.used] = byte;
        self.used += 1;
    }

    fn clear(&mut self)
        ensures { self.new ≡ [] }
    {
        self.used = 0;
    }

    fn as_slice(&self) -> &[u8]
        ensures { result.now ≡ self.now }
    {
        &self.bytes[..self.used]
    }
}

/// Puts what stands on the page, and clears it.
pub fn put_page<S: Sink>(sink: &mut S, page: &mut Page) -> Result<(), StoreRefusal>
    ensures added { OnOk result (S.output sink.new ≡ printed page.old (S.output sink.old)) }
    ensures empty { OnOk result (page.new ≡ []) }
    ensures part { IfErr result (PrintsPart (S.output sink.old) (S.output sink.new) page.old) }
{
    sink.put(page.as_slice())?;
    page.clear();
    Ok(())
}

/// Adds a byte to the page, which is put before if it is full.
#[tactic(auto, using(crate::proofs::Pending::pending))]
pub fn add_byte<S: Sink>(sink: &mut S, page: &mut Page, byte: u8) -> Result<(), StoreRefusal>
    ensures pends { OnOk result (Pends (S.output sink.old) (S.output sink.new) page.new (page.old ++ byte ∷ [])) }
    ensures part { IfErr result (PrintsPart (S.output sink.old) (S.output sink.new) (page.old ++ byte ∷ [])) }
{
    if page.is_full() {
        put_page(sink, page)?;
    }
    page.push(byte);
    Ok(())
}

/// Adds a text to the page, which is put each time that it is full.
#[tactic(auto, using(crate::proofs::Pending::pending))]
pub fn add_text<S: Sink>(sink: &mut S, page: &mut Page, text: &[u8]) -> Result<(), StoreRefusal>
    ensures pends { OnOk result (Pends (S.output sink.old) (S.output sink.new) page.new (page.old ++ text.now)) }
    ensures part { IfErr result (PrintsPart (S.output sink.old) (S.output sink.new) (page.old ++ text.now)) }
{
    for byte in text {
        add_byte(sink, page, *byte)?;
    }
    Ok(())
}
