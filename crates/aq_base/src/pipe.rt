// A stream that is written, one call of std at a time, each noted. No other file of this crate writes to one.
ghost use Rattle.std.specs.Prelude.{◌≡◌, ◌∷◌, [], length};
ghost use Rattle.std.specs.Io.KnownBytes.{Appends, Keeps};
ghost use Rattle.aq_base.specs.Acts.{call_did};
ghost use Rattle.aq_base.specs.Disks.{Fits, write_did};

use crate::acts::{Act, Acts, Note};
use crate::disk::Piece;
use std::io::ErrorKind;
pub use std::io::Write as Writer;

/// A stream, as standard output, and all calls of std that were made on it.
#[derive(Drop)]
pub struct Pipe<W> {
    writer: W,
    acts: Acts,
}

impl<W: Writer> Pipe<W> {
    ghost use Rattle.aq_base.specs.Pipes.{calls_of, writer_of, taken_of};

    /// A stream on which no call was made.
    pub fn new(writer: W) -> Pipe<W>
        ensures { calls_of result ≡ [] }
    {
        Pipe {
            writer,
            acts: Acts::new(),
        }
    }

    // Writes once.
    pub(crate) fn write(&mut self, piece: &[u8]) -> Piece
        ensures fits { Fits result (length piece.now) }
        ensures noted { calls_of self.new ≡ write_did result piece.now (calls_of self.old) }
        ensures passes { Appends (W.contents (writer_of self.old)) (W.contents (writer_of self.new))
            (taken_of result piece.now) }
    {
        match self.writer.write(piece) {
            Ok(0) => {
                self.acts.ended(Act::Write, false);
                Piece::End
            }
            Ok(count) => {
                self.acts.note(&[Note::Took], &[], &piece[..count]);
                Piece::Bytes(count)
            }
            Err(error) => {
                if error.kind() == ErrorKind::Interrupted {
                    return Piece::Again;
                }
                self.acts.ended(Act::Write, false);
                Piece::Failed
            }
        }
    }

    // Flushes what was written.
    pub(crate) fn flush(&mut self) -> bool
        ensures noted { calls_of self.new ≡ call_did Act.Flush result ∷ calls_of self.old }
        ensures keeps { Keeps (W.contents (writer_of self.old)) (W.contents (writer_of self.new)) }
    {
        let is_done = self.writer.flush().is_ok();
        self.acts.ended(Act::Flush, is_done);
        is_done
    }
}
