// The sink over std: what it is given passes on to a writer of std as it is.
ghost use Rattle.std.specs.Prelude.{◌≡◌, []};
ghost use Rattle.aq_base.specs.FaultCounts.{Remembers};
ghost use Rattle.aq_base.specs.Puts.{Puts};
ghost use Rattle.aq_base.specs.Pipes.{calls_of, writer_of};
ghost use Rattle.aq_base.specs.Writers.{TakenPart, WritesPart};

use crate::disk::Piece;
use crate::history::History;
use crate::pipe::{Pipe, Writer};
use crate::store::{Sink, StoreRefusal};

/// A sink over a writer, as standard output. It takes no memory, so that it is never refused any. What its history says
/// is what the calls of std were.
#[derive(Drop)]
pub struct StdSink<W> {
    pipe: Pipe<W>,
    history: History,
    ghost remembers: { Remembers history.events },
    ghost honest: { ∥ Puts pipe.acts.done history.events ∥₁ },
}

impl<W: Writer> StdSink<W> {
    ghost use Rattle.aq_base.specs.StandardStore.{sink_history};

    /// A sink that has met no fault, over a stream on which no call was made.
    #[tactic(auto, using(crate::proofs::Putting::putting))]
    pub fn new(pipe: Pipe<W>) -> StdSink<W>
        requires { calls_of pipe ≡ [] }
        ensures { sink_history result ≡ [] }
    {
        StdSink {
            pipe,
            history: History::new(),
        }
    }
}

// Writes the whole piece, or some of its first bytes, and says how many. A write that takes nothing of what is left is
// the last.
#[tactic(auto, using(crate::proofs::Passing::writes, crate::proofs::Acting::writing))]
fn write_all<W: Writer>(pipe: &mut Pipe<W>, piece: &[u8]) -> usize
    ensures calls { WritesPart (calls_of pipe.old) (calls_of pipe.new) piece.now result }
    ensures passes { TakenPart (W.contents (writer_of pipe.old)) (W.contents (writer_of pipe.new)) piece.now result }
{
    let mut done: usize = 0;
    for _ in 0..u64::MAX {
        if done >= piece.len() {
            return done;
        }
        match pipe.write(&piece[done..]) {
            Piece::Bytes(count) => done += count,
            Piece::Again => {}
            Piece::End => return done,
            Piece::Failed => return done,
        }
    }
    done
}

impl<W: Writer> Sink for StdSink<W> {
    ghost use Rattle.std.specs.Prelude.{◌≡◌, OnOk, OnErr, IfErr, IsErrOf};
    ghost use Rattle.std.specs.Io.KnownBytes.{Appends};
    ghost use Rattle.aq_base.specs.Output.{PrintsPart, printed};
    ghost use Rattle.aq_base.specs.StandardStore.{output_of, written_of, sink_writer, PutsPart};

    ghost output = { output_of };

    // What is said to be written is what the writer took.
    #[tactic(auto, using(crate::proofs::Passing::puts, crate::proofs::Putting::putting))]
    fn put(&mut self, piece: &[u8]) -> Result<(), StoreRefusal>
        ensures added { OnOk result (output_of self.new ≡ printed piece.now (output_of self.old)) }
        ensures part { IfErr result (PrintsPart (output_of self.old) (output_of self.new) piece.now) }
        ensures passes { OnOk result
            (Appends (W.contents (sink_writer self.old)) (W.contents (sink_writer self.new)) piece.now) }
        ensures passes_part { OnErr result
            (PutsPart (written_of self.old) (written_of self.new) (W.contents (sink_writer self.old))
            (W.contents (sink_writer self.new)) piece.now) }
        ensures remembers { ¬ IsErrOf result StoreRefusal.Memory }
    {
        let count = write_all(&mut self.pipe, piece);
        self.history.appended(&piece[..count]);
        let flushed = self.pipe.flush();
        if flushed && count == piece.len() {
            return Ok(());
        }
        self.history.not_appended(StoreRefusal::Failed);
        Err(StoreRefusal::Failed)
    }
}

#[cfg(test)]
mod tests {
    use super::*;
    use std::io;

    #[test]
    fn puts_all_or_fails(rt: HostRuntime) {
        let mut sink = StdSink::new(Pipe::new(io::sink()));
        assert!(rt; sink.put(b"text").is_ok());
    }
}
