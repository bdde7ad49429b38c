// The counts of a chip, and their line.
ghost use Rattle.std.specs.Prelude.{◌<◌, ◌^◌};
ghost use Rattle.rowed.specs.Counts.{cells_in, wires_in};
ghost use Rattle.text_answers.specs.Counts.{counts_text};
ghost use Rattle.aqfp_top.specs.Code.Designing.{AreCountsOf};
ghost use Rattle.aqfp_top.specs.Code.Printing.{PrintsText};
ghost use Rattle.aqfp_top.specs.Code.Writing.{AreCircuitCounts};

use crate::fault::Fault;
use crate::out::out_end;
use crate::pieces::{Piece, put_pieces};
use aq_base::Sink;
use rowed::Placed;
use shape_extract::Extracted;

/// How many rows, cells and wires a chip has.
#[derive(Clone, Copy, PartialEq, Eq)]
pub struct ChipCounts {
    pub rows: u64,
    pub cells: u64,
    pub wires: u64,
}

/// The counts of a placed net.
#[tactic(auto, using(crate::proofs::Designing::some_row))]
pub fn counts_of(placed: &Placed) -> ChipCounts
    requires cells { cells_in placed.now.net.rows < 2 ^ 63 }
    requires wires { wires_in placed.now.net.rows < 2 ^ 63 }
    ensures { AreCountsOf placed.now result }
{
    placed.known();
    ChipCounts {
        rows: placed.row_count() as u64,
        cells: placed.cell_count(),
        wires: placed.wire_count(),
    }
}

/// The counts of an extracted circuit.
pub fn circuit_counts(circuit: &Extracted) -> ChipCounts
    ensures { AreCircuitCounts circuit.now result }
{
    ChipCounts {
        rows: u64::from(circuit.rows),
        cells: circuit.cells.len() as u64,
        wires: circuit.wires,
    }
}

/// Puts the counts line.
#[tactic(auto, using(crate::proofs::OutEnds::ends_text, text_answers::proofs::Pages::put_within))]
pub fn put_counts<O: Sink>(counts: &ChipCounts, out: &mut O) -> Result<(), Fault>
    ensures { PrintsText (counts_text counts.now.rows counts.now.cells counts.now.wires)
        (O.output out.old) (O.output out.new) result }
{
    let pieces = [
        Piece::Text(b"rows "),
        Piece::Number(counts.rows),
        Piece::Text(b" cells "),
        Piece::Number(counts.cells),
        Piece::Text(b" wires "),
        Piece::Number(counts.wires),
        Piece::Text(b" delay "),
        Piece::Number(counts.rows.saturating_sub(1)),
        Piece::Text(b"\n"),
    ];
    out_end(put_pieces(out, &pieces))
}
