// The circuit of the first chip: a buffer in each of two rows, and one wire between them.
ghost use Rattle.std.specs.Prelude.{◌≡◌, ◌<◌, IfOk};
ghost use Rattle.circuit.specs.declared.cell_kind.CellKind.TheVariants.{Buffer};
ghost use Rattle.circuit_extracted.specs.declared.cells.Feed.TheVariants.{Nothing};
ghost use Rattle.circuit_extracted.specs.Circuits.{KeepsFacts};
ghost use Rattle.circuit_extracted.specs.FirstCircuit.{first_circuit};

use crate::cells::{ExCell, Feed};
use crate::layout_circuit::Extracted;
use aq_base::{List, Memory};
use circuit::CellKind;
use rowed::Source;
use std::alloc::Global;

/// The circuit of two buffers keeps what every extracted circuit keeps.
pub fn first_circuit_keeps()
    ensures { KeepsFacts first_circuit }
{}

fn buffer(row: u32, feed: Feed) -> ExCell
    requires { row < 4 }
    ensures { result
        ≡ record { kind = Buffer; row = row; phase = row; feed0 = feed; feed1 = Nothing; feed2 = Nothing } }
{
    ExCell {
        kind: CellKind::Buffer,
        row,
        phase: row as u16,
        feed0: feed,
        feed1: Feed::Nothing,
        feed2: Feed::Nothing,
    }
}

/// The circuit of two buffers as a value, for examples and tests. It is refused for want of memory alone.
pub fn two_buffers(alloc: Global) -> Result<Extracted, Memory>
    ensures { IfOk result (λ circuit. circuit ≡ first_circuit) }
{
    first_circuit_keeps();
    let mut cells = List::new(alloc);
    cells.push(buffer(0, Feed::Label(0)))?;
    cells.push(buffer(1, Feed::Pin { cell: 0, output: 0 }))?;
    let mut outputs = List::new(alloc);
    outputs.push(Source { cell: 1, output: 0 })?;
    let nets = [0, 1, 2, 3, 4, 2, 2, 2, 2, 2, 10, 2, 12, 13, 14].to_vec(alloc)?;
    Ok(Extracted {
        cells,
        inputs: 1,
        outputs,
        rows: 2,
        wires: 1,
        nets: List::from_vec(nets),
    })
}
