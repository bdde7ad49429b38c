// The numbers of a report, read from the layout and its circuit.
ghost use Rattle.std.specs.Prelude.{◌≡◌, ℕ, ◌<◌, ◌^◌, length, IfOk};
ghost use Rattle.layout_rules.specs.LengthRule.{net_length};
ghost use Rattle.layout_rules.specs.Rows.{row_count};
ghost use Rattle.shape_extract.specs.CellPlaces.{far_at, near_at};
ghost use Rattle.text_report.specs.Wires.{wires, longest_of};
ghost use Rattle.text_report.specs.Code.Figures.{AreFigures};
ghost use Rattle.text_report.specs.Code.Sources.{AreInOrder, AreSourceRows};
ghost use Rattle.text_report.specs.Code.Tables.{AreNetLengths, IsRowTable};

use crate::frames::{height_of, outline, width_of};
use crate::kinds::{Kinds, count_junctions, count_kinds};
use crate::lengths::net_lengths;
use crate::skews::{even_ahead, odd_ahead, skews_by_row};
use crate::sources::source_rows;
use crate::tables::{RowTable, cells_by_row, longest_by_row, wires_by_row};
use crate::wire_tables::longest_wire;
use aq_base::Memory;
use circuit_extracted::Extracted;
use geom::Flat;
use shape_extract::{Span, rows};
use std::alloc::Global;

/// The numbers of a report, but for those of the counts line; lengths in nanometres.
#[derive(Drop)]
pub struct Figures {
    pub kinds: Kinds,
    pub junctions: u64,
    pub width: u64,
    pub height: u64,
    pub longest: u64,
    /// How far the even rows are ahead along the excitation lines.
    pub even: u128,
    /// How far the odd ones are.
    pub odd: u128,
    pub rows: RowTable,
}

/// The length of the longest wire.
fn longest_of(flat: &Flat, circuit: &Extracted, sources: &[Option<u32>], lengths: &[u64]) -> u64
    requires order { AreInOrder flat.now circuit.now.nets }
    requires sources { AreSourceRows flat.now.shapes circuit.now.nets sources.now }
    requires lengths { AreNetLengths flat.now.shapes circuit.now.nets lengths.now }
    ensures { result ≡ longest_of flat.now circuit.now (wires flat.now circuit.now) }
{
    longest_wire(
        flat.shapes.as_slice(),
        circuit.nets.as_slice(),
        sources,
        lengths,
    )
}

/// For each net the row of the output pin in it.
fn sources_of(alloc: Global, flat: &Flat, circuit: &Extracted) -> Result<Vec<Option<u32>>, Memory>
    requires order { AreInOrder flat.now circuit.now.nets }
    requires rows { circuit.now.rows ≡ row_count flat.now.shapes }
    ensures { IfOk result (λ sources. AreSourceRows flat.now.shapes circuit.now.nets sources.items) }
{
    circuit.known();
    let edges = rows(alloc, flat.shapes.as_slice())?;
    source_rows(alloc, flat, circuit.nets.as_slice(), &edges)
}

/// What the report says of each row, by the rows of the nets' sources and by the nets' lengths.
fn row_table(
    alloc: Global,
    flat: &Flat,
    circuit: &Extracted,
    spans: &[Span],
    sources: &[Option<u32>],
    lengths: &[u64],
) -> Result<RowTable, Memory>
    requires few { length flat.now.shapes < 2 ^ 32 }
    requires order { AreInOrder flat.now circuit.now.nets }
    requires rows { circuit.now.rows ≡ row_count flat.now.shapes }
    requires sources { AreSourceRows flat.now.shapes circuit.now.nets sources.now }
    requires lengths { AreNetLengths flat.now.shapes circuit.now.nets lengths.now }
    ensures { IfOk result (IsRowTable flat.now circuit.now (near_at spans.now) (far_at spans.now)) }
{
    let cells = cells_by_row(alloc, circuit)?;
    let wires = wires_by_row(alloc, flat, circuit, sources)?;
    let longest = longest_by_row(alloc, flat, circuit, sources, lengths)?;
    let skews = skews_by_row(alloc, circuit, spans)?;
    Ok(RowTable {
        cells,
        wires,
        longest,
        skews,
    })
}

/// The numbers of a report of cells that lie so. It is refused for want of memory alone.
pub fn read_figures(
    alloc: Global,
    flat: &Flat,
    circuit: &Extracted,
    spans: &[Span],
) -> Result<Figures, Memory>
    requires few { length flat.now.shapes < 2 ^ 32 }
    requires order { AreInOrder flat.now circuit.now.nets }
    requires rows { circuit.now.rows ≡ row_count flat.now.shapes }
    requires short { (net : ℕ) → net_length flat.now.shapes circuit.now.nets net < 2 ^ 64 }
    ensures { IfOk result (AreFigures flat.now circuit.now (near_at spans.now) (far_at spans.now)) }
{
    circuit.known();
    let sources = sources_of(alloc, flat, circuit)?;
    let lengths = net_lengths(alloc, flat.shapes.as_slice(), circuit.nets.as_slice())?;
    let rows = row_table(alloc, flat, circuit, spans, &sources, &lengths)?;
    let outline = outline(flat.shapes.as_slice());
    Ok(Figures {
        kinds: count_kinds(circuit.cells.as_slice()),
        junctions: count_junctions(circuit.cells.as_slice()),
        width: width_of(&outline),
        height: height_of(&outline),
        longest: longest_of(flat, circuit, &sources, &lengths),
        even: even_ahead(circuit.cells.as_slice(), spans),
        odd: odd_ahead(circuit.cells.as_slice(), spans),
        rows,
    })
}
