// Cells of an extracted circuit, and what feeds them.
use circuit::CellKind;

/// What an input of a cell takes.
#[derive(Clone, Copy, PartialEq, Eq)]
pub enum Feed {
    /// The kind of the cell has no such input.
    Nothing,
    /// An output of another cell, by the cell's number in the circuit and the number of the output.
    Pin { cell: u32, output: u32 },
    /// The circuit's input of this number.
    Label(u32),
}

/// A cell of an extracted circuit.
#[derive(Clone, Copy, PartialEq, Eq)]
pub struct ExCell {
    pub kind: CellKind,
    /// Its row, from 0 at the lower edge of the chip.
    pub row: u32,
    /// The phase of the excitation line over it, from 0 to 3.
    pub phase: u16,
    pub feed0: Feed,
    pub feed1: Feed,
    pub feed2: Feed,
}
