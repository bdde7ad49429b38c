// The layers of a chip, and the datatypes on those of the excitation lines.

/// Lower metal.
pub const M1: u16 = 10;
/// Vias, which join lower and upper metal.
pub const VIA: u16 = 11;
/// Upper metal.
pub const M2: u16 = 12;
/// The excitation line of the even rows.
pub const EVEN_LINE: u16 = 14;
/// The excitation line of the odd rows.
pub const ODD_LINE: u16 = 15;
/// The frames of cells: the datatype is the number of the cell's kind.
pub const FRAME: u16 = 20;
/// Input pins: the datatype is the pin's number in its cell.
pub const INPUT_PIN: u16 = 21;
/// Output pins: the datatype is the pin's number in its cell.
pub const OUTPUT_PIN: u16 = 22;
/// Labels, which mark the pins of the chip's inputs and outputs.
pub const LABELS: u16 = 30;

/// The part of an excitation line that runs over a row of cells.
pub const BAR: u16 = 0;
/// The part of an excitation line that leads from a bar to the next.
pub const LINK: u16 = 1;
/// The part of an excitation line at which it begins.
pub const START: u16 = 2;
