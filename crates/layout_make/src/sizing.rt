// How many elements the drawing of a placed net has.
ghost use Rattle.std.specs.Prelude.{◌≡◌, ◌<◌, ◌^◌};
ghost use Rattle.layout_make.specs.Size.{element_number};

use crate::spots::{input_count, output_count};
use rowed::Placed;

/// How many elements the top structure of a drawing has: a reference for each cell, two shapes for the line of each
/// row, five for each wire, a label for each input and output, and two shapes for a delay. There are fewer than 2^63.
pub fn element_number(placed: &Placed) -> u64
    requires { element_number placed.now < 2 ^ 63 }
    ensures { result ≡ element_number placed.now }
{
    let shapes = placed.cell_count() + 2 * placed.row_count() as u64 + 5 * placed.wire_count();
    let lag = if placed.lag == 0 { 0 } else { 2 };
    shapes + u64::from(input_count(placed)) + u64::from(output_count(placed)) + lag
}
