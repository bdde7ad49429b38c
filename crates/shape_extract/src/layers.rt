// What shapes are by their layers.
ghost use Rattle.std.specs.Prelude.{◌≡◌};
ghost use Rattle.layout_rules.specs.Layers.{is_frame, is_line, is_lower, is_metal, is_pin, is_upper, is_via};

use geom::Shape;
use layout_rules::layers::{EVEN_LINE, FRAME, INPUT_PIN, M1, M2, ODD_LINE, OUTPUT_PIN, VIA};

/// Whether the shape is the frame of a cell.
pub fn is_frame(s: &Shape) -> bool
    ensures { result ≡ is_frame s.now }
{
    s.layer == FRAME
}

/// Whether the shape is a pin.
pub fn is_pin(s: &Shape) -> bool
    ensures { result ≡ is_pin s.now }
{
    s.layer == INPUT_PIN || s.layer == OUTPUT_PIN
}

/// Whether the shape is a via.
pub fn is_via(s: &Shape) -> bool
    ensures { result ≡ is_via s.now }
{
    s.layer == VIA
}

/// Whether the shape lies in the plane of the lower metal.
pub fn is_lower(s: &Shape) -> bool
    ensures { result ≡ is_lower s.now }
{
    s.layer == M1 || is_pin(s)
}

/// Whether the shape lies in the plane of the upper metal.
pub fn is_upper(s: &Shape) -> bool
    ensures { result ≡ is_upper s.now }
{
    s.layer == M2
}

/// Whether the shape is a part of an excitation line.
pub fn is_line(s: &Shape) -> bool
    ensures { result ≡ is_line s.now }
{
    s.layer == EVEN_LINE || s.layer == ODD_LINE
}

/// Whether the shape is metal.
pub fn is_metal(s: &Shape) -> bool
    ensures { result ≡ is_metal s.now }
{
    s.layer == M1 || s.layer == M2
}
