// Labels and the pins that they mark.
ghost use Rattle.std.specs.Prelude.{◌≡◌, length, slice_index};
ghost use Rattle.layout_rules.specs.Labels.{marked_layer, marks};

use geom::{Label, Shape, holds_point};
use layout_rules::layers::{INPUT_PIN, LABELS, OUTPUT_PIN};

/// The first byte of a text, and 0 where it is empty.
fn first_byte(text: &[u8]) -> u8
    ensures { result ≡ slice_index text.now 0 }
{
    if text.is_empty() { 0 } else { text[0] }
}

/// The layer of the pins that a label may mark.
fn marked_layer(label: &Label) -> u16
    ensures { result ≡ marked_layer label.now }
{
    if first_byte(label.text.as_slice()) == b'I' {
        INPUT_PIN
    } else {
        OUTPUT_PIN
    }
}

/// Whether the label stands on the pin and is of its kind.
pub fn marks(label: &Label, pin: &Shape) -> bool
    ensures { result ≡ marks label.now pin.now }
{
    label.layer == LABELS
        && pin.layer == marked_layer(label)
        && holds_point(&pin.rect, label.x, label.y)
}
