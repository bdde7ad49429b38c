// Pins and the frames in which they lie.
ghost use Rattle.std.specs.Prelude.{◌≡◌};
ghost use Rattle.layout_rules.specs.Pins.{lies_in};

use crate::layers::{is_frame, is_pin};
use crate::pairs::PairTest;
use geom::{Shape, is_within};

fn lies_in(pin: &Shape, frame: &Shape) -> bool
    ensures { result ≡ lies_in pin.now frame.now }
{
    is_pin(pin) && is_frame(frame) && is_within(&pin.rect, &frame.rect)
}

/// A pin, and a frame in which it lies.
pub struct PinInFrame;

impl PairTest for PinInFrame {
    ghost passes = { λ s pin frame. lies_in pin frame };

    ghost reach = { λ s. 0 };

    fn passes(&self, a: &Shape, b: &Shape) -> bool {
        lies_in(a, b)
    }

    fn reach(&self) -> u64 {
        0
    }
}

/// A frame, and a pin that lies in it.
pub struct HoldsPin;

impl PairTest for HoldsPin {
    ghost use Rattle.shape_extract.specs.Code.Cells.{holds_pin};

    ghost passes = { λ s frame pin. holds_pin frame pin };

    ghost reach = { λ s. 0 };

    fn passes(&self, a: &Shape, b: &Shape) -> bool {
        lies_in(b, a)
    }

    fn reach(&self) -> u64 {
        0
    }
}
