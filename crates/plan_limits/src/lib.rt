//! Whether a placed net makes a chip that may be drawn: rows of repeaters, then the limits of a
//! drawing. And the delay of its odd rows.
#![tactic(auto)]

mod lag;
mod limits;
mod making;

pub use lag::delayed;
pub use making::drawable_chip;
