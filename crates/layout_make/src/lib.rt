//! The drawing of placed nets: the wires of their channels, their layouts, and the laws that every drawing keeps.
#![tactic(auto)]

mod areas;
mod drawing;
mod laws;
mod marks;
mod rows;
mod sizing;
mod spots;
mod structures;
mod wires;

pub use drawing::{DrawRefusal, draw};
pub use laws::{drawing_laws, drawing_ways, never_full, worked_chips};
pub use sizing::element_number;
pub use spots::Spot;
pub use wires::channel_wires;
