//! The first chip: each step from the texts of its netlist and of its library to its bytes, computed.
#![tactic(auto)]

mod laws;
mod skew;

pub use laws::{first_chip_realises, library_a_is_said, wire_is_planned, wire_is_said};
pub use skew::first_chip_has_skew;
