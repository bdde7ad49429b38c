//! The circuit that a layout holds: its type, the facts that it keeps, and its answers by logic simulation.
#![tactic(auto)]

mod answers;
mod cells;
mod evaluation;
mod first_circuit;
mod layout_circuit;

pub use answers::one_answer;
pub use cells::{ExCell, Feed};
pub use first_circuit::{first_circuit_keeps, two_buffers};
pub use layout_circuit::Extracted;
pub use rowed::Source;
