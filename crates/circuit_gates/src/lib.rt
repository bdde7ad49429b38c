//! The circuit of a chip as gates, which a comparison takes.
#![tactic(auto)]

mod extracted;

pub use extracted::extracted_cells;
