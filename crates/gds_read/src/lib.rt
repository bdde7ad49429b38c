//! The reader of streams.
#![tactic(auto)]

mod chains;
mod conditions;
mod cursor;
mod element;
mod ending;
mod fields;
mod front;
mod graph;
mod item;
mod laws;
mod names;
mod naming;
mod numbers;
mod outline;
mod place;
mod points;
mod refusal;
mod scan;
mod sequence;
mod table;
mod values;
mod ways;
mod wide;
mod wide_conditions;
mod wide_structures;
mod wide_values;

pub use gds_records::StreamKind;
pub use laws::{strict_reading_is_wide, wide_reading_is_exact};
pub use refusal::StreamRefusal;
pub use wide::read_wide;
