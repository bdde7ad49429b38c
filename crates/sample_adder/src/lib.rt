//! The sample: an adder as a netlist, eight words for it, and the text of its answers.
#![tactic(auto)]

mod adder;
mod eight;
mod laws;
mod print;

pub use adder::adder_text;
pub use eight::sample_words;
pub use laws::{sample_laws, worked_sample};
pub use print::{SampleCounts, print_sample};
