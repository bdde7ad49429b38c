//! Circuits that tests make: lists of gates that are checked, and gates, words and numbers for random ones.
#![tactic(auto)]

mod checked;
mod random;
mod words;

pub use checked::checked_cells;
pub use random::{next_number, random_gate};
pub use words::numbered_word;
