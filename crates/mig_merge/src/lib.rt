//! Graphs of majorities whose equal nodes are merged.
#![tactic(auto)]

mod merged;
mod pass;

pub use pass::Merging;
