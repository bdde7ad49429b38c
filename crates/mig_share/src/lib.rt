//! Graphs of majorities made anew, with nodes joined in another order where more of them share a part then.
#![tactic(auto)]

mod choose;
mod pass;
mod plan;
mod rotations;

pub use pass::Sharing;
