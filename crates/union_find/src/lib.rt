//! Heights of nodes of which some are known to differ by none or one: whether they can, and what they may be.
#![tactic(auto)]

mod heights;
mod tables;

pub use heights::Heights;
