//! Definitions of touch, nets, rows and the rules of a layout, and their laws.
#![tactic(auto)]

pub mod laws;
pub mod layers;
mod rule;

pub use rule::Rule;
