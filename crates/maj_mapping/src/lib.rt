//! Netlists as nets of majorities and inverters.
#![tactic(auto)]

mod cover;
mod cubes;
mod define;
mod laws;
mod maker;
mod pass;
mod recipe;
mod tables;
mod walk;

pub use laws::{few_gates, few_gates_each, few_gates_in_all, mapping_given};
pub use pass::MapPass;
