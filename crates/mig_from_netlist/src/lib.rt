//! Netlists as graphs of majorities.
#![tactic(auto)]

mod cover;
mod cubes;
mod decompose;
mod define;
mod fold;
mod gates;
mod order;
mod parts;
mod pass;
mod refusal;
mod votes;
mod walk;

pub use pass::GraphPass;
pub use refusal::CoverRefusal;
