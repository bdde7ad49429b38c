//! Graphs of majorities by resubstitution: a node is made of one or two majorities of other nodes of a window, kept only
//! where its table over the window's leaves says so.
#![tactic(auto)]

mod candidates;
mod choose;
mod divisors;
mod fanouts;
mod leaves;
mod pass;
#[cfg(test)]
mod tests;
mod window;

pub use pass::Resubstitution;
