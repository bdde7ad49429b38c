//! A second search for small chips: rows and signs by annealing, and trees that know where their users stand.
#![tactic(auto)]

mod annealing;
mod cells;
mod finding;
mod graph;
mod moves;
mod numbers;
mod race;
mod ranking;
mod signals;
mod spectral;
mod starts;
mod task;
mod trees;

pub use finding::search;
