//! Combinational equivalence checking by SAT sweeping: the gates of two circuits are made into one majority-inverter
//! graph with structural hashing, in which gates of the same function that are made alike have one literal. Then nodes
//! of the same simulation signature are candidates: a SAT solver compares them, and they are merged where it proves
//! them equal. A counterexample refines the signatures. Where outputs differ, further searches find the least word.
//! What is left goes to the decision diagram. `MergingBuilder` makes graphs whose equal nodes are merged in this way.
#![tactic(auto)]

mod budget;
mod classes;
mod comparison;
mod decided;
mod differ;
mod least;
mod literals;
mod merged;
mod merging_builder;
mod needed;
mod numbers;
mod outcome;
mod signatures;
mod some_difference;
mod structure;
mod sweep;
mod sweep_result;

pub use merging_builder::MergingBuilder;
pub use outcome::{swept_verdict, verdict};
pub use structure::are_structurally_equal;
