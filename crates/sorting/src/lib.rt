//! Lists in the order of a key, orders of numbers, and how far a list is from its order.
#![tactic(auto)]

mod laws;
mod order;

pub use laws::{orders_are_permutations, sorted_lists, words_are_std};
pub use order::{order_by, places_of};
