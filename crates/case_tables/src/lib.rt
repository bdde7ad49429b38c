//! Tables of recipes: how each function of two or three inputs is made of `and`, `or`, inverters and majorities.
#![tactic(auto)]

mod recipe;
mod table;
mod three;
mod two;

pub use recipe::{Operand, Recipe, Step};
pub use table::Table;
pub use three::three_inputs;
pub use two::two_inputs;
