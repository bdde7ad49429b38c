//! Graphs of majorities with complemented edges, and what makes smaller or shallower ones of them.
#![tactic(auto)]

mod builder;
mod folding;
mod graph;
mod levels;
mod literals;
mod needed;
mod node;
mod pass;
mod rebuilt;
mod refusal;
mod shallower;
mod table;
mod values;

pub use builder::Builder;
pub use folding::turned;
pub use graph::Graph;
pub use literals::literals_of;
pub use node::Node;
pub use pass::{Clean, Shallower};
pub use refusal::GraphRefusal;
