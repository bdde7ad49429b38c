//! Whether two circuits answer every word alike: both are made into one reduced ordered binary decision diagram, in
//! which two functions are the same exactly where their edges are.
#![tactic(auto)]

mod both;
mod cells;
mod diagram;
mod edge;
mod gates;
mod least;
mod majority;
mod narrowing;
mod order;
mod refusal;
mod unique_table;
mod verdict;
mod walk;

pub use cells::{Cells, plain_cells};
pub use refusal::DecideRefusal;
pub use verdict::{Verdict, decide};
