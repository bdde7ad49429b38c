//! The plan of a compact chip: graphs with the answers of a netlist, a small chip that is searched for among theirs and
//! checked, and that of the defined plan where the found one is larger.
#![tactic(auto)]

mod compact;
mod making;
mod rounds;
mod search;
mod searches;
mod sizes;
mod variants;

pub use chip_search::Effort;
pub use compact::compact_chip;
pub use making::small_chip;
pub use variants::graph_variants;
