//! Graphs of majorities made anew, with other forms of some nodes: each form is taken only where its table, over up to
//! six leaves, is that of the node. The leaves are nodes of the graph that was given, or of the one that grows.
#![tactic(auto)]

mod by_last;
mod cone;
mod growing;
mod growth;
mod other_form;
mod readers;
mod replaced;
mod replacement;
mod run;
mod site;
mod ties;
mod trial;
mod uses;

pub use growing::with_growth;
pub use growth::{Grower, Growth};
pub use readers::Readers;
pub use replaced::with_replacements;
pub use replacement::Replacement;
pub use site::{Chooser, Site, required_levels};
pub use ties::{Best, Ties};
pub use trial::{Trial, tried, tried_in_growth};
pub use uses::{Uses, majority_of};
