//! A checker of drafts: rows of cells with labels and slots, which a search has found. They answer as a graph, or are
//! wider than a net in rows.
#![tactic(auto)]

mod cells;
mod checker;
mod draft;
mod labels;
mod marks;
mod numbering;
mod rows;
mod widening;
mod wider;

pub use checker::check;
pub use draft::Draft;
pub use marks::{Mark, Place, WideDraft};
pub use wider::check_wider;
