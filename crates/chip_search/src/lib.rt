//! The search for a small chip of a majority graph: levels, rows of cells, their order and their slots.
#![tactic(auto)]

mod added;
pub mod arrays;
pub mod candidate;
pub mod cells;
pub mod chip;
pub mod drafts;
pub mod effort;
mod exact;
mod finding;
pub mod graph;
pub mod growing;
mod lazy;
mod levels;
mod lining;
mod near_slots;
mod near_starts;
mod ordered_slots;
pub mod places;
mod pulling;
mod row_chips;
mod row_slots;
pub mod signs;
mod sparing;
mod starting;
mod starts_at;
mod trimming;
pub mod walk;
mod weaving;
mod widened;
mod wider_rows;

pub use effort::Effort;
pub use finding::{Found, search};
pub use row_slots::find_slots;
pub use wider_rows::find_wider;
