//! Places for the cells of a net in rows: an order of each row, packed from slot 0, or the slots that a search found.
#![tactic(auto)]

mod arranging;
mod below;
mod keys;
mod laws;
mod pass;
mod plan;
mod rows;

pub use arranging::arrange;
pub use laws::{places_answer, places_given, places_keep, places_rows, places_span, worked_places};
pub use pass::{PlacePass, PlaceRefusal};
pub use rows::slots_of;
