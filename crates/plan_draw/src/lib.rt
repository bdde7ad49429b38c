//! The plan of a netlist of cells: its cells as they stand, in rows by level, packed in the order of the text, at slots
//! that a search has found or wider by rows that it has added, with rows of repeaters.
#![tactic(auto)]

mod drawn;
mod found;
mod laws;
mod pack;
mod pack_laws;
mod plan;
mod refusal;

pub use drawn::draw_cells;
pub use laws::cell_plan_laws;
pub use pack::pack_net;
pub use pack_laws::{packs_given, packs_in_order, packs_keep, packs_span, worked_packs};
pub use plan::plan_cells;
pub use refusal::CellPlanRefusal;
