//! The texts of `report` and `shapes`: what is in a layout, and the line of one of its shapes or labels.
#![tactic(auto)]

mod edges;
mod figures;
mod frames;
mod kinds;
mod laws;
mod lengths;
mod printing;
mod rules;
mod shape_lines;
mod skews;
mod sources;
mod tables;
mod wire_tables;

pub use kinds::Kinds;
pub use laws::{first_chip_report, outline_is_least, wires_add_up};
pub use printing::print_report;
pub use shape_lines::{print_label, print_shape};
