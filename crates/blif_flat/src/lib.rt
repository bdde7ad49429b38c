//! Netlists of several models, and a chip's circuit written as a netlist, in the Berkeley Logic Interchange Format.
#![tactic(auto)]

mod design;
mod expansion;
mod faults;
mod laws;
mod models;
mod reading;
mod writing;

pub use design::{FlatKind, FlatRefusal};
pub use gds_records::WriteRefusal as WriteBlifRefusal;
pub use laws::{
    design_answers, each_design, netlist_answers, one_refusal, worked_designs, written_answers,
};
pub use reading::read_design;
pub use writing::writer::write_blif;
