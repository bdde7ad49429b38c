//! The top call.
#![tactic(auto)]

mod accepted;
mod build;
mod check;
mod chip_report;
mod counts;
mod design;
mod due;
mod equal;
mod fault;
mod followed;
mod heard;
mod joined;
mod judge;
mod load;
mod out;
mod page;
mod pieces;
mod planned;
mod planner;
mod reading;
mod report;
mod run;
mod sample;
mod shapes;
mod store;
mod told;
mod words;
mod write;

pub use accepted::{
    each_layout_is_checked, each_netlist_is_written, each_pair_is_compared, each_sample_is_made,
    each_shape_is_shown,
};
pub use due::{each_design_is_built, one_answer_is_due};
pub use fault::{Fault, Large, WriteCall};
pub use followed::made_then_verified;
pub use heard::{faults_are_heard, well_texts_are_done};
pub use joined::built_is_verified;
pub use planned::chip_is_planned;
pub use planner::Planner;
pub use run::{Ending, aqfp_run};
pub use told::told_runs_are_heard;
