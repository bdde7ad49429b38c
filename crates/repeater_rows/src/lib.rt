//! Rows of buffers that shorten the wires of placed nets.
#![tactic(auto)]

mod cells;
mod channel;
mod counting;
mod destinations;
mod laws;
mod pass;
mod pins;
mod rows;
mod windows;

pub use laws::{
    channels_end, destinations_order, repeaters_add, repeaters_answer, repeaters_count,
    repeaters_given, repeaters_keep, repeaters_narrow, repeaters_short, rounds_end, unwired_rise,
    worked_rows,
};
pub use pass::{RepeatPass, RepeatRefusal};
