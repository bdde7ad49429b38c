//! Records of the GDSII Stream Format: which bytes are a stream, and the bytes of a layout.
#![tactic(auto)]

pub mod codes;
mod fault;
mod head;
mod laws;
mod spelling;
pub mod table;
mod writer;

pub use fault::StreamKind;
pub use head::{Head, record_head};
pub use laws::{
    fault_is_found, first_chip_is_stream, first_chip_is_wide, found_is_fault, loops_are_long,
    no_fault_is_stream, one_layout, one_of_both, one_wide_reading, rectangles_are_rings,
    steps_tell_scan, stream_is_found, strict_is_within_wide, strict_records_are_good,
    strict_streams_are_wide, whole_is_read, wide_values_are_drawn, written_is_read,
};
pub use writer::{WriteRefusal, write_stream};
