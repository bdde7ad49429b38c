//! Lists of bytes that are mostly short, as the names and the rows of a netlist, of which there are millions.
//!
//! Fourteen bytes and their number stand in the value itself, which has sixteen bytes; a longer list is memory of its
//! own. A `Vec` has twenty-four bytes, and a block of at least as many more.
#![tactic(auto)]

mod short;

pub use short::ShortBytes;
