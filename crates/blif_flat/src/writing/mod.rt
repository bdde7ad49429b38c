// A chip's circuit, written as a netlist.
pub mod lines;
pub mod writer;
