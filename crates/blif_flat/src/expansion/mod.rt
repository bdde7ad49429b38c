// The netlist of a design: the blocks of its models, laid one into another.
pub mod assembly;
pub mod ends;
pub mod expand;
pub mod finish;
pub mod layout;
pub mod pieces;
pub mod tables;
pub mod wire_names;
pub mod wires;
