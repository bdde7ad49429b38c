// The circuit of a layout that keeps the rules, and laws of it.
pub mod assembly;
pub mod cell_feeds;
pub mod cell_list;
pub mod cell_places;
pub mod cell_spans;
pub mod drivers;
pub mod first_chip;
pub mod frames;
pub mod kept_laws;
pub mod outputs;
pub mod pin_names;
pub mod uniqueness;
