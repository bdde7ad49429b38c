// The electrical rules: cells, nets, rows and labels, and the first rule that is broken.
pub mod cell_pins;
pub mod cell_rule;
pub mod first_broken;
pub mod label_numbers;
pub mod label_rule;
pub mod net_rule;
pub mod row_rule;
