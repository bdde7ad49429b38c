//! Each rule of a layout, shown at a chip that breaks it: laws, and no code.
#![tactic(auto)]

pub mod laws;
