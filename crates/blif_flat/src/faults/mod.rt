// The faults of a design, and the first of them.
pub mod drivers;
pub mod order;
pub mod ports;
pub mod told;
pub mod uses;
