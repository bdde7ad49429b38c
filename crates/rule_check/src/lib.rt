//! The design rule check (DRC): the rules of geometry, and the rule of lengths.
#![tactic(auto)]

mod checking;
mod cover;
mod enclosure;
mod frames;
mod lengths;
mod limits;
mod sheet;
mod sizes;
mod spacing;

pub use checking::{CheckRefusal, check, check_filed};
