//! Tracks for the wires of a channel, the gap between two rows of cells.
#![tactic(auto)]

mod assign;
mod channel;
mod ends;
mod laws;
mod levels;
mod order;

pub use channel::{RouteRefusal, Tracks, route};
pub use laws::{
    ends_apart, few_cross, never_full, placed_channels, three_wires, tracks_are_fewest,
};
