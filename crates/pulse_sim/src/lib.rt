//! The four-phase pulse machine.
#![tactic(auto)]

mod first_chip;
mod flux;
mod laws;
mod pulses;
mod ticks;
mod travelling;
mod without_ticks;

pub use first_chip::first_chip_shows;
pub use flux::Flux;
pub use laws::{every_order, settled_is_lawful, shown_once, stepping_is_legal};
pub use pulses::Pulses;
pub use travelling::{
    and_has_skew, every_rate, leads_shift_the_skew, rate_is_exact, skew_is_computed,
};
pub use without_ticks::{
    clocks_are_enough, clocks_are_more, every_clock, every_skew, skews_are_more, ticks_are_beats,
};
