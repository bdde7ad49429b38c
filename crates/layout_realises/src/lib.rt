//! The chip of a placed net: what the shapes and the bytes of its drawing realise, and at which rates.
#![tactic(auto)]

mod laws;
mod rates;

pub use laws::{drawing_circuit, drawn_chip_realises};
pub use rates::{chips_bear_rates, drawings_have_low_skew, one_skew, rates_of_skew};
