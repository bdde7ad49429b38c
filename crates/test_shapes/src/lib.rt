//! Tests of the crates that write, read and flatten streams, extract circuits from shapes and check design rules: no
//! code, tests alone.
#![tactic(auto)]

#[cfg(test)]
mod fixtures;
#[cfg(test)]
mod geometry;
#[cfg(test)]
mod joined_shapes;
#[cfg(test)]
mod kinds;
#[cfg(test)]
mod lines;
#[cfg(test)]
mod records;
#[cfg(test)]
mod reports;
#[cfg(test)]
mod rules;
#[cfg(test)]
mod streams;
#[cfg(test)]
mod wide_streams;
