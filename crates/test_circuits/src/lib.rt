//! Tests of the crates that simulate, compare and print the circuit of a chip: no code, tests alone.
#![tactic(auto)]

#[cfg(test)]
mod answers;
#[cfg(test)]
mod cells;
#[cfg(test)]
mod circuits;
#[cfg(test)]
mod comparisons;
#[cfg(test)]
mod fixtures;
#[cfg(test)]
mod pulses;
#[cfg(test)]
mod sums;
#[cfg(test)]
mod words;
