//! Tests.
#![tactic(auto)]

#[cfg(test)]
mod pairs;
#[cfg(test)]
mod products;
#[cfg(test)]
mod structures;
