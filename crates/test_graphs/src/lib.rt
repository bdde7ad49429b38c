//! Tests of graphs of majorities, and of what makes them of netlists.
#![tactic(auto)]

#[cfg(test)]
mod builders;
#[cfg(test)]
mod merging;
#[cfg(test)]
mod sharing;
#[cfg(test)]
mod tables;
#[cfg(test)]
mod variants;
