//! Tests of netlists of cells: no code, tests alone.
#![tactic(auto)]

#[cfg(test)]
mod cells;
#[cfg(test)]
mod chips;
#[cfg(test)]
mod packs;
#[cfg(test)]
mod rows;
