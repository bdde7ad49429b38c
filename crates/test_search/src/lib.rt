//! Tests of the search for small chips, and of the check of what it finds.
#![tactic(auto)]

#[cfg(test)]
mod chips;
#[cfg(test)]
mod drafts;
#[cfg(test)]
mod graphs;
#[cfg(test)]
mod wider;
