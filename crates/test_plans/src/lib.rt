//! Tests of the steps of a chip's plan, from levels to drawings, and of the plan as a whole: no code, tests alone.
#![tactic(auto)]

#[cfg(test)]
mod drawings;
#[cfg(test)]
mod fixtures;
#[cfg(test)]
mod levels;
#[cfg(test)]
mod places;
#[cfg(test)]
mod plans;
#[cfg(test)]
mod repeaters;
#[cfg(test)]
mod tracks;
