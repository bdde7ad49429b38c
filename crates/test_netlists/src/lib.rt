//! Tests of the crates that read netlists and libraries, map netlists to gates and write a circuit's netlist: no code,
//! tests alone.
#![tactic(auto)]

#[cfg(test)]
mod design_faults;
#[cfg(test)]
mod designs;
#[cfg(test)]
mod fixtures;
#[cfg(test)]
mod gates;
#[cfg(test)]
mod libraries;
#[cfg(test)]
mod made_netlists;
#[cfg(test)]
mod mapping;
#[cfg(test)]
mod models;
#[cfg(test)]
mod netlists;
#[cfg(test)]
mod short_texts;
#[cfg(test)]
mod tables;
#[cfg(test)]
mod written;
