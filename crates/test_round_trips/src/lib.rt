//! Chips that come back: the netlist that `netlist` stores of a chip is drawn again. No code, tests alone.
#![tactic(auto)]

#[cfg(test)]
mod chips;
#[cfg(test)]
mod examples;
