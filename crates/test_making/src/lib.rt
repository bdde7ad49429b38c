//! Whole runs of the commands that make a chip, over stores in memory: no code, tests alone.
#![tactic(auto)]

#[cfg(test)]
mod built;
#[cfg(test)]
mod chips;
#[cfg(test)]
mod compacted;
#[cfg(test)]
mod designs;
#[cfg(test)]
mod drawn;
#[cfg(test)]
mod large;
#[cfg(test)]
mod sample;
