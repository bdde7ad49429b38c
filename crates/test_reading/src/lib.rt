//! Whole runs of the commands that read a layout, over stores in memory: no code, tests alone.
#![tactic(auto)]

#[cfg(test)]
mod checked;
#[cfg(test)]
mod compared;
#[cfg(test)]
mod reported;
#[cfg(test)]
mod wide;
#[cfg(test)]
mod written;
