//! Whole runs that are refused, and runs of which a call fails, over stores in memory: no code, tests alone.
#![tactic(auto)]

#[cfg(test)]
mod calls;
#[cfg(test)]
mod refusals;
