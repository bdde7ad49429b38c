//! Tests of the system's store: what is stored is loaded, a file is replaced when it is closed, and where the system
//! refuses a call what stood under the name stays, and no draft is left.
#![tactic(auto)]

#[cfg(test)]
mod drafts;
#[cfg(test)]
mod folders;
#[cfg(test)]
mod refusing;
#[cfg(test)]
mod stores;
