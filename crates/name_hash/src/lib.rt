//! A hash for names that strangers choose.
//!
//! An index finds a name fast where its hash spreads the names. Whoever writes a file knows the program, and could
//! choose names that a fixed hash brings to one place, so that reading takes the square of their number. Here the hash
//! is keyed by a digest of the text that the names stand in: names would have to be chosen after the key that they
//! change.
#![tactic(auto)]

mod keyed;

pub use keyed::NameHash;
