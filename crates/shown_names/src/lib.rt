//! How a line about a fault shows the name of a file or the key of a library.
//!
//! Whoever writes a file or its name chooses these bytes. A line feed in them would make two lines of one, an escape
//! would steer the terminal that the line goes to, and a key may be as long as the file. So control bytes are spelled
//! out, and a long name is cut.
#![tactic(auto)]

mod laws;
mod name;
#[cfg(test)]
mod tests;

pub use laws::{beginnings_are_the_longest, lines_stay_one, plain_names_stay};
pub use name::ShownName;
