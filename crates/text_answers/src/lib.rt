//! The texts of `verify` and `trace`: words are read, and a circuit's counts, answers and fluxes are printed.
#![tactic(auto)]

mod answers;
mod blocks;
mod counts;
mod fluxes;
mod lanes;
mod laws;
mod lines;
mod page;
mod run;
mod words;

pub use answers::{add_word, print_answers};
pub use fluxes::print_fluxes;
pub use laws::answers_are_shown;
pub use page::{put_full_page, put_page};
pub use words::{BadLine, GivenWords, read_words};
