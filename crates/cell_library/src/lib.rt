//! Cell libraries: their numbers, their laws and their text.
#![tactic(auto)]

mod bundled;
mod document;
mod draft;
mod fault;
mod kinds;
mod laws;
mod library;
mod read;
mod said;
mod same;

pub use bundled::library_a;
pub use fault::{LibraryFault, LibraryRefusal};
pub use kinds::kind_key;
pub use library::Library;
pub use read::read_library;
pub use said::{each_library, limits_are_said};
