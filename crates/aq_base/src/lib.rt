//! Lists, decimals, and the outside: stores of files and sinks for bytes.
#![tactic(auto)]

mod acts;
mod decimal;
mod disk;
mod draft;
mod failing;
mod history;
mod lists;
mod memory_files;
mod memory_sink;
mod pipe;
mod replay;
mod std_sink;
mod std_store;
mod store;
mod texts;

pub use acts::{Act, Acts, Note};
pub use decimal::read_decimal;
pub use disk::{Disk, Piece, RuntimeFiles};
pub use history::{Call, History};
pub use lists::{List, Memory};
pub use memory_files::MemFiles;
pub use memory_sink::MemSink;
pub use pipe::{Pipe, Writer};
pub use replay::{faults_are_counted, refusals_are_counted, told_is_heard};
pub use std_sink::StdSink;
pub use std_store::StdFiles;
pub use store::{Files, LoadRefusal, Sink, StoreRefusal, pieces_are_joined};
pub use texts::Text;

/// A list of bytes.
pub type Bytes = List<u8>;
