use aq_base::{LoadRefusal, Memory};
use blif_read::BlifRefusal;
use cell_library::LibraryRefusal;
use layout_make::DrawRefusal;
use level_balance::LevelRefusal;
use repeater_rows::RepeatRefusal;
use row_place::PlaceRefusal;
use std::io;
use thiserror::Error;

/// Why a netlist was not laid out and drawn.
#[derive(Debug, Drop, Error)]
pub enum Fault {
    #[error("usage: bench_plans, or bench_plans NET LIB")]
    Usage,
    #[error("{name}: {refusal}")]
    File { name: String, refusal: LoadRefusal },
    #[error("netlist: {0:?}")]
    Netlist(#[from] BlifRefusal),
    #[error("library: {0:?}")]
    Library(#[from] LibraryRefusal),
    #[error("level: {0:?}")]
    Level(#[from] LevelRefusal),
    #[error("place: {0:?}")]
    Place(#[from] PlaceRefusal),
    #[error("repeat: {0:?}")]
    Repeat(#[from] RepeatRefusal),
    #[error("draw: {0:?}")]
    Draw(#[from] DrawRefusal),
    #[error("{0}")]
    System(#[from] io::Error),
    #[error("out of memory")]
    Memory(#[from] Memory),
}
