//! Netlists of cells: each definition is a cell as it stands, with its uses and its level.
#![tactic(auto)]

mod cells;
mod counts;
mod covers;
mod fault;
mod judge;
mod laws;
mod levels;
mod names;
mod outputs;
mod tabled_net;

pub use cells::{CellLevels, cell_levels};
pub use counts::{CellTable, bump, cell_table};
pub use fault::{CellFault, CellsRefusal};
pub use judge::uses_of;
pub use laws::one_first_fault;
pub use names::{gate_of, is_name};
pub use outputs::shown_by;
