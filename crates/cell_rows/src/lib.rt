//! Netlists of cells as nets in rows: each cell as it stands, in the row of its level.
#![tactic(auto)]

mod cells;
mod laws;
mod net;
mod places;
mod tabled_cells;

pub use laws::{levels_are_rows, rows_of_cells};
pub use net::cell_rows;
