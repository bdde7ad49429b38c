//! How large a chip may be. `specs/Limits` has the same numbers for clauses.

/// The most cells that a chip may have, repeaters included.
pub const CELL_LIMIT: u64 = 2_000_000;
/// The most elements that the top structure of a layout may have.
pub const ELEMENT_LIMIT: u64 = 2_000_000;
/// Every slot that a cell takes has a lower number, counted from the left end of its row.
pub const SLOT_LIMIT: u64 = 2_147_483_647;
/// The greatest width of a row, in nanometres.
pub const WIDTH_LIMIT: u64 = 2_000_000_000;
/// The greatest height of the rows with their channels, in nanometres.
pub const HEIGHT_LIMIT: u64 = 2_147_483_647;
