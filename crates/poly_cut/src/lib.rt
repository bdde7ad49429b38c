//! Boundaries and paths cut into rectangles, and layouts with turned and repeated references flattened. Coordinates are
//! in database units of one nanometre.
#![tactic(auto)]

mod boxes;
mod closing;
mod counts;
mod cutting;
mod ends;
mod flat;
mod grids;
mod holding;
mod kept;
mod laws;
mod layout;
mod numbered;
mod ready;
mod slabs;
mod strokes;
mod turns;
mod walls;
mod windows;

pub use counts::{count_flat, has_squares};
pub use cutting::cut;
pub use flat::flatten_wide;
pub use kept::Ring;
pub use laws::{
    count_is_exact, flat_is_bounded, grids_are_near, rectangle_is_cut_whole, ring_is_covered,
    squares_are_turned, structure_is_covered,
};
pub use layout::{Figure, Grid, Item, Point, Turn, WideLayout, WideStructure};
pub use numbered::{Drawn, drawn_at};

#[cfg(test)]
mod tests;
