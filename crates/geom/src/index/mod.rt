// An index over rectangles: which of a list are near one.
mod blocks;
mod buckets;
mod filing;
mod grid;
mod narrow;
mod spots;
mod survey;
mod zone;

pub use buckets::{Buckets, file_numbered, file_shapes};

#[cfg(test)]
mod tests;
