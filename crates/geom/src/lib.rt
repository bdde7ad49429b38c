//! Rectangles, shapes and layouts, in database units of one nanometre.
#![tactic(auto)]

mod index;
mod laws;
mod layout;
mod rectangle;
mod shapes;

pub use index::{Buckets, file_numbered, file_shapes};
pub use laws::{first_chip_flat, first_chip_is_writable};
pub use layout::{Element, Layout, Structure};
pub use rectangle::{
    Rect, gap_x, gap_y, height, holds_in_x, holds_point, is_within, overlaps, touches,
    touches_in_y, width,
};
pub use shapes::{Flat, Label, Shape};
