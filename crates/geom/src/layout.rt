// Layouts, as a stream of the GDSII Stream Format holds them.
use crate::shapes::{Label, Shape};
use aq_base::{Bytes, List};

/// An element of a structure. Coordinates are in database units of one nanometre.
#[derive(Clone, Drop, PartialEq)]
pub enum Element {
    /// A boundary that is a rectangle.
    Box(Shape),
    /// A reference: what the structure of this number holds, moved by the point.
    Place { structure: u32, x: i64, y: i64 },
    /// A text.
    Text(Label),
}

/// A structure: a name and the elements under it.
#[derive(Clone, Drop, PartialEq)]
pub struct Structure {
    pub name: Bytes,
    pub elements: List<Element>,
}

/// The structures of a stream in order, and the number of the top, which no structure refers to. Structures are
/// numbered from 0.
#[derive(Clone, Drop, PartialEq)]
pub struct Layout {
    pub structures: List<Structure>,
    pub top: u32,
}
