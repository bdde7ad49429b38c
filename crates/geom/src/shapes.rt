// Shapes and labels by themselves, as an extractor sees them.
use crate::rectangle::Rect;
use aq_base::{List, Text};

/// A rectangle on a layer.
#[derive(Clone, Copy, PartialEq, Eq)]
pub struct Shape {
    pub layer: u16,
    pub datatype: u16,
    pub rect: Rect,
}

/// A text at a point of a layer. Labels that repeat it share its bytes.
#[derive(Clone, Drop, PartialEq)]
pub struct Label {
    pub layer: u16,
    pub x: i64,
    pub y: i64,
    pub text: Text,
}

/// The shapes and labels of a layout without references, in element order: together fewer than 2^32.
#[derive(Clone, Drop, PartialEq)]
pub struct Flat {
    pub shapes: List<Shape>,
    pub labels: List<Label>,
}
