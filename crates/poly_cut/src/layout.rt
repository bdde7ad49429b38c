// Layouts as other tools write them: boundaries with right angles, paths, and references that are turned and repeated
// (GDSII Stream Format manual).
use crate::kept::Ring;
use aq_base::{Bytes, List};
use geom::Label;

/// A point: its coordinates, in nanometres.
#[derive(Clone, Copy, PartialEq, Eq)]
pub struct Point {
    pub x: i64,
    pub y: i64,
}

/// What an element draws.
#[derive(Clone, Drop, PartialEq)]
pub enum Figure {
    /// The corners of a boundary. Consecutive corners differ in at most one coordinate.
    Ring(Ring),
    /// The points at which a path begins, turns by a right angle, and ends. It is `half` wide to both sides, and goes
    /// `half` past its two ends where it is extended.
    Path {
        extended: bool,
        half: u32,
        points: List<Point>,
    },
}

/// A mirroring at the x axis, if asked for, and then so many quarter turns, fewer than four, counterclockwise.
#[derive(Clone, Copy, PartialEq, Eq)]
pub struct Turn {
    pub mirror: bool,
    pub quarter: u8,
}

/// The points at which a structure is repeated: `columns` by `rows` of them, each from 1 to 32,767. The steps are taken
/// as they stand, whatever the turn.
#[derive(Clone, Copy, PartialEq, Eq)]
pub struct Grid {
    pub columns: u16,
    pub rows: u16,
    pub column_step: Point,
    pub row_step: Point,
}

/// An element of a structure: a figure on a layer and datatype, a placement, or a label.
#[derive(Clone, Drop, PartialEq)]
pub enum Item {
    Draw {
        layer: u16,
        datatype: u16,
        figure: Figure,
    },
    /// What the structure of this number holds: turned, and then moved to the point and on to each point of the grid.
    Place {
        structure: u32,
        at: Point,
        turn: Turn,
        grid: Grid,
    },
    Text(Label),
}

/// A structure: a name and the elements under it.
#[derive(Clone, Drop, PartialEq)]
pub struct WideStructure {
    pub name: Bytes,
    pub items: List<Item>,
}

/// The structures of a stream in order, and the number of the top, which no structure refers to. Structures are
/// numbered from 0.
#[derive(Clone, Drop, PartialEq)]
pub struct WideLayout {
    pub structures: List<WideStructure>,
    pub top: u32,
}
