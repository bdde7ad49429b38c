// Grids: the lower left corners of rectangles of like size stand in the cells of one.
ghost use Rattle.std.specs.Prelude.{◌≡◌, ℕ, ◌+◌, ◌<◌, ◌≤◌, ◌^◌, ◌↔◌, ◌-ℤ◌, IsTrue};
ghost use Rattle.geom.specs.Code.Zones.{IsReached};

use crate::index::zone::Zone;
use crate::rectangle::{Rect, excess};

/// The most columns that a grid has.
pub const MOST_COLUMNS: u64 = 65_536;
/// The most rows that a grid has: a query of a high rectangle goes to each of them.
pub const MOST_ROWS: u64 = 2_048;

/// Cells in columns and rows, numbered row by row from the first on; all lengths are in nanometres. Corners to the left
/// of the grid count to its first column, those to the right to its last; so do those below and above to its rows.
#[derive(Clone, Copy, PartialEq, Eq)]
pub struct Grid {
    /// The number of its first cell.
    pub first: usize,
    pub columns: usize,
    pub rows: usize,
    /// The left edge of the first column.
    pub left: i64,
    /// The lower edge of the first row.
    pub bottom: i64,
    /// A cell is as wide as 2 to this power.
    pub shift_x: u32,
    /// A cell is as high as 2 to this power.
    pub shift_y: u32,
    /// The width of the widest rectangle, and the height of the highest, that may stand in it.
    pub reach_x: u64,
    pub reach_y: u64,
    /// How far those can reach that stand at the left edge, and at the lower edge.
    pub reached_x: i64,
    pub reached_y: i64,

    ghost some_columns: { 0 < columns },
    ghost some_rows: { 0 < rows },
    ghost few_columns: { columns ≤ 2 ^ 16 },
    ghost few_rows: { rows ≤ 2 ^ 11 },
    ghost few_before: { first ≤ 2 ^ 31 },
    ghost short_x: { shift_x < 64 },
    ghost short_y: { shift_y < 64 },
    ghost reached_x_so: { IsReached reached_x left reach_x },
    ghost reached_y_so: { IsReached reached_y bottom reach_y },
}

/// Columns from the left one to the right one, and rows from the low one to the high one.
#[derive(Clone, Copy)]
pub struct Window {
    pub left: usize,
    pub right: usize,
    pub low: usize,
    pub high: usize,
}

/// How far a side of this length reaches from the edge, or the greatest number where that is further.
pub fn reached(edge: i64, reach: u64) -> i64
    ensures { IsReached result edge reach }
{
    match edge.checked_add_unsigned(reach) {
        Some(end) => end,
        None => i64::MAX,
    }
}

/// The number's lower 16 bits, each with a 0 above it.
fn every_other_bit(number: u32) -> u32 {
    let bytes = (number | number << 8) & 0x00FF_00FF;
    let halves = (bytes | bytes << 4) & 0x0F0F_0F0F;
    let pairs = (halves | halves << 2) & 0x3333_3333;
    (pairs | pairs << 1) & 0x5555_5555
}

impl Grid {
    ghost use Rattle.geom.specs.Rectangle.{positive_part};
    ghost use Rattle.geom.specs.Code.Grids.{column_at, row_at, cell_in, cell_of, end_of, Reaches};
    ghost use Rattle.geom.specs.Code.Windows.{IsWindow};

    /// The column that is this far right of the left edge.
    pub fn column_at(&self, offset: u64) -> usize
        ensures value { result ≡ column_at self.now offset }
        ensures within { result < self.now.columns }
        ensures first { (at : ℕ) → offset ≤ at → result ≤ column_at self.now at }
        ensures last { (at : ℕ) → at ≤ offset → column_at self.now at ≤ result }
    {
        let column = (offset >> self.shift_x) as usize;
        column.min(self.columns - 1)
    }

    /// The row that is this far above the lower edge.
    pub fn row_at(&self, offset: u64) -> usize
        ensures value { result ≡ row_at self.now offset }
        ensures within { result < self.now.rows }
        ensures first { (at : ℕ) → offset ≤ at → result ≤ row_at self.now at }
        ensures last { (at : ℕ) → at ≤ offset → row_at self.now at ≤ result }
    {
        let row = (offset >> self.shift_y) as usize;
        row.min(self.rows - 1)
    }

    /// How far the coordinate is right of the left edge.
    pub fn right_of(&self, x: i64) -> u64
        ensures { result ≡ positive_part (x -ℤ self.now.left) }
    {
        excess(x, self.left)
    }

    /// How far the coordinate is above the lower edge.
    pub fn above(&self, y: i64) -> u64
        ensures { result ≡ positive_part (y -ℤ self.now.bottom) }
    {
        excess(y, self.bottom)
    }

    /// The number of the cell in this row and column.
    pub fn cell_in(&self, row: usize, column: usize) -> usize
        requires row { row < self.now.rows }
        requires column { column < self.now.columns }
        ensures value { result ≡ cell_in self.now row column }
        ensures within { result < end_of self.now }
    {
        self.first + row * self.columns + column
    }

    /// The number of the cell that the rectangle's lower left corner stands in.
    pub fn cell_of(&self, rect: &Rect) -> usize
        ensures value { result ≡ cell_of self.now rect.now }
        ensures within { result < end_of self.now }
        ensures few { result < 2 ^ 32 }
    {
        let row = self.row_at(self.above(rect.y0));
        let column = self.column_at(self.right_of(rect.x0));
        self.cell_in(row, column)
    }

    /// A number for the place of the rectangle's lower left corner in its cell: the bits of how far right it lies and
    /// of how far up, in turn (Morton's order). So rectangles with numbers from one to another lie together.
    pub fn order_of(&self, rect: &Rect) -> u32 {
        let right = self.right_of(rect.x0) >> self.shift_x.saturating_sub(16);
        let above = self.above(rect.y0) >> self.shift_y.saturating_sub(16);
        every_other_bit((right & 0xFFFF) as u32) | every_other_bit((above & 0xFFFF) as u32) << 1
    }

    /// Whether a rectangle of this width and height may stand in the grid.
    pub fn reaches(&self, wide: u64, high: u64) -> bool
        ensures { IsTrue result ↔ Reaches self.now wide high }
    {
        wide <= self.reach_x && high <= self.reach_y
    }

    /// The number after that of the last cell.
    pub fn end(&self) -> usize
        ensures value { result ≡ end_of self.now }
        ensures few { result < 2 ^ 32 }
    {
        self.first + self.rows * self.columns
    }

    /// Where the corners of those of its rectangles can be that are in the zone.
    pub fn window(&self, zone: &Zone) -> Window
        ensures { IsWindow self.now zone.now.rect zone.now.margin result }
    {
        Window {
            left: self.column_at(excess(zone.left, self.reached_x)),
            right: self.column_at(excess(zone.right, self.left)),
            low: self.row_at(excess(zone.bottom, self.reached_y)),
            high: self.row_at(excess(zone.top, self.bottom)),
        }
    }
}
