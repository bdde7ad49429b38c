// Surveys: how many rectangles of like size there are, and where. A grid is laid out by one.
ghost use Rattle.std.specs.Prelude.{◌≡◌, ◌+◌, ◌<◌, ◌≤◌, ◌^◌, All, IfOk};
ghost use Rattle.geom.specs.Code.Grids.{AreGrids, end_of};

use crate::index::grid::{Grid, MOST_COLUMNS, MOST_ROWS, reached};
use crate::index::spots::Spots;
use crate::rectangle::{Rect, height, width};
use aq_base::Memory;
use std::alloc::Global;

/// Up to this length a side counts as short: pins, vias, and the width of wires.
const SHORT: u64 = 4_096;
/// Up to this length a side counts as middling: wires and cells. Beyond lie the bars of excitation lines.
const MIDDLING: u64 = 1_048_576;
/// Three kinds of width, each with three kinds of height.
const KINDS: usize = 9;

/// Rectangles of one kind: how many, between which lower left corners, and their greatest width and height.
#[derive(Clone, Copy)]
struct Survey {
    count: u64,
    left: i64,
    bottom: i64,
    right: i64,
    top: i64,
    widest: u64,
    highest: u64,
}

/// How many columns and rows a grid has, and how wide and high its cells are, as powers of 2.
#[derive(Clone, Copy)]
struct Lines {
    columns: u64,
    rows: u64,
    shift_x: u32,
    shift_y: u32,
    ghost some_columns: { 0 < columns },
    ghost some_rows: { 0 < rows },
    ghost few_columns: { columns ≤ 2 ^ 16 },
    ghost few_rows: { rows ≤ 2 ^ 11 },
    ghost short_x: { shift_x < 64 },
    ghost short_y: { shift_y < 64 },
}

/// Which of the three kinds a side of this length has.
fn kind_of_side(side: u64) -> usize
    ensures { result < 3 }
{
    if side <= SHORT {
        0
    } else if side <= MIDDLING {
        1
    } else {
        2
    }
}

/// Which of the nine kinds the rectangle has, by its width and its height.
fn kind_of(rect: &Rect) -> usize
    ensures { result < 9 }
{
    3 * kind_of_side(width(rect)) + kind_of_side(height(rect))
}

/// How many lines of this width cover the spread and one line more on either side, but no more than the most.
fn line_count(spread: u64, shift: u32, most: u64) -> u64
    requires shift { shift < 64 }
    requires some { 3 ≤ most }
    requires few { most ≤ 2 ^ 16 }
    ensures some { 0 < result }
    ensures few { result ≤ most }
{
    (spread >> shift).min(most - 3) + 3
}

/// The edge of the first line, where the first line but one begins here: no corner stands in the first line, nor in the
/// last, so a query beyond all of them reads nothing.
fn edge_before(start: i64, shift: u32) -> i64 {
    start.saturating_sub(1i64 << shift.min(62))
}

/// How many bits the number has.
fn bit_count(number: u64) -> u32
    ensures { result < 64 }
{
    (64 - number.leading_zeros()).min(63)
}

/// The least width of lines, as a power of 2, that is above the length and for which the spread has no more lines than
/// the most.
fn shift_for(spread: u64, length: u64, most: u64) -> u32
    requires { 0 < most }
    ensures { result < 64 }
{
    bit_count(length).max(bit_count(spread / most))
}

/// Lines over the spread, wider and higher than asked for until there are no more cells than the most.
fn lay_out(spread_x: u64, spread_y: u64, shift_x: u32, shift_y: u32, most_cells: u64) -> Lines
    requires short_x { shift_x < 64 }
    requires short_y { shift_y < 64 }
{
    let mut shift_x = shift_x;
    let mut shift_y = shift_y;
    let mut columns = line_count(spread_x, shift_x, MOST_COLUMNS);
    let mut rows = line_count(spread_y, shift_y, MOST_ROWS);
    for _ in 0..32 {
        if columns * rows <= most_cells {
            break;
        }
        if columns > rows {
            shift_x = (shift_x + 1).min(63);
            columns = line_count(spread_x, shift_x, MOST_COLUMNS);
        } else {
            shift_y = (shift_y + 1).min(63);
            rows = line_count(spread_y, shift_y, MOST_ROWS);
        }
    }
    Lines {
        columns,
        rows,
        shift_x,
        shift_y,
    }
}

impl Survey {
    /// The survey of no rectangle.
    fn new() -> Self {
        Survey {
            count: 0,
            left: i64::MAX,
            bottom: i64::MAX,
            right: i64::MIN,
            top: i64::MIN,
            widest: 0,
            highest: 0,
        }
    }

    /// The survey with one more rectangle.
    fn with(&self, rect: &Rect) -> Self {
        Survey {
            count: self.count.saturating_add(1),
            left: self.left.min(rect.x0),
            bottom: self.bottom.min(rect.y0),
            right: self.right.max(rect.x0),
            top: self.top.max(rect.y0),
            widest: self.widest.max(width(rect)),
            highest: self.highest.max(height(rect)),
        }
    }

    /// The grid for these rectangles, of at most about one cell for each. Cells are wider than a quarter of the widest
    /// and higher than the highest: the cells of a row that a query reads are one range, so narrow ones cost nothing.
    fn grid(&self, first: usize) -> Grid
        requires { first ≤ 2 ^ 31 }
        ensures { result.first ≡ first }
    {
        let spread_x = self.left.abs_diff(self.right);
        let spread_y = self.bottom.abs_diff(self.top);
        let lines = lay_out(
            spread_x,
            spread_y,
            shift_for(spread_x, self.widest / 4, MOST_COLUMNS),
            shift_for(spread_y, self.highest, MOST_ROWS),
            self.count.saturating_add(9),
        );
        let left = edge_before(self.left, lines.shift_x);
        let bottom = edge_before(self.bottom, lines.shift_y);
        Grid {
            first,
            columns: lines.columns as usize,
            rows: lines.rows as usize,
            left,
            bottom,
            shift_x: lines.shift_x,
            shift_y: lines.shift_y,
            reach_x: self.widest,
            reach_y: self.highest,
            reached_x: reached(left, self.widest),
            reached_y: reached(bottom, self.highest),
        }
    }
}

/// The grid of a single cell, in which every rectangle may stand.
fn grid_for_all(first: usize) -> Grid
    requires { first ≤ 2 ^ 31 }
    ensures first { result.first ≡ first }
    ensures wide { 2 ^ 64 ≤ result.reach_x + 1 }
    ensures high { 2 ^ 64 ≤ result.reach_y + 1 }
{
    Grid {
        first,
        columns: 1,
        rows: 1,
        left: 0,
        bottom: 0,
        shift_x: 0,
        shift_y: 0,
        reach_x: u64::MAX,
        reach_y: u64::MAX,
        reached_x: reached(0, u64::MAX),
        reached_y: reached(0, u64::MAX),
    }
}

/// A survey of each kind.
fn surveys(spots: &Spots) -> [Survey; KINDS] {
    let mut surveys = [Survey::new(); KINDS];
    for place in 0..spots.len() {
        let rect = spots.at(place).rect;
        let kind = kind_of(&rect);
        surveys[kind] = surveys[kind].with(&rect);
    }
    surveys
}

/// Grids for the rectangles, one for each kind that there is. In the last, any rectangle may stand.
pub fn grids_for(alloc: Global, spots: &Spots) -> Result<Vec<Grid>, Memory>
    ensures { IfOk result (λ grids. AreGrids grids.items) }
{
    let mut grids = Vec::new(alloc);
    let mut first = 0;
    for survey in surveys(spots) {
        if survey.count > 0 {
            let grid = survey.grid(first);
            first = grid.end();
            grids.push(grid)?;
        }
    }
    grids.push(grid_for_all(first))?;
    Ok(grids)
}

/// How many cells the grids have together.
pub fn cell_count(grids: &[Grid]) -> usize
    requires { AreGrids grids.now }
    ensures all { All (λ g. end_of g ≤ result) grids.now }
    ensures few { result < 2 ^ 32 }
{
    grids[grids.len() - 1].end()
}
