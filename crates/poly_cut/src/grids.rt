// The points of grids.
ghost use Rattle.std.specs.Prelude.{◌≡◌, ◌^◌, ◌*◌, ◌<◌, ◌++◌, ◌+ℤ◌, ◌*ℤ◌, pos, Some, slice_get, IfOk, OnOk};
ghost use Rattle.poly_cut.specs.Turns.{row_points, grid_points};
ghost use Rattle.poly_cut.specs.Bounds.{IsAtMost, IsNear};
ghost use Rattle.poly_cut.specs.Conditions.{IsGrid, far};
ghost use Rattle.poly_cut.specs.Code.Strides.{IsRow};

use crate::layout::{Grid, Point};
use crate::turns::added;
use aq_base::Memory;
use std::alloc::Global;

/// Adds the points of a row.
fn push_row(
    points: &mut Vec<Point>,
    start: &Point,
    step: &Point,
    columns: u16,
) -> Result<(), Memory>
    requires { IsRow columns step.now start.now }
    ensures { OnOk result (points.new.items ≡ points.old.items ++ row_points columns step.now start.now) }
{
    let mut at = *start;
    let mut left = columns;
    'columns: while left > 0 {
        points.push(at)?;
        at = added(&at, step);
        left -= 1;
    }
    Ok(())
}

/// The points of a grid: row by row, and each from its first column on.
pub fn grid_points(alloc: Global, at: &Point, grid: &Grid) -> Result<Vec<Point>, Memory>
    requires { IsGrid at.now grid.now }
    ensures { IfOk result (λ points. points.items ≡ grid_points at.now grid.now) }
{
    let mut points = Vec::new(alloc);
    let mut row = *at;
    let mut left = grid.rows;
    'rows: while left > 0 {
        push_row(&mut points, &row, &grid.column_step, grid.columns)?;
        row = added(&row, &grid.row_step);
        left -= 1;
    }
    Ok(points)
}

/// The coordinate so many steps on.
fn along(from: i64, step: i64, steps: u64) -> i64
    requires few { steps < 2 ^ 15 }
    requires from { IsAtMost (2 ^ 56) from }
    requires step { IsAtMost (2 ^ 40) step }
    ensures { result ≡ from +ℤ pos steps *ℤ step }
{
    from + steps as i64 * step
}

/// The point so many steps on.
fn far(point: &Point, step: &Point, steps: u64) -> Point
    requires few { steps < 2 ^ 15 }
    requires point { IsNear (2 ^ 56) point.now }
    requires step { IsNear (2 ^ 40) step.now }
    ensures { result ≡ far steps step.now point.now }
{
    Point {
        x: along(point.x, step.x, steps),
        y: along(point.y, step.y, steps),
    }
}

/// The point of a number in a grid.
pub fn grid_point(at: &Point, grid: &Grid, number: u64) -> Point
    requires grid { IsGrid at.now grid.now }
    requires within { number < grid.now.rows * grid.now.columns }
    ensures { slice_get (grid_points at.now grid.now) number ≡ Some result }
{
    let columns = grid.columns as u64;
    let row = far(at, &grid.row_step, number / columns);
    far(&row, &grid.column_step, number % columns)
}
