// The item that some records of a wide stream say.
ghost use Rattle.std.specs.Prelude.{◌≡◌, ℕ, ◌+◌, ◌<◌, ◌/◌, ◌==◌, ◌||◌, ◌-ℤ◌, pos, map, suc, nat_abs, int_div, true};
ghost use Rattle.std.specs.Prelude.{false, IfOk};
ghost use Rattle.gds_records.specs.declared.codes.TheConstants.{LAYER, DATATYPE, XY, PATHTYPE, WIDTH};
ghost use Rattle.gds_records.specs.Records.{number};
ghost use Rattle.gds_records.specs.Values.{unsigned_value};
ghost use Rattle.gds_records.specs.Drawing.{field, coordinate};
ghost use Rattle.gds_records.specs.WideValues.{Still as still, quarters, turns_from, turns, points};
ghost use Rattle.gds_records.specs.WideDrawing.{point_at, step, turn_of, grid_of, figure_of, item_of};
ghost use Rattle.poly_cut.specs.declared.layout.Item.TheVariants.{Draw};
ghost use Rattle.gds_read.specs.Code.Decoding.{IsSpelled, records_in};
ghost use Rattle.gds_read.specs.Code.Ways.{quarters_or_none};
ghost use Rattle.gds_read.specs.Code.Numbering.{IsNumbering};
ghost use Rattle.gds_read.specs.Code.Outlining.{names_in};

use crate::cursor::{field, has};
use crate::element::{label, named};
use crate::fields::{coordinate, is_number, narrow, number};
use crate::numbers::Numbers;
use crate::outline::NamedOutline;
use crate::points::points;
use crate::values::trimmed;
use crate::ways::turns;
use crate::wide_values::{columns, rows};
use aq_base::Memory;
use gds_records::codes::{
    ANGLE, AREF, BOUNDARY, COLROW, DATATYPE, LAYER, PATH, PATHTYPE, SNAME, SREF, STRANS, WIDTH, XY,
};
use poly_cut::{Figure, Grid, Item, Point, Ring, Turn};
use std::alloc::Global;

// The figure that records say.
fn figure(alloc: Global, part: &[u8]) -> Result<Figure, Memory>
    requires { IsSpelled part.now }
    ensures { IfOk result (λ figure. figure ≡ figure_of (records_in part.now)) }
{
    let points = points(alloc, field(part, XY))?;
    if has(part, BOUNDARY) {
        return Ok(Figure::Ring(Ring::new(alloc, points)?));
    }
    Ok(Figure::Path {
        extended: is_number(field(part, PATHTYPE), 2),
        half: narrow(field(part, WIDTH), 0).unsigned_abs() / 2,
        points: turns(alloc, points.as_slice())?,
    })
}

// The figure that records say, on its layer and datatype.
fn drawing(alloc: Global, part: &[u8]) -> Result<Item, Memory>
    requires { IsSpelled part.now }
    ensures { IfOk result (λ item. item ≡ Draw (number (field LAYER (records_in part.now)))
        (number (field DATATYPE (records_in part.now))) (figure_of (records_in part.now))) }
{
    Ok(Item::Draw {
        layer: number(field(part, LAYER)),
        datatype: number(field(part, DATATYPE)),
        figure: figure(alloc, part)?,
    })
}

// How many quarters an angle has: 0 where it is none of the four.
fn quarters_of(angle: &[u8]) -> u8
    ensures { result ≡ quarters_or_none (quarters angle.now) }
{
    if is_number(angle, 0) {
        0
    } else if is_number(angle, 0x425A_0000_0000_0000) {
        1
    } else if is_number(angle, 0x42B4_0000_0000_0000) {
        2
    } else if is_number(angle, 0x4310_E000_0000_0000) {
        3
    } else {
        0
    }
}

// How a reference is mirrored and turned.
fn turn(part: &[u8]) -> Turn
    requires { IsSpelled part.now }
    ensures { result ≡ turn_of (records_in part.now) }
{
    Turn {
        mirror: is_number(field(part, STRANS), 0x8000),
        quarter: quarters_of(field(part, ANGLE)),
    }
}

// The part of the way from a to b that so many equal steps have each, rounded toward a; none of no step.
fn step_along(count: u16, a: i32, b: i32) -> i64
    ensures { result ≡ int_div (b -ℤ a) (pos count) }
{
    if count == 0 {
        return 0;
    }
    (i64::from(b) - i64::from(a)) / i64::from(count)
}

// The step of a grid, from its first point to the one whose coordinates begin at number i.
fn grid_step(count: u16, xy: &[u8], i: usize) -> Point
    requires { i < 1000 }
    ensures x { result.x ≡ int_div (coordinate xy.now i -ℤ coordinate xy.now 0) (pos count) }
    ensures y { result.y ≡ int_div (coordinate xy.now (suc i) -ℤ coordinate xy.now 1) (pos count) }
{
    Point {
        x: step_along(count, narrow(xy, 0), narrow(xy, i)),
        y: step_along(count, narrow(xy, 1), narrow(xy, i + 1)),
    }
}

// The grid of a reference or an array.
fn grid(part: &[u8]) -> Grid
    requires { IsSpelled part.now }
    ensures { result ≡ grid_of (records_in part.now) }
{
    if !has(part, COLROW) {
        return Grid {
            columns: 1,
            rows: 1,
            column_step: Point { x: 0, y: 0 },
            row_step: Point { x: 0, y: 0 },
        };
    }
    let colrow = field(part, COLROW);
    let xy = field(part, XY);
    Grid {
        columns: columns(colrow),
        rows: rows(colrow),
        column_step: grid_step(columns(colrow), xy, 2),
        row_step: grid_step(rows(colrow), xy, 4),
    }
}

// The first point of an XY.
fn first_point(xy: &[u8]) -> Point
    ensures { result ≡ point_at xy.now 0 }
{
    Point {
        x: coordinate(xy, 0),
        y: coordinate(xy, 1),
    }
}

/// The item that records say.
pub fn item(
    alloc: Global,
    structures: &[NamedOutline<'_>],
    numbers: &Numbers<'_>,
    part: &[u8],
) -> Result<Item, Memory>
    requires spelled { IsSpelled part.now }
    requires numbers { IsNumbering numbers.now.entries (names_in structures.now) }
    ensures { IfOk result (λ item. item ≡ item_of (names_in structures.now) (records_in part.now)) }
{
    if has(part, BOUNDARY) || has(part, PATH) {
        return drawing(alloc, part);
    }
    let xy = field(part, XY);
    if has(part, SREF) || has(part, AREF) {
        let structure = named(structures, numbers, trimmed(field(part, SNAME)));
        return Ok(Item::Place {
            structure,
            at: first_point(xy),
            turn: turn(part),
            grid: grid(part),
        });
    }
    Ok(Item::Text(label(alloc, part, xy)?))
}
