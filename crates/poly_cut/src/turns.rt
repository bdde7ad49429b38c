// Shapes, labels and points that are turned and moved.
ghost use Rattle.std.specs.Prelude.{◌≡◌, ◌<◌, ◌^◌, IfOk};
ghost use Rattle.poly_cut.specs.Turns.{mirrored, quarter, turned, mirrored_point, quarter_point, turned_point, added};
ghost use Rattle.poly_cut.specs.Turns.{placed_shape, placed_label};
ghost use Rattle.poly_cut.specs.Bounds.{IsWithin, IsShapeWithin, IsLabelWithin, IsNear};
ghost use Rattle.geom.specs.Rectangle.{moved};

use crate::layout::{Point, Turn};
use aq_base::Memory;
use geom::{Label, Rect, Shape};

/// The rectangle, mirrored at the x axis.
fn mirrored(rect: &Rect) -> Rect
    requires { IsWithin (2 ^ 40) rect.now }
    ensures { result ≡ mirrored rect.now }
{
    rect.known();
    Rect {
        x0: rect.x0,
        y0: -rect.y1,
        x1: rect.x1,
        y1: -rect.y0,
    }
}

/// The rectangle, turned by a quarter counterclockwise.
fn quarter(rect: &Rect) -> Rect
    requires { IsWithin (2 ^ 40) rect.now }
    ensures { result ≡ quarter rect.now }
{
    rect.known();
    Rect {
        x0: -rect.y1,
        y0: rect.x0,
        x1: -rect.y0,
        y1: rect.x1,
    }
}

/// The rectangle, moved.
fn moved(rect: &Rect, by: &Point) -> Rect
    requires rect { IsWithin (2 ^ 40) rect.now }
    requires by { IsNear (2 ^ 40) by.now }
    ensures { result ≡ moved by.now.x by.now.y rect.now }
{
    rect.known();
    Rect {
        x0: rect.x0 + by.x,
        y0: rect.y0 + by.y,
        x1: rect.x1 + by.x,
        y1: rect.y1 + by.y,
    }
}

/// The rectangle, mirrored where that is asked for, and then turned by each quarter.
fn turned(rect: &Rect, turn: &Turn) -> Rect
    requires rect { IsWithin (2 ^ 40) rect.now }
    requires turn { turn.now.quarter < 4 }
    ensures { result ≡ turned turn.now rect.now }
{
    let mut turned = if turn.mirror { mirrored(rect) } else { *rect };
    let mut quarters: u8 = 0;
    'quarters: while quarters < turn.quarter {
        turned = quarter(&turned);
        quarters += 1;
    }
    turned
}

/// The shape, turned and then moved by the point.
pub fn placed_shape(shape: &Shape, turn: &Turn, by: &Point) -> Shape
    requires shape { IsShapeWithin (2 ^ 40) shape.now }
    requires turn { turn.now.quarter < 4 }
    requires by { IsNear (2 ^ 40) by.now }
    ensures { result ≡ placed_shape turn.now by.now shape.now }
{
    Shape {
        layer: shape.layer,
        datatype: shape.datatype,
        rect: moved(&turned(&shape.rect, turn), by),
    }
}

/// The point, mirrored at the x axis.
fn mirrored_point(point: &Point) -> Point
    requires { IsNear (2 ^ 40) point.now }
    ensures { result ≡ mirrored_point point.now }
{
    Point {
        x: point.x,
        y: -point.y,
    }
}

/// The point, turned by a quarter counterclockwise about the origin.
fn quarter_point(point: &Point) -> Point
    requires { IsNear (2 ^ 40) point.now }
    ensures { result ≡ quarter_point point.now }
{
    Point {
        x: -point.y,
        y: point.x,
    }
}

/// The point, mirrored where that is asked for, and then turned by each quarter.
fn turned_point(point: &Point, turn: &Turn) -> Point
    requires turn { turn.now.quarter < 4 }
    requires point { IsNear (2 ^ 40) point.now }
    ensures { result ≡ turned_point turn.now point.now }
{
    let mut turned = if turn.mirror {
        mirrored_point(point)
    } else {
        *point
    };
    let mut quarters: u8 = 0;
    'quarters: while quarters < turn.quarter {
        turned = quarter_point(&turned);
        quarters += 1;
    }
    turned
}

/// The sum of two vectors.
pub fn added(point: &Point, by: &Point) -> Point
    requires point { IsNear (2 ^ 40) point.now }
    requires by { IsNear (2 ^ 40) by.now }
    ensures { result ≡ added point.now by.now }
{
    Point {
        x: point.x + by.x,
        y: point.y + by.y,
    }
}

/// The label, its point turned and then moved by the other.
pub fn placed_label(label: &Label, turn: &Turn, by: &Point) -> Result<Label, Memory>
    requires label { IsLabelWithin (2 ^ 40) label.now }
    requires turn { turn.now.quarter < 4 }
    requires by { IsNear (2 ^ 40) by.now }
    ensures { IfOk result (λ l. l ≡ placed_label turn.now by.now label.now) }
{
    let at = Point {
        x: label.x,
        y: label.y,
    };
    let place = added(&turned_point(&at, turn), by);
    Ok(Label {
        layer: label.layer,
        x: place.x,
        y: place.y,
        text: label.text.clone()?,
    })
}
