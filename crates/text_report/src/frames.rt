// The outline of a chip, from the frames of its cells.
ghost use Rattle.std.specs.Prelude.{◌≡◌};
ghost use Rattle.text_report.specs.Outline.{joined, holding, outline, side};
ghost use Rattle.geom.specs.Rectangle.{width, height};

use geom::{Rect, Shape, height, width};
use shape_extract::is_frame;

fn joined(a: &Rect, b: &Rect) -> Rect
    ensures { result ≡ joined a.now b.now }
{
    a.known();
    b.known();
    Rect {
        x0: a.x0.min(b.x0),
        y0: a.y0.min(b.y0),
        x1: a.x1.max(b.x1),
        y1: a.y1.max(b.y1),
    }
}

fn holding(outline: Option<Rect>, shape: &Shape) -> Option<Rect>
    ensures { result ≡ holding outline shape.now }
{
    match outline {
        None => Some(shape.rect),
        Some(rect) => Some(joined(&rect, &shape.rect)),
    }
}

/// The least rectangle that holds all frames among the shapes.
pub fn outline(shapes: &[Shape]) -> Option<Rect>
    ensures { result ≡ outline shapes.now }
{
    let mut held = None;
    for shape in shapes {
        if is_frame(shape) {
            held = holding(held, shape);
        }
    }
    held
}

/// The width of a rectangle that may be there, or 0.
pub fn width_of(outline: &Option<Rect>) -> u64
    ensures { result ≡ side width outline.now }
{
    match outline {
        None => 0,
        Some(rect) => width(rect),
    }
}

/// The height of a rectangle that may be there, or 0.
pub fn height_of(outline: &Option<Rect>) -> u64
    ensures { result ≡ side height outline.now }
{
    match outline {
        None => 0,
        Some(rect) => height(rect),
    }
}
