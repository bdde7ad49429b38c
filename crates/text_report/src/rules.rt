// What the rules say of a layout, as the report needs it.
ghost use Rattle.text_report.specs.Code.Sources.{HaveSides};

use geom::Shape;

/// What all shapes keep: each has a positive width and a positive height. It does nothing else.
pub fn known(shapes: &[Shape])
    ensures { HaveSides shapes.now }
{
    for shape in shapes {
        shape.rect.known();
    }
}
