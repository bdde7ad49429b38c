// Which shapes touch: those that conduct to each other and share a point.
ghost use Rattle.std.specs.Prelude.{◌≡◌};
ghost use Rattle.layout_rules.specs.Touch.{conducts, touch};

use crate::layers::{is_lower, is_upper, is_via};
use geom::{Shape, touches};

fn conducts(a: &Shape, b: &Shape) -> bool
    ensures { result ≡ conducts a.now b.now }
{
    (is_lower(a) && is_lower(b))
        || (is_upper(a) && is_upper(b))
        || (is_via(a) && (is_lower(b) || is_upper(b)))
        || (is_via(b) && (is_lower(a) || is_upper(a)))
}

/// Whether the two conduct to each other and share a point.
pub fn touch(a: &Shape, b: &Shape) -> bool
    ensures { result ≡ touch a.now b.now }
{
    conducts(a, b) && touches(&a.rect, &b.rect)
}
