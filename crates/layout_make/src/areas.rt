// Rectangles right of and above the origin, and the shapes that fill them.
ghost use Rattle.std.specs.Prelude.{◌≡◌, ◌+◌, ◌-◌, ◌*◌, ◌/◌, ◌<◌, ◌≤◌, ◌^◌};
ghost use Rattle.cell_library.specs.Laws.{IsLibrary};
ghost use Rattle.layout_make.specs.Sheet.{centre, upright, square, rise_area, fall_area, across_area};
ghost use Rattle.layout_make.specs.Code.Boxes.{boxed};

use cell_library::Library;
use geom::{Element, Rect, Shape};

/// A rectangle whose corners have no negative coordinates, in nanometres.
#[derive(Clone, Copy, PartialEq, Eq)]
pub(crate) struct Area {
    pub(crate) left: u64,
    pub(crate) low: u64,
    pub(crate) right: u64,
    pub(crate) high: u64,
}

/// The rectangle as a shape of a layer.
pub(crate) fn boxed(layer: u16, datatype: u16, area: Area) -> Element
    requires wide { area.left < area.right }
    requires high { area.low < area.high }
    requires right { area.right < 2 ^ 62 }
    requires above { area.high < 2 ^ 62 }
    ensures { result ≡ boxed layer datatype area }
{
    Element::Box(Shape {
        layer,
        datatype,
        rect: Rect {
            x0: area.left as i64,
            y0: area.low as i64,
            x1: area.right as i64,
            y1: area.high as i64,
        },
    })
}

/// The centre of a column.
#[tactic(auto, unfolding(crate::specs::Sheet::centre))]
pub(crate) fn centre(library: &Library, column: u32) -> u64
    ensures value { result ≡ centre library.now column }
    ensures small { result < 2 ^ 53 }
{
    library.known();
    u64::from(column) * library.pitch() + library.pitch() / 2
}

/// A strip as wide as a wire, centred on a column.
pub(crate) fn upright(library: &Library, column: u32, low: u64, high: u64) -> Area
    ensures value { result ≡ upright library.now column low high }
    ensures small { result.right < 2 ^ 62 }
{
    library.known();
    let x = centre(library, column);
    let half = library.wire() / 2;
    Area {
        left: x.saturating_sub(half),
        low,
        right: x + half,
        high,
    }
}

/// A via on a column, at this height.
pub(crate) fn square(library: &Library, column: u32, y: u64) -> Area
    requires { y < 2 ^ 60 }
    ensures value { result ≡ square library.now column y }
    ensures small { result.right < 2 ^ 62 }
{
    library.known();
    let x = centre(library, column);
    let half = library.via() / 2;
    Area {
        left: x.saturating_sub(half),
        low: y.saturating_sub(half),
        right: x + half,
        high: y + half,
    }
}

/// The metal up from an output pin of the row with this lower edge to a bend.
pub(crate) fn rise_area(library: &Library, row: u64, column: u32, bend: u64) -> Area
    requires row { row < 2 ^ 60 }
    requires bend { bend < 2 ^ 60 }
    ensures value { result ≡ rise_area library.now row column bend }
    ensures small { result.right < 2 ^ 62 }
{
    library.known();
    let low = (row + library.height()).saturating_sub(library.pin());
    upright(library, column, low, bend + library.wire() / 2)
}

/// The metal from a bend up to an input pin of the row with this lower edge.
pub(crate) fn fall_area(library: &Library, row: u64, column: u32, bend: u64) -> Area
    requires row { row < 2 ^ 60 }
    requires bend { bend < 2 ^ 60 }
    ensures value { result ≡ fall_area library.now row column bend }
    ensures small { result.right < 2 ^ 62 }
{
    library.known();
    let low = bend.saturating_sub(library.wire() / 2);
    upright(library, column, low, row + library.pin())
}

/// The metal across from one column to another.
pub(crate) fn across_area(library: &Library, from: u32, to: u32, bend: u64) -> Area
    requires { bend < 2 ^ 60 }
    ensures value { result ≡ across_area library.now from to bend }
    ensures wide { result.left < result.right }
    ensures small { result.right < 2 ^ 62 }
{
    library.known();
    let half = library.wire() / 2;
    Area {
        left: centre(library, from.min(to)).saturating_sub(half),
        low: bend.saturating_sub(half),
        right: centre(library, from.max(to)) + half,
        high: bend + half,
    }
}
