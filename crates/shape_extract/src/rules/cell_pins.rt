// The kind that a frame names, and the pins that a cell of this kind is to have.
ghost use Rattle.std.specs.Prelude.{◌≡◌, ◌<◌, ℕ, length, count_by, slice_index};
ghost use Rattle.shape_extract.specs.Searches.{SaysWhether};
ghost use Rattle.shape_extract.specs.Code.Cells.{
  IsKindNumbered,
  is_marked,
  is_marked_at,
  AreBelow,
  AreOneOfEach,
  AreNumbered,
};

use circuit::CellKind;
use geom::Shape;

/// The kind that a frame's datatype names.
pub fn kind_numbered(number: u16) -> Option<CellKind>
    ensures { IsKindNumbered number result }
{
    match number {
        1 => Some(CellKind::Buffer),
        2 => Some(CellKind::Inverter),
        3 => Some(CellKind::Zero),
        4 => Some(CellKind::One),
        5 => Some(CellKind::Split2),
        6 => Some(CellKind::Split3),
        7 => Some(CellKind::Majority),
        _ => None,
    }
}

/// Whether the shape is on the layer and has the datatype.
pub fn is_marked(s: &Shape, layer: u16, datatype: u32) -> bool
    ensures { result ≡ is_marked layer datatype s.now }
{
    s.layer == layer && u32::from(s.datatype) == datatype
}

/// How many of these shapes are on the layer and have the datatype.
fn count_marked(shapes: &[Shape], numbers: &[u32], layer: u16, datatype: u32) -> usize
    requires { (p : ℕ) → p < length numbers.now → slice_index numbers.now p < length shapes.now }
    ensures { result ≡ count_by (is_marked_at shapes.now layer datatype) numbers.now }
{
    let mut count: usize = 0;
    for number in numbers {
        if is_marked(&shapes[*number as usize], layer, datatype) {
            count += 1;
        }
    }
    count
}

/// Whether each of these shapes that is on the layer has a datatype below n.
fn all_below(shapes: &[Shape], numbers: &[u32], layer: u16, n: u32) -> bool
    requires { (p : ℕ) → p < length numbers.now → slice_index numbers.now p < length shapes.now }
    ensures { SaysWhether result (AreBelow shapes.now numbers.now layer n) }
{
    for number in numbers {
        let shape = &shapes[*number as usize];
        if shape.layer == layer && u32::from(shape.datatype) >= n {
            return false;
        }
    }
    true
}

/// Whether of each datatype below n one of these shapes is on the layer.
fn one_of_each(shapes: &[Shape], numbers: &[u32], layer: u16, n: u32) -> bool
    requires { (p : ℕ) → p < length numbers.now → slice_index numbers.now p < length shapes.now }
    ensures { SaysWhether result (AreOneOfEach shapes.now numbers.now layer n) }
{
    for datatype in 0..n {
        if count_marked(shapes, numbers, layer, datatype) != 1 {
            return false;
        }
    }
    true
}

/// Whether the datatypes that these shapes have on the layer are those below n, each once.
pub fn are_numbered(shapes: &[Shape], numbers: &[u32], layer: u16, n: u32) -> bool
    requires { (p : ℕ) → p < length numbers.now → slice_index numbers.now p < length shapes.now }
    ensures { SaysWhether result (AreNumbered shapes.now numbers.now layer n) }
{
    all_below(shapes, numbers, layer, n) && one_of_each(shapes, numbers, layer, n)
}
