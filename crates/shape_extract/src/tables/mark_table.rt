// The table of labels: which shapes labels mark, found label by label.
ghost use Rattle.std.specs.Prelude.{◌≡◌, ℕ, ◌^◌, ◌<◌, length, slice_index, IfOk};
ghost use Rattle.geom.specs.FlatForm.{flat_count};
ghost use Rattle.shape_extract.specs.Code.Marking.{with_label, has_label, has_one, label_in, AreMarks, IsNoted};
ghost use Rattle.shape_extract.specs.Filed.{IsFiled};

use crate::filed_shapes::FiledShapes;
use crate::tables::marking::list_marked;
use aq_base::Memory;
use geom::Flat;
use std::alloc::Global;

/// Which labels mark a shape.
#[derive(Clone, Copy, PartialEq, Eq)]
pub enum Mark {
    /// None.
    Unmarked,
    /// The label of this number alone.
    Once(u32),
    /// Several; the number is that of the last.
    Often(u32),
}

impl Mark {
    /// The mark with one more label, of this number.
    fn with(self, label: u32) -> Mark
        ensures { result ≡ with_label self label }
    {
        match self {
            Mark::Unmarked => Mark::Once(label),
            Mark::Once(_) => Mark::Often(label),
            Mark::Often(_) => Mark::Often(label),
        }
    }

    /// Whether some label marks the shape.
    pub fn has_label(self) -> bool
        ensures { result ≡ has_label self }
    {
        match self {
            Mark::Unmarked => false,
            Mark::Once(_) => true,
            Mark::Often(_) => true,
        }
    }

    /// Whether one label marks the shape.
    pub fn has_one(self) -> bool
        ensures { result ≡ has_one self }
    {
        match self {
            Mark::Unmarked => false,
            Mark::Once(_) => true,
            Mark::Often(_) => false,
        }
    }

    /// The number of a label that marks the shape.
    pub fn label(self) -> Option<u32>
        ensures { result ≡ label_in self }
    {
        match self {
            Mark::Unmarked => None,
            Mark::Once(label) => Some(label),
            Mark::Often(label) => Some(label),
        }
    }
}

/// Notes that the label of this number marks the shapes of these numbers.
fn note(marking: &mut [Mark], numbers: &[u32], label: u32)
    requires within { (k : ℕ) → k < length numbers.now → slice_index numbers.now k < length marking.old }
    requires rising { (j k : ℕ) → j < k → k < length numbers.now
        → slice_index numbers.now j < slice_index numbers.now k }
    ensures { IsNoted label numbers.now marking.old marking.new }
{
    for number in numbers {
        marking[*number as usize] = marking[*number as usize].with(label);
    }
}

/// For each shape which labels mark it, by a query of the index for each label. It is refused for want of memory alone.
pub fn mark_table(alloc: Global, flat: &Flat, filed: &FiledShapes) -> Result<Vec<Mark>, Memory>
    requires few { flat_count flat.now < 2 ^ 32 }
    requires filed { IsFiled flat.now.shapes filed.now }
    ensures { IfOk result (λ marking. AreMarks flat.now.shapes flat.now.labels marking.items) }
{
    let shapes = flat.shapes.as_slice();
    let mut found = Vec::new(alloc);
    let mut marking = vec![in alloc; Mark::Unmarked; shapes.len()]?;
    for (place, label) in flat.labels.as_slice().iter().enumerate() {
        list_marked(shapes, filed, label, &mut found)?;
        note(&mut marking, found.as_slice(), place as u32);
    }
    Ok(marking)
}
