// The wires that leave each row, and the longest of them.
ghost use Rattle.std.specs.Prelude.{◌≡◌, ℕ, ◌<◌, ◌^◌, length, slice_get, slice_index, map, filter, zip, Some};
ghost use Rattle.text_report.specs.Wires.{greatest};
ghost use Rattle.text_report.specs.Code.Sources.{is_some_row, row_left};
ghost use Rattle.text_report.specs.Code.Tables.{AreCounts, AreGreatest};

use crate::sources::row_left;
use geom::Shape;

/// Counts for each row the wires that leave it. All counts are 0 before.
pub fn count_leaving(shapes: &[Shape], nets: &[u32], sources: &[Option<u32>], counts: &mut [u64])
    requires few { length shapes.now < 2 ^ 32 }
    requires long { length nets.now ≡ length shapes.now }
    requires nets { (i : ℕ) → i < length nets.now → slice_index nets.now i < length sources.now }
    requires rows { (net row : ℕ) → slice_get sources.now net ≡ Some (Some row) → row < length counts.old }
    requires none { (row : ℕ) → slice_index counts.old row ≡ 0 }
    ensures { AreCounts (row_left sources.now) (zip shapes.now nets.now) counts.new }
{
    for (n, shape) in shapes.iter().enumerate() {
        if let Some(row) = row_left(sources, shape, nets[n]) {
            counts[row as usize] += 1;
        }
    }
}

/// For each row the greatest length of the wires that leave it, by the lengths of nets. All are 0 before.
pub fn measure_leaving(
    shapes: &[Shape],
    nets: &[u32],
    sources: &[Option<u32>],
    lengths: &[u64],
    longest: &mut [u64],
)
    requires long { length nets.now ≡ length shapes.now }
    requires nets { (i : ℕ) → i < length nets.now → slice_index nets.now i < length sources.now }
    requires lengths { length lengths.now ≡ length sources.now }
    requires rows { (net row : ℕ) → slice_get sources.now net ≡ Some (Some row) → row < length longest.old }
    requires none { (row : ℕ) → slice_index longest.old row ≡ 0 }
    ensures { AreGreatest (row_left sources.now) (λ wire. slice_index lengths.now wire.1)
        (zip shapes.now nets.now) longest.new }
{
    for (n, shape) in shapes.iter().enumerate() {
        if let Some(row) = row_left(sources, shape, nets[n]) {
            let row = row as usize;
            longest[row] = longest[row].max(lengths[nets[n] as usize]);
        }
    }
}

/// The greatest length of all wires, by the lengths of nets.
pub fn longest_wire(shapes: &[Shape], nets: &[u32], sources: &[Option<u32>], lengths: &[u64]) -> u64
    requires long { length nets.now ≡ length shapes.now }
    requires nets { (i : ℕ) → i < length nets.now → slice_index nets.now i < length sources.now }
    requires lengths { length lengths.now ≡ length sources.now }
    ensures { result ≡ greatest (map (λ wire. slice_index lengths.now wire.1)
        (filter (λ wire. is_some_row (row_left sources.now wire)) (zip shapes.now nets.now))) }
{
    let mut longest: u64 = 0;
    for (n, shape) in shapes.iter().enumerate() {
        if row_left(sources, shape, nets[n]).is_some() {
            longest = longest.max(lengths[nets[n] as usize]);
        }
    }
    longest
}
