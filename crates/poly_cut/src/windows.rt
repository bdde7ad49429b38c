// Where walls change at a level.
ghost use Rattle.std.specs.Prelude.{◌≡◌, ◌<◌, ◌≤◌, ℕ, suc, ◌+◌, length, slice_get, Some, drop, IsTrue, IsFalse, ℤ};
ghost use Rattle.std.specs.Prelude.{◌<ℤ◌, ◌≤ℤ◌};
ghost use Rattle.poly_cut.specs.Code.Sweeping.{Rising};
ghost use Rattle.poly_cut.specs.Code.Levels.{Past, Reached};

use crate::ends::End;

/// A level of a sweep, and the top of the ring.
#[derive(Clone, Copy)]
pub struct Level {
    pub y: i64,
    pub top: i64,
}

/// The number of the first pair of walls whose right one is not left of an end.
pub fn first_pair(walls: &[i64], end: &End) -> usize
    requires { Rising walls.now }
    ensures within { result + result ≤ length walls.now }
    ensures before { (i : ℕ) (w : ℤ) → i < result → slice_get walls.now (suc (i + i)) ≡ Some w → w <ℤ end.now.x }
    ensures from { (i : ℕ) (w : ℤ) → result ≤ i → slice_get walls.now (suc (i + i)) ≡ Some w → end.now.x ≤ℤ w }
{
    match walls.binary_search(&end.x) {
        Ok(place) => place / 2,
        Err(place) => place / 2,
    }
}

/// Whether a wall stands right of the window that begins at the end of this number and goes on to the next end.
pub fn is_past(ends: &[End], number: usize, wall: i64) -> bool
    requires { number < length ends.now }
    ensures yes { IsTrue result → Past (drop number ends.now) wall }
    ensures no { IsFalse result → Reached (drop number ends.now) wall }
{
    number + 1 < ends.len() && ends[number + 1].x < wall
}
