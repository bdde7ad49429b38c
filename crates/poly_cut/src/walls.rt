// The walls of a row.
ghost use Rattle.std.specs.Prelude.{◌≡◌, ◌+◌, ◌<◌, ◌≤◌, ◌<ℤ◌, ◌∷◌, ◌++◌, ℤ, Some, IsTrue, take, drop, length};
ghost use Rattle.std.specs.Prelude.{slice_get, OnOk};
ghost use Rattle.poly_cut.specs.Cuts.{toggled};
ghost use Rattle.poly_cut.specs.Code.Sweeping.{Rising};
ghost use Rattle.poly_cut.specs.Code.Levels.{IsGap, all_toggled};

use crate::ends::End;
use aq_base::Memory;

/// Puts a wall at the end's x, or takes it away where it stands already.
pub fn toggle(walls: &mut Vec<i64>, end: &End) -> Result<(), Memory>
    requires { Rising walls.old.items }
    ensures { OnOk result (walls.new.items ≡ toggled end.now.x walls.old.items) }
{
    match walls.binary_search(&end.x) {
        Ok(place) => {
            let _ = walls.remove(place);
        }
        Err(place) => walls.insert(place, end.x)?,
    }
    Ok(())
}

/// Puts walls at a place, at the x of two ends. Those behind it move once.
fn put_two(walls: &mut Vec<i64>, place: usize, first: &End, second: &End) -> Result<(), Memory>
    requires { place ≤ length walls.old.items }
    ensures { OnOk result (walls.new.items ≡ take place walls.old.items
        ++ first.now.x ∷ second.now.x ∷ drop place walls.old.items) }
{
    let count = walls.len();
    walls.push(first.x)?;
    walls.push(second.x)?;
    walls.copy_within(place..count, place + 2);
    walls[place] = first.x;
    walls[place + 1] = second.x;
    Ok(())
}

/// Takes two walls away at a place. Those behind them move once.
fn take_two(walls: &mut Vec<i64>, place: usize)
    requires { place + 2 ≤ length walls.old.items }
    ensures { walls.new.items ≡ take place walls.old.items ++ drop (place + 2) walls.old.items }
{
    let count = walls.len();
    walls.copy_within(place + 2..count, place);
    walls.truncate(count - 2);
}

/// Whether a wall stands at a place and at the end's x.
fn stands_at(walls: &[i64], place: usize, end: &End) -> bool
    ensures { IsTrue result → slice_get walls.now place ≡ Some end.now.x }
{
    place < walls.len() && walls[place] == end.x
}

/// Whether the second end is right of the first, and left of the wall at a place if there is one.
fn fits(walls: &[i64], place: usize, first: &End, second: &End) -> bool
    ensures right { IsTrue result → first.now.x <ℤ second.now.x }
    ensures left { IsTrue result → (w : ℤ) → slice_get walls.now place ≡ Some w → second.now.x <ℤ w }
{
    first.x < second.x && (place >= walls.len() || second.x < walls[place])
}

/// Toggles two ends, of which the first has a wall, at this place.
fn toggle_standing(
    walls: &mut Vec<i64>,
    place: usize,
    first: &End,
    second: &End,
) -> Result<(), Memory>
    requires rising { Rising walls.old.items }
    requires within { place < length walls.old.items }
    requires stands { slice_get walls.old.items place ≡ Some first.now.x }
    ensures { OnOk result (walls.new.items ≡ toggled second.now.x (toggled first.now.x walls.old.items)) }
{
    if stands_at(walls.as_slice(), place + 1, second) {
        take_two(walls, place);
        return Ok(());
    }
    if fits(walls.as_slice(), place + 1, first, second) {
        walls[place] = second.x;
        return Ok(());
    }
    toggle(walls, first)?;
    toggle(walls, second)
}

/// Toggles two ends, of which the first has no wall, and would have it at this place.
fn toggle_absent(
    walls: &mut Vec<i64>,
    place: usize,
    first: &End,
    second: &End,
) -> Result<(), Memory>
    requires rising { Rising walls.old.items }
    requires gap { IsGap walls.old.items place first.now.x }
    ensures { OnOk result (walls.new.items ≡ toggled second.now.x (toggled first.now.x walls.old.items)) }
{
    if stands_at(walls.as_slice(), place, second) {
        walls[place] = first.x;
        return Ok(());
    }
    if fits(walls.as_slice(), place, first, second) {
        return put_two(walls, place, first, second);
    }
    toggle(walls, first)?;
    toggle(walls, second)
}

/// Toggles two ends, one after the other. Where their walls are neighbours, what stands right of them moves once at
/// most.
fn toggle_two(walls: &mut Vec<i64>, first: &End, second: &End) -> Result<(), Memory>
    requires { Rising walls.old.items }
    ensures { OnOk result (walls.new.items ≡ toggled second.now.x (toggled first.now.x walls.old.items)) }
{
    match walls.binary_search(&first.x) {
        Ok(place) => toggle_standing(walls, place, first, second),
        Err(place) => toggle_absent(walls, place, first, second),
    }
}

/// Toggles all ends, one after another.
pub fn toggle_all(walls: &mut Vec<i64>, ends: &[End]) -> Result<(), Memory>
    requires { Rising walls.old.items }
    ensures { OnOk result (walls.new.items ≡ all_toggled ends.now walls.old.items) }
{
    let mut number: usize = 0;
    'pairs: while number + 1 < ends.len() {
        toggle_two(walls, &ends[number], &ends[number + 1])?;
        number += 2;
    }
    if number < ends.len() {
        toggle(walls, &ends[number])?;
    }
    Ok(())
}
