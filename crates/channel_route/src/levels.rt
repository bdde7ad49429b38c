// Levels of minima: the first entry below a bound is found, and an entry put, in as many steps as there are levels.
ghost use Rattle.std.specs.Prelude.{◌≡◌, ◌+◌, ◌<◌, ◌≤◌, ◌/◌, length, slice_index_or, nat_lt, if◌then◌else◌, IfOk, OnOk};
ghost use Rattle.channel_route.specs.Tracks.{lowest_free};
ghost use Rattle.channel_route.specs.Code.Levels.{pair_least, put, AreLevels, lowest_level, top_level};

use aq_base::{List, Memory};
use std::alloc::Global;

/// The minimum of a pair of entries, of which the second may be missing.
fn pair_least(level: &[u32], pair: usize) -> u32
    requires { pair + pair < length level.now }
    ensures { result ≡ pair_least level.now pair }
{
    let left = level[pair + pair];
    let right = level.get(pair + pair + 1).copied().unwrap_or(left);
    left.min(right)
}

/// Puts an entry at an index of a level, or at its end; the minimum of its pair.
fn put(level: &mut List<u32>, at: usize, value: u32) -> Result<u32, Memory>
    requires { at ≤ length level.old }
    ensures level { OnOk result (level.new ≡ put level.old at value) }
    ensures least { IfOk result (λ least. least ≡ pair_least level.new (at / 2)) }
{
    if at < level.len() {
        level.set(at, value);
    } else {
        level.push(value)?;
    }
    Ok(pair_least(level.as_slice(), at / 2))
}

/// The number of entries at the top.
fn top_len(levels: &[List<u32>]) -> usize
    ensures { result ≡ length (top_level levels.now) }
{
    match levels.last() {
        Some(top) => top.len(),
        None => 0,
    }
}

/// Puts an entry at an index of the lowest level, or at its end, and the minima above it.
pub(crate) fn put_entry(
    alloc: Global,
    levels: &mut Vec<List<u32>>,
    index: usize,
    value: u32,
) -> Result<(), Memory>
    requires levels { AreLevels levels.old.items }
    requires index { index ≤ length (lowest_level levels.old.items) }
    ensures levels { OnOk result (AreLevels levels.new.items) }
    ensures entries { OnOk result (lowest_level levels.new.items ≡ put (lowest_level levels.old.items) index value) }
{
    let mut at = index;
    let mut least = value;
    for level in levels.iter_mut() {
        least = put(level, at, least)?;
        at /= 2;
    }
    if top_len(levels) != 1 {
        let root = vec![in alloc; least; 1]?;
        levels.push(List::from_vec(root))?;
    }
    Ok(())
}

/// The entry at the top, which is the least; the given one where there is none.
fn top_entry(levels: &[List<u32>], default: u32) -> u32
    ensures { result ≡ slice_index_or (top_level levels.now) 0 default }
{
    match levels.last() {
        Some(top) => top.as_slice().first().copied().unwrap_or(default),
        None => default,
    }
}

/// The first entry below a bound of a pair that has one.
fn child(below: &[u32], pair: usize, bound: u32) -> usize
    requires { pair + pair < length below.now }
    ensures { result
        ≡ (if nat_lt (slice_index_or below.now (pair + pair) 0) bound then pair + pair else pair + pair + 1) }
{
    let left = pair + pair;
    if below[left] < bound { left } else { left + 1 }
}

/// The first entry below a bound, where the least is.
fn descend(levels: &[List<u32>], bound: u32) -> usize
    requires levels { AreLevels levels.now }
    requires some { slice_index_or (top_level levels.now) 0 bound < bound }
    ensures { result ≡ lowest_free bound (lowest_level levels.now) }
{
    let mut at = 0;
    let mut level = levels.len() - 1;
    while level > 0 {
        level -= 1;
        at = child(levels[level].as_slice(), at, bound);
    }
    at
}

/// How many entries there are.
pub(crate) fn entry_count(levels: &[List<u32>]) -> usize
    ensures { result ≡ length (lowest_level levels.now) }
{
    match levels.first() {
        Some(entries) => entries.len(),
        None => 0,
    }
}

/// The first entry below a bound, or the number of entries where there is none.
pub(crate) fn first_below(levels: &[List<u32>], bound: u32) -> usize
    requires { AreLevels levels.now }
    ensures { result ≡ lowest_free bound (lowest_level levels.now) }
{
    if top_entry(levels, bound) < bound {
        descend(levels, bound)
    } else {
        entry_count(levels)
    }
}
