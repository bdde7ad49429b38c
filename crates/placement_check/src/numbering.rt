// Keys of which no two are equal, and numbers that are shown once each.
ghost use Rattle.std.specs.Prelude.{◌≡◌, IfOk};
ghost use Rattle.placement_check.specs.Code.Numbering.{places, are_there, is_at, are_at, are_distinct, is_numbering};

use aq_base::Memory;
use std::alloc::Global;

/// The last place of each key below a bound.
fn places(alloc: Global, keys: &[Option<u64>], bound: usize) -> Result<Vec<usize>, Memory>
    ensures { IfOk result (λ table. table.items ≡ places bound keys.now) }
{
    let mut table = vec![in alloc; 0; bound]?;
    for (place, key) in keys.iter().enumerate() {
        if let Some(key) = key {
            let key = *key as usize;
            if key < table.len() {
                table[key] = place;
            }
        }
    }
    Ok(table)
}

/// Whether the place of a key is this one.
fn is_at(table: &[usize], place: usize, key: Option<u64>) -> bool
    ensures { result ≡ is_at table.now place key }
{
    match key {
        Some(key) => match table.get(key as usize) {
            Some(at) => *at == place,
            None => false,
        },
        None => true,
    }
}

/// Whether each key stands where the table tells.
fn are_at(table: &[usize], keys: &[Option<u64>]) -> bool
    ensures { result ≡ are_at table.now 0 keys.now }
{
    for (place, key) in keys.iter().enumerate() {
        if !is_at(table, place, *key) {
            return false;
        }
    }
    true
}

/// Whether the numbers from 0 on stand in these places.
fn are_there(numbers: &[Option<u64>], places: &[usize]) -> bool
    ensures { result ≡ are_there numbers.now 0 places.now }
{
    for (wanted, place) in places.iter().enumerate() {
        let is_there = match numbers.get(*place) {
            Some(Some(number)) => *number as usize == wanted,
            _ => false,
        };
        if !is_there {
            return false;
        }
    }
    true
}

/// Whether the keys are below a bound, and no two are equal.
pub(crate) fn are_distinct(
    alloc: Global,
    keys: &[Option<u64>],
    bound: usize,
) -> Result<bool, Memory>
    ensures { IfOk result (λ are. are ≡ are_distinct bound keys.now) }
{
    let table = places(alloc, keys, bound)?;
    Ok(are_at(&table, keys))
}

/// Whether each number below a count is shown in one place, and no other number.
pub(crate) fn is_numbering(
    alloc: Global,
    numbers: &[Option<u64>],
    count: u32,
) -> Result<bool, Memory>
    ensures { IfOk result (λ is. is ≡ is_numbering count numbers.now) }
{
    let table = places(alloc, numbers, count as usize)?;
    Ok(are_at(&table, numbers) && are_there(numbers, &table))
}
