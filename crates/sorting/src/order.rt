// Numbers in the order of their keys, and the places that they have there.
ghost use Rattle.std.specs.Prelude.{◌≡◌, ℕ, ◌<◌, ◌^◌, length, slice_index_or, IfOk};
ghost use Rattle.std.specs.List.{AllByRecursion};
ghost use Rattle.sorting.specs.Numbers.{numbers, IsInverse};
ghost use Rattle.sorting.specs.Sorting.{by_key};

use aq_base::Memory;
use std::alloc::Global;

/// A number with its key.
#[derive(Copy, Clone, Drop)]
struct Keyed {
    key: u64,
    number: u32,
}

/// The numbers from 0 on, one for each of these keys, by rising key; those of one key rise.
pub fn order_by(alloc: Global, keys: &[u64]) -> Result<Vec<u32>, Memory>
    requires { length keys.now < 2 ^ 32 }
    ensures { IfOk result (λ order. order.items
        ≡ by_key (λ c. slice_index_or keys.now c 0) (numbers 0 (length keys.now))) }
{
    let mut keyed = Vec::with_capacity(alloc, keys.len())?;
    for (number, key) in keys.iter().enumerate() {
        keyed.push(Keyed {
            key: *key,
            number: number as u32,
        })?;
    }
    keyed.sort_by_key(|one| one.key)?;
    let order = keyed.iter().map(|one| one.number).collect(alloc)?;
    Ok(order)
}

/// The place that each number has in an order. A number that does not stand there has the number of them all.
pub fn places_of(alloc: Global, order: &[u32]) -> Result<Vec<u32>, Memory>
    requires few { length order.now < 2 ^ 32 }
    requires below { AllByRecursion (λ c. c < length order.now) order.now }
    ensures inverse { IfOk result (λ places. IsInverse places.items order.now) }
    ensures long { IfOk result (λ places. length places.items ≡ length order.now) }
{
    let count = order.len() as u32;
    let mut places = vec![in alloc; count; order.len()]?;
    let mut left = order.len();
    while left > 0 {
        left -= 1;
        places[order[left] as usize] = left as u32;
    }
    Ok(places)
}
