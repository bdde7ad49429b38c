// The choice of the input at which a table is taken apart. Nothing depends on it: the parts are compared with the
// table.
ghost use Rattle.std.specs.Prelude.{◌≡◌, ◌<◌, ◌≤◌, true};
ghost use Rattle.mig_from_netlist.specs.Code.Parts.{AreParts};

use truth_tables::mask;

/// An input, and what a table is where that input is true, and where it is false.
#[derive(Clone, Copy)]
pub(crate) struct Parts {
    pub place: usize,
    pub high: u64,
    pub low: u64,
}

/// How far apart are the bits that differ in this place alone.
fn step(place: usize) -> u32
    ensures { result ≤ 32 }
{
    match place {
        0 => 1,
        1 => 2,
        2 => 4,
        3 => 8,
        4 => 16,
        _ => 32,
    }
}

/// What a table is where an input is true, and where it is false.
pub(crate) fn parts_at(table: u64, place: usize) -> Parts
    requires { place < 6 }
{
    let high = table & mask(place);
    let low = table & !mask(place);
    Parts {
        place,
        high: high | (high >> step(place)),
        low: low | (low << step(place)),
    }
}

/// On how many inputs a table depends.
fn support(table: u64) -> u32 {
    let mut count = 0u32;
    for place in 0..6 {
        let parts = parts_at(table, place);
        if parts.high != parts.low {
            count = count.saturating_add(1);
        }
    }
    count
}

fn is_constant(table: u64) -> bool {
    table == 0 || table == u64::MAX
}

/// What it costs to join these parts, by the inputs that they depend on: nothing where one of them is constant or the
/// other's complement, since one gate joins them then, and one more where neither holds the other.
fn cost(parts: Parts) -> u32 {
    if is_constant(parts.low) || is_constant(parts.high) || parts.low ^ parts.high == u64::MAX {
        return 0;
    }
    let crossed = parts.low & !parts.high != 0 && parts.high & !parts.low != 0;
    let inputs = support(parts.low).saturating_add(support(parts.high));
    inputs
        .saturating_mul(2)
        .saturating_add(if crossed { 2 } else { 1 })
}

/// The parts of a table at the input of the least cost, the first of them.
pub(crate) fn parts_of(table: u64) -> Option<Parts> {
    let mut best: Option<Parts> = None;
    let mut least = u32::MAX;
    for place in 0..6 {
        let parts = parts_at(table, place);
        if parts.high != parts.low {
            let cost = cost(parts);
            if cost < least {
                least = cost;
                best = Some(parts);
            }
        }
    }
    best
}

/// Whether these are parts of the table.
#[tactic(auto, using(crate::proofs::Apart::are_parts))]
pub(crate) fn are_parts(table: u64, parts: Parts) -> bool
    ensures { result ≡ true → AreParts table parts }
{
    if parts.place >= 6 {
        return false;
    }
    let differ_high = (parts.high ^ table) & mask(parts.place);
    let differ_low = (parts.low ^ table) & !mask(parts.place);
    differ_high == 0 && differ_low == 0
}
