// Numbers and gates for random circuits, the same in each run.
use circuit::Gate;

/// A number from another one that is not 0: the next of a sequence of all numbers of 64 bits but 0 (Marsaglia's
/// xorshift, with shifts of 13, 7 and 17).
pub fn next_number(state: u64) -> u64 {
    let state = state ^ (state << 13);
    let state = state ^ (state >> 7);
    state ^ (state << 17)
}

/// The gate that a number chooses: an inverter, a buffer or, mostly, a majority of some of `count` lower gates.
pub fn random_gate(state: u64, count: u32) -> Gate {
    let count = u64::from(count.max(1));
    let (x, y, z) = (
        (state >> 8) % count,
        (state >> 24) % count,
        (state >> 40) % count,
    );
    match state % 8 {
        0 => Gate::Inv(x as u32),
        1 => Gate::Buf(x as u32),
        _ => Gate::Maj(x as u32, y as u32, z as u32),
    }
}
