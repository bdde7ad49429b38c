// Numbers: reads that say no past the end, random numbers, powers of two and roots, all of integers.

/// So many parts make up a slot in a position.
pub(crate) const PARTS: i32 = 16;

/// The item at an index, and another one past the end.
pub(crate) fn item<T: Copy>(items: &[T], index: u32, other: T) -> T {
    match items.get(index as usize) {
        Some(item) => *item,
        None => other,
    }
}

/// 2^32, by which the upper half of 64 bits is told.
const HALF: u64 = 4_294_967_296;

/// Numbers that look random, the same on each machine (xorshift64*).
#[derive(Clone, Copy)]
pub(crate) struct Random {
    state: u64,
}

impl Random {
    /// The numbers from the start.
    pub(crate) fn new() -> Random {
        Random {
            state: 0x9e37_79b9_7f4a_7c15,
        }
    }

    /// The next number of 32 bits.
    pub(crate) fn next(&mut self) -> u32 {
        let mut state = self.state;
        state ^= state >> 12;
        state ^= state.wrapping_mul(33_554_432);
        state ^= state >> 27;
        self.state = state;
        (state.wrapping_mul(0x2545_f491_4f6c_dd1d) / HALF) as u32
    }

    /// The next number below a bound, and 0 where that is 0.
    pub(crate) fn below(&mut self, bound: u32) -> u32 {
        let product = u64::from(self.next()).wrapping_mul(u64::from(bound));
        (product / HALF) as u32
    }
}

/// 2^31 times 2^(-k/16), for k from 0 to 16.
const ROOTS: [u64; 17] = [
    2_147_483_648,
    2_056_437_387,
    1_969_251_188,
    1_885_761_398,
    1_805_811_301,
    1_729_250_827,
    1_655_936_265,
    1_585_730_000,
    1_518_500_250,
    1_454_120_821,
    1_392_470_869,
    1_333_434_672,
    1_276_901_417,
    1_222_764_986,
    1_170_923_762,
    1_121_280_436,
    1_073_741_824,
];

/// 2^31 times 2 to the power of minus an exponent, which is given 65,536 times as large.
pub(crate) fn falling_power(exponent: u64) -> u64 {
    let whole = exponent / 65_536;
    if whole > 31 {
        return 0;
    }
    let place = (exponent / 4_096 % 16) as u32;
    let part = exponent % 4_096;
    let upper = item(&ROOTS, place, 0);
    let lower = item(&ROOTS, place.saturating_add(1), 0);
    let drop = upper.saturating_sub(lower).wrapping_mul(part) / 4_096;
    upper.saturating_sub(drop) >> whole
}

/// The greatest number whose square is not above this one.
pub(crate) fn root(number: u64) -> u64 {
    let mut root: u64 = 0;
    let mut bit: u64 = 2_147_483_648;
    for _ in 0..32 {
        let next = root | bit;
        if next.wrapping_mul(next) <= number {
            root = next;
        }
        bit /= 2;
    }
    root
}
