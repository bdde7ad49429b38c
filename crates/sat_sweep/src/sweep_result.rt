// What a sweep finds.
use circuit::Word;

/// What a sweep finds of two lists of literals. A word in it is a candidate counterexample: whoever uses it evaluates
/// it.
#[derive(Drop)]
pub(crate) enum SweepResult {
    /// All have one value each.
    Equal,
    /// Those before this place have, and those of this place have at each word before this one.
    LeastCounterexample { place: usize, word: Word },
    /// Those of this place seem to differ at this word, and those before it may.
    Counterexample { place: usize, word: Word },
    /// Neither was found.
    Undecided,
}
