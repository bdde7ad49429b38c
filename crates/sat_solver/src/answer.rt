// What a search comes to.

/// What a search came to.
#[derive(Clone, Copy, PartialEq, Eq)]
pub enum Answer {
    /// The literals are not all true at any word.
    Unsatisfiable,
    /// A word is at hand. It is a guess: whoever uses it evaluates it.
    Word,
    /// The limits were reached.
    Unknown,
}
