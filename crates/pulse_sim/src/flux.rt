// The flux of a cell.

/// What a cell holds: the sign of its flux while it is excited, and nothing while it is not.
#[derive(Clone, Copy, PartialEq, Eq)]
pub enum Flux {
    /// False.
    Minus,
    /// No flux.
    Off,
    /// True.
    Plus,
}
