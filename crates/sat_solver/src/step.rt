// Literals that are set, and the reasons.

/// The reason why a literal is set.
#[derive(Clone, Copy)]
pub(crate) enum Reason {
    /// It is an assumption or a decision.
    Decision,
    /// It is that of a majority with these two operands, which are set.
    Operands(u32, u32),
    /// The first is that of a majority that is set, and the second the complement of one of its operands, which is set:
    /// each other operand is then set.
    Majority(u32, u32),
    /// All other literals of the clause of this number are false: the clause is unit, and implies this literal.
    Clause(u32),
}

/// A literal that is set, and the reason.
#[derive(Clone, Copy)]
pub(crate) struct Step {
    pub(crate) literal: u32,
    pub(crate) reason: Reason,
}
