// Clauses that searches learn.

/// A clause, kept by the complements of its literals: `literals` are not all true at any word, so that at each word the
/// complement of one of them is true, which is a literal of the clause. Where this crate speaks of the literals that
/// are kept for a clause, it means these complements.
#[derive(Drop)]
pub struct Clause {
    pub literals: Vec<u32>,
}
