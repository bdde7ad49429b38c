// The budget of searches: conflicts a search, nodes a cone, work in all.

/// Limits of one search.
#[derive(Clone, Copy)]
pub struct Limits {
    /// How many conflicts a search may come to. It gives up at the next one.
    pub conflicts: u32,
    /// How many majorities of the cone are looked at, those nearest to the literals first.
    pub cone: u32,
}

/// What is left of counted work, of all searches: majorities and literals of clauses that are looked at, entries of the
/// trail, nodes of cones, and literals that are resolved. Nothing is looked at where none is left.
#[derive(Clone, Copy)]
pub struct Work {
    pub left: u64,
}

impl Work {
    /// Takes so many units away; whether some are left.
    pub(crate) fn pay(&mut self, units: u64) -> bool {
        self.left = self.left.saturating_sub(units);
        self.left > 0
    }
}

/// The limits of each search, and what is left of the work of all.
#[derive(Drop)]
pub struct Budget {
    pub limits: Limits,
    pub work: Work,
}
