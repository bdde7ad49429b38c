// The budget of searches.
use sat_solver::{Budget, Limits, Work};

/// A budget for searches, each with so many conflicts over so many majorities, and all with so much work.
pub(crate) fn budget_of(conflicts: u32, cone: u32, work: u64) -> Budget {
    Budget {
        limits: Limits { conflicts, cone },
        work: Work { left: work },
    }
}
