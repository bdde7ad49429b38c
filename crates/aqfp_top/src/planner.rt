// The plans by which commands make chips.

/// How a chip is made. Each is named by its command: `build`, `compact` or `draw`.
#[derive(Clone, Copy, PartialEq, Eq)]
pub enum Planner {
    /// By the plan that is defined step by step.
    Build,
    /// By a plan that is searched for.
    Compact,
    /// By the cells of the netlist as they are given, in an order that is searched for.
    Draw,
}
