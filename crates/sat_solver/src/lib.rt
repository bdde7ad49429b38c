//! Whether literals of a majority-inverter graph can all be true: a SAT solver by conflict-driven clause learning
//! (CDCL) on the graph itself, which checks each clause that it learns before it keeps it.
#![tactic(auto)]

mod activity;
mod answer;
mod checked_clauses;
mod clause;
mod cone;
mod conflict_analysis;
mod decision;
mod implied;
mod limits;
mod propagation;
mod solver;
mod step;
mod tables;
mod trail;
mod watched_clauses;

pub use answer::Answer;
pub use clause::Clause;
pub use limits::{Budget, Limits, Work};
pub use solver::Solver;
