//! The plan of a chip: the passes from a netlist to rows of cells that can be drawn, as one pass.
#![tactic(auto)]

mod laws;
mod plan;
mod refusal;

pub use laws::plan_laws;
pub use plan::{ChipPlan, chip_plan, plan_chip, repeating};
pub use refusal::PlanRefusal;
