// Priorities for a wanted order (document 02, request 13/13): "Before a job the planner knows in which order up to 32 heads should get their first fragment."
#![tactic(auto)]

pub mod least;
pub mod lists;
pub mod plan;

pub use lists::MAX_PLANNED;
pub use plan::{PlannedPriorities, plan_priorities};
