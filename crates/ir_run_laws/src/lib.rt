//! Laws about what modules mean: runs, refinement, allowing and tolls, as functions with empty bodies.
#![tactic(auto)]

mod allowing;
mod refining;
mod runs;
mod tolls;
mod worked;

pub use allowing::{allowing_composes, allowing_grows, module_allows_itself, one_world_serves};
pub use refining::{
    operands_respect_refinement, operations_respect_refinement, refinement_is_reflexive,
    refinement_is_transitive,
};
pub use runs::runs_go_on;
pub use tolls::{toll_is_allowed, tolls_add};
pub use worked::{
    allows_no_other_module, worked_comparisons, worked_runs, worked_stops, worked_toll,
};
