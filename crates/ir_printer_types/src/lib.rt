//! Prints names and types.
#![tactic(auto)]

pub mod memory_type;
pub mod name;
pub mod types;
