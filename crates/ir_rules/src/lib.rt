//! The rules that a well-formed module keeps, in specs/, how a broken one is named, and what has a type.
#![tactic(auto)]

mod fault;
mod types;

pub use fault::{Breach, CheckFault, Rule, Subject};
pub use types::{Typed, same_type};
