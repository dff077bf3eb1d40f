//! The instructions of a function in the text's order, each with its number, as rules about them go through them.
#![tactic(auto)]

mod walk;

pub use walk::{InstRule, first_broken};
