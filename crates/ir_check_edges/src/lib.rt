//! The rules about the edges between the blocks of a function: none goes to an entry, and phis are as the edges into their blocks ask.
#![tactic(auto)]

mod counted;
mod entered;
mod entries;
mod incoming;
mod labels;
mod operands;
mod phis;

pub use entered::entry_entered;
pub use phis::wrong_phi;
