//! Reads phis, branches, switches and returns, behind their words.
#![tactic(auto)]

mod branches;
mod entries;
mod switches;

pub use branches::{branch, give_back};
pub use entries::phi;
pub use switches::switch;
