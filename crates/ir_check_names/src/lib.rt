//! Checks names against the rules of a well-formed module: which name is repeated, used and unknown, or numbered too low.
#![tactic(auto)]

mod breaches;
mod definitions;
mod duplicates;
mod instructions;
mod marks;
mod missing;
mod numbering;
mod unknown;

pub use duplicates::duplicate_name;
pub use numbering::misnumbered;
pub use unknown::unknown_name;
