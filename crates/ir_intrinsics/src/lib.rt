//! The functions that have a meaning by their names, and the types that their names tell.
#![tactic(auto)]

mod meant;
mod written;

pub use meant::{Intrinsic, meant_by};
