//! Reads functions and their blocks, exactly as the grammar says: from left to right, with one place in the tokens.
#![tactic(auto)]

mod block;
mod function;
mod line;
mod numbering;
mod param;

pub use function::{declared, defined};
