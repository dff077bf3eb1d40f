//! Reads operations on values, behind their words: operators, comparisons, casts and lanes of vectors.
#![tactic(auto)]

mod arithmetic;
mod casts;
mod vectors;
mod words;

pub use arithmetic::{
    comparison, freeze, or_operation, overflowing, plain_binary, possibly_exact, selection,
};
pub use casts::{ptrtoint, sext, trunc, zext};
pub use vectors::{extract, insert, shuffle};
