//! Reads loads, stores, `getelementptr` and calls, behind their words.
#![tactic(auto)]

mod calls;
mod dots;
mod memory;
mod offset;
mod signature;

pub use calls::call_behind;
pub use dots::comma_dots;
pub use memory::{load, store};
pub use offset::getelementptr;
