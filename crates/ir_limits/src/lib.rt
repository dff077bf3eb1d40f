//! The limits on what a module has: 4,096 functions, 65,536 blocks, 1,000,000 instructions, and 255 bytes of a name.
#![tactic(auto)]

mod counts;
mod longs;
mod names;

pub use counts::passed;
pub use longs::{LongNames, long_names};
pub use names::{long_name, long_name_of_function};
