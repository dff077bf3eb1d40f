//! How much memory the types of a module take: `extents_of` all of its types, `extents_behind` those that were added behind them, and `size_of`
//! one more that is made of them. And `offset`: how many bytes a constant `getelementptr` leads on, by what `steps_of` and `steps_behind` prepare
//! once for each type.
//!
//! Sizes are computed up to 2^61, from which on they are not told apart. No more memory than that can be asked for.
#![tactic(auto)]

mod added;
mod begins;
mod ends;
mod extents;
mod offsets;
mod order;
mod place;
mod prepare;
mod single;
mod size;
mod step;

pub use added::extents_behind;
pub use extents::extents_of;
pub use offsets::{Index, offset};
pub use prepare::{Steps, steps_behind, steps_of};
pub use size::size_of;
