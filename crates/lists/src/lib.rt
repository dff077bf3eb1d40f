//! Small lists that contracts see as plain lists, for types that are to be pure values in contracts: two equal lists are one
//! term, whatever allocation or capacity lies behind them.
//!
//! - `Items` is a list over a `Vec`.
//! - `Few` is a list that keeps its first items in the value itself.
//! - `Text` is a list of bytes, and `Texts` a list of such texts in one allocation.
//! - `Copies` is the trait of what can be copied to an equal value.
#![tactic(auto)]

mod copies;
mod few;
mod items;
mod text;
mod texts;

pub use copies::Copies;
pub use few::Few;
pub use items::Items;
pub use text::Text;
pub use texts::Texts;
