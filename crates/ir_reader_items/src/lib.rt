//! Reads one item of a module, exactly as the grammar says. A memory type in it is passed over, and so are the parameters and the body of a function: they are left to be read again.
#![tactic(auto)]

mod definition;
mod extras;
mod items;
mod lines;
mod part;
mod passing;
mod source;
mod variable;
mod words;

pub use items::{begins_item, item};
pub use part::{Definition, Part, Variable};
pub use source::{FunctionSource, TypeSource};
