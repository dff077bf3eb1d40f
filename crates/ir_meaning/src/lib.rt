//! What a module means: values and memories, and in specs/ the steps of a run, and when what one module does is what another allows.
#![tactic(auto)]

mod copied;
mod value;

pub use value::{Allocation, Byte, Outcome, Pointer, Value};
