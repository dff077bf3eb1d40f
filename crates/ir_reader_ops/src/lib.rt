//! Reads instructions, exactly as the grammar says: from left to right, with one place in the tokens.
#![tactic(auto)]

mod inst;
mod words;

pub use inst::{Place, begins_instruction, inst_at, read_inst};
pub use ir_reader_memory::comma_dots;
pub use ir_reader_values::{Scope, kept, kept_before, kept_behind};
