//! Tests of `ir_reader_types`, `ir_reader_ops` and `ir_reader_functions`: what no clause says, with memory to spare.
#![tactic(auto)]

#[cfg(test)]
mod of_ir_reader_functions;
#[cfg(test)]
mod of_ir_reader_types;
#[cfg(test)]
mod shared;
