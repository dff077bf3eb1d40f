//! Tests of `ir_printer` and `ir_modules`: what no clause says, with memory to spare.
#![tactic(auto)]

#[cfg(test)]
mod of_ir_modules;
