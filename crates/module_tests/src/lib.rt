//! Tests of `ir_sizes`, `ir_limits`, `ir_reader` and `ir_printer_types`: what no clause says, with memory to spare.
#![tactic(auto)]

#[cfg(test)]
mod of_ir_limits;
#[cfg(test)]
mod of_ir_printer_types;
#[cfg(test)]
mod of_ir_reader;
#[cfg(test)]
mod of_ir_sizes;
#[cfg(test)]
mod shared;
