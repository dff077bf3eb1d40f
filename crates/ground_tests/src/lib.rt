//! Tests of `text_forms`, `lists`, `text_lex`, `kept_runs`, `vplan_io` and `ir_types`: what no clause says, with memory to spare.
#![tactic(auto)]

#[cfg(test)]
mod of_ir_types;
#[cfg(test)]
mod of_kept_runs;
#[cfg(test)]
mod of_lists;
#[cfg(test)]
mod of_text_forms;
#[cfg(test)]
mod of_text_lex;
#[cfg(test)]
mod of_vplan_io;
