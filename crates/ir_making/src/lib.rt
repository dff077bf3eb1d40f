//! Instructions from their parts; in specs/ also functions and modules as trees, for examples.
#![tactic(auto)]

mod making;

pub use making::{
    applied, bare, binary, one_label, one_operand, three_operands, two_labels, two_operands,
};
