//! Reads values as operands, exactly as the grammar says: from left to right, with one place in the tokens.
#![tactic(auto)]

mod constant;
mod flags;
mod keeping;
mod lanes;
mod numbers;
mod operand;
mod scope;
mod typed;
mod value;

pub use constant::memory;
pub use flags::{one_flag, three_flags, two_flags};
pub use keeping::{kept, kept_before, kept_behind};
pub use numbers::{fits_width, number_at, saturated_number_of};
pub use operand::value_at;
pub use scope::Scope;
pub use typed::{
    ThreeValues, comma_index, comma_pointer, comma_typed, index_value, pointer_value, three_values,
    typed_pair, typed_value,
};
pub use value::{comma_local, local_id};
