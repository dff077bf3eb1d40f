//! Readers of tokens that are kept as they stand: each adds the texts of the tokens that it takes to a list.
//!
//! After a refusal nothing is known of the list.
#![tactic(auto)]

mod attachments;
mod awaited;
mod enclosed;
mod passing;
mod pieces;
mod tokens;
mod up_to;

pub use attachments::{
    begins_attachment, begins_comma_attachment, keep_attachment, keep_attachments,
    keep_comma_attachments, keep_node,
};
pub use enclosed::{keep_braces, keep_parens};
pub use passing::{pass_braces, pass_parens};
pub use pieces::{begins_run, keep_run, keep_unsigned};
pub use tokens::{keep, keep_word};
pub use up_to::{Stops, keep_up_to};
