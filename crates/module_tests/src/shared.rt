// What several tests make.

use ir_types::Name;
use lists::Text;
use std::alloc::{AllocError, Global};
use text_forms::{Cursor, Token};

/// A text's first token.
pub fn at<'t>(text: &'t [u8], tokens: &'t [Token]) -> Cursor<'t> {
    Cursor { text, rest: tokens }
}

/// A name that is a text.
pub fn name(alloc: Global, bytes: &[u8]) -> Result<Name, AllocError> {
    Ok(Name::Text(Text::from_slice(alloc, bytes)?))
}
