//! Why nothing is made of a text.

ghost use Rattle.std.specs.Prelude.{◌≡◌};
ghost use Rattle.text_lex.specs.declared.fault.TextFault.TheVariants.{Memory};

use lists::Text;
use std::alloc::{AllocError, AllocFailed};
use thiserror::Error;

/// What of a module is counted, against a limit for each.
#[derive(Clone, Copy, Debug, PartialEq, Eq)]
pub enum Count {
    /// Its functions, defined and declared: at most 4,096.
    Functions,
    /// The blocks of all functions: at most 65,536.
    Blocks,
    /// The instructions of all functions: at most 1,000,000.
    Instructions,
    /// The bytes of a name that isn't a number: at most 255.
    Name,
}

/// Why nothing is made of a text: no list of tokens, or none of what the tokens are read as.
#[derive(Debug, Drop, PartialEq, Eq, Error)]
pub enum TextFault {
    /// No token begins at this place, in bytes from the text's begin.
    #[error("no token begins here")]
    BadToken(u32),
    /// This token is left out of the language. It stands at this place.
    #[error("a token that is left out")]
    LeftOut(Text, u32),
    /// The text has this many bytes, which are too many.
    #[error("the text is too long")]
    TextLimit(u64),
    /// Reading stopped at this place.
    #[error("reading stopped here")]
    NoReading(u32),
    /// The module has so many of these, or a name of so many bytes, which is above the limit.
    #[error("a limit is passed")]
    CountLimit(Count, u64),
    /// There was no memory for what is made of the text.
    #[error("out of memory")]
    Memory,
}

impl From<AllocError> for TextFault {
    ghost from_gives = { λ _ e. e ≡ Memory };

    fn from(_e: AllocError) -> TextFault {
        TextFault::Memory
    }
}

impl<T: Drop> From<AllocFailed<T>> for TextFault {
    ghost from_gives = { λ _ e. e ≡ Memory };

    fn from(_e: AllocFailed<T>) -> TextFault {
        TextFault::Memory
    }
}
