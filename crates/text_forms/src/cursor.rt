// What is left of a text's tokens, and the few functions that take tokens from it.

ghost use Rattle.std.specs.Prelude.{◌≡◌, ◌∷◌, [], ◌-◌, ◌<◌, MatchOption, false, length, take, drop, IfOk, is_some};
ghost use Rattle.text_forms.specs.declared.TokenKind.TheVariants.{Word};
ghost use Rattle.text_forms.specs.declared.cursor.SyntaxFault.TheVariants.{Memory, NoReading};
ghost use Rattle.text_forms.specs.Form.{one, exactly};
ghost use Rattle.text_forms.specs.Reading.{next_in, this, any_of, read};
ghost use Rattle.text_forms.specs.Gives.{Gives, left, mark};
ghost use Rattle.text_forms.specs.View.{next_place};

use crate::{Token, TokenKind};
use std::alloc::{AllocError, AllocFailed};
use thiserror::Error;

/// Why nothing was read.
#[derive(Debug, Drop, Error)]
pub enum SyntaxFault {
    /// At this place of the text, in bytes, reading from left to right stopped.
    #[error("no reading")]
    NoReading(u32),
    /// There was no memory for what is made of the tokens.
    #[error("out of memory")]
    Memory,
}

impl From<AllocError> for SyntaxFault {
    ghost from_gives = { λ _ e. e ≡ Memory };

    fn from(_e: AllocError) -> SyntaxFault {
        SyntaxFault::Memory
    }
}

impl<T: Drop> From<AllocFailed<T>> for SyntaxFault {
    ghost from_gives = { λ _ e. e ≡ Memory };

    fn from(_e: AllocFailed<T>) -> SyntaxFault {
        SyntaxFault::Memory
    }
}

/// What is left of the tokens of a text.
#[derive(Clone, Copy, Debug)]
pub struct Cursor<'t> {
    /// The whole text, in which the places of the tokens count.
    pub text: &'t [u8],
    /// The tokens that are left, the next one first.
    pub rest: &'t [Token],
}

// The bytes of a text from one place to another, as far as it has them.
fn part(text: &[u8], start: usize, end: usize) -> &[u8]
    ensures { result.now ≡ take (end - start) (drop start text.now) }
{
    if start < end && end <= text.len() {
        &text[start..end]
    } else if start < end && start <= text.len() {
        &text[start..]
    } else {
        &text[..0]
    }
}

impl<'t> Cursor<'t> {
    /// Where the next token starts, or the text's end.
    pub fn place(self) -> u32
        ensures { result ≡ next_place self.entry.text.now self.entry.rest.now }
    {
        match self.rest.first() {
            Some(token) => token.start,
            None => u32::try_from(self.text.len()).unwrap_or(u32::MAX),
        }
    }

    /// The refusal to read on here.
    pub fn refusal(self) -> SyntaxFault
        ensures { result ≡ NoReading (next_place self.entry.text.now self.entry.rest.now) }
    {
        SyntaxFault::NoReading(self.place())
    }

    /// The next token, by its kind and its bytes, and what is behind it.
    pub fn split_first(self) -> Option<(TokenKind, &'t [u8], Cursor<'t>)>
        ensures { MatchOption result (left self.entry ≡ []) (λ x. left self.entry ≡ record { kind = x.0; text = x.1.now } ∷ left x.2) }
    {
        let (first, rest) = self.rest.split_first()?;
        let bytes = part(self.text, first.start as usize, first.end as usize);
        Some((
            first.kind,
            bytes,
            Cursor {
                text: self.text,
                rest,
            },
        ))
    }

    /// The bytes of a token of this kind, and what is behind it.
    pub fn one(self, kind: TokenKind) -> Result<(&'t [u8], Cursor<'t>), SyntaxFault>
        ensures { Gives (λ x. (x.0.now, left x.1)) result (read (one kind) (left self.entry)) }
    {
        match self.split_first() {
            Some((found, bytes, rest)) if found == kind => Ok((bytes, rest)),
            _ => Err(self.refusal()),
        }
    }

    /// What is behind a token of this kind.
    pub fn mark(self, kind: TokenKind) -> Result<Cursor<'t>, SyntaxFault>
        ensures { Gives (λ rest. (tt, left rest)) result (read (mark kind) (left self.entry)) }
    {
        let (_, rest) = self.one(kind)?;
        Ok(rest)
    }

    /// Whether a token of this kind is the next.
    pub fn is_next(self, kind: TokenKind) -> bool
        ensures { result ≡ next_in (any_of kind ∷ []) (left self.entry) }
    {
        match self.split_first() {
            Some((found, _, _)) => found == kind,
            None => false,
        }
    }

    /// What is behind the word, where it is the next token.
    pub fn behind_word(self, word: &[u8]) -> Option<Cursor<'t>>
        ensures { MatchOption result (next_in (this Word word.now ∷ []) (left self.entry) ≡ false) (λ rest. left self.entry ≡ record { kind = Word; text = word.now } ∷ left rest) }
    {
        let (kind, bytes, rest) = self.split_first()?;
        if kind == TokenKind::Word && bytes == word {
            Some(rest)
        } else {
            None
        }
    }

    /// What is behind the word, which is to be the next token.
    #[tactic(auto, using(crate::proofs::Tokens::text_is))]
    pub fn word(self, word: &[u8]) -> Result<Cursor<'t>, SyntaxFault>
        ensures { Gives (λ rest. (tt, left rest)) result (read (exactly Word word.now) (left self.entry)) }
    {
        match self.behind_word(word) {
            Some(rest) => Ok(rest),
            None => Err(self.refusal()),
        }
    }
}
