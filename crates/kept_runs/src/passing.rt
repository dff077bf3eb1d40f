// Balanced lists that are passed over.

ghost use Rattle.std.specs.Prelude.{[]};
ghost use Rattle.text_forms.specs.declared.TokenKind.TheVariants.{LeftParen, RightParen, LeftBrace, RightBrace};
ghost use Rattle.text_forms.specs.Form.{enclosed};
ghost use Rattle.text_forms.specs.Gives.{Gives, left};
ghost use Rattle.text_forms.specs.Reading.{read, read_inside};
ghost use Rattle.kept_runs.specs.Passed.{passed};

use crate::awaited::Awaited;
use std::alloc::Global;
use text_forms::{Cursor, SyntaxFault, TokenKind};

/// What is behind the token of this kind that closes.
fn pass_inside<'t>(
    alloc: Global,
    tokens: Cursor<'t>,
    close: TokenKind,
) -> Result<Cursor<'t>, SyntaxFault>
    ensures { Gives (λ rest. left rest) result (passed (read_inside close [] (left tokens.entry))) }
{
    let mut awaited = Awaited::new(alloc);
    let mut rest = tokens;
    'each: while let Some((kind, _, after)) = rest.split_first() {
        if awaited.ends(close, kind) {
            return Ok(after);
        }
        if !awaited.step(kind)? {
            return Err(rest.refusal());
        }
        rest = after;
    }
    Err(rest.refusal())
}

/// What is behind `(`, a balanced list and `)`.
///
/// # Errors
///
/// Where none stands next, or there is no room.
pub fn pass_parens<'t>(alloc: Global, tokens: Cursor<'t>) -> Result<Cursor<'t>, SyntaxFault>
    ensures { Gives (λ rest. left rest) result (passed (read (enclosed LeftParen RightParen) (left tokens.entry))) }
{
    let (_, rest) = tokens.one(TokenKind::LeftParen)?;
    pass_inside(alloc, rest, TokenKind::RightParen)
}

/// What is behind `{`, a balanced list and `}`.
///
/// # Errors
///
/// Where none stands next, or there is no room.
pub fn pass_braces<'t>(alloc: Global, tokens: Cursor<'t>) -> Result<Cursor<'t>, SyntaxFault>
    ensures { Gives (λ rest. left rest) result (passed (read (enclosed LeftBrace RightBrace) (left tokens.entry))) }
{
    let (_, rest) = tokens.one(TokenKind::LeftBrace)?;
    pass_inside(alloc, rest, TokenKind::RightBrace)
}
