// Balanced lists between two marks.

ghost use Rattle.std.specs.Prelude.{[]};
ghost use Rattle.text_forms.specs.Gives.{Gives, left};
ghost use Rattle.text_forms.specs.Kept.{in_parens, in_braces};
ghost use Rattle.text_forms.specs.Machine.{behind};
ghost use Rattle.text_forms.specs.Reading.{read, read_inside};
ghost use Rattle.kept_runs.specs.Texts.{with_texts};

use crate::awaited::Awaited;
use lists::Texts;
use std::alloc::Global;
use text_forms::{Cursor, SyntaxFault, TokenKind};

/// Keeps what stands up to the token of this kind that closes, with that one.
fn keep_inside<'t>(
    alloc: Global,
    tokens: Cursor<'t>,
    close: TokenKind,
    texts: &mut Texts,
) -> Result<Cursor<'t>, SyntaxFault>
    ensures { Gives (λ rest. (texts.new, left rest)) result (behind texts.old (with_texts (read_inside close [] (left tokens.entry)))) }
{
    let mut awaited = Awaited::new(alloc);
    let mut rest = tokens;
    'each: while let Some((kind, text, after)) = rest.split_first() {
        if awaited.ends(close, kind) {
            texts.push(text)?;
            return Ok(after);
        }
        if !awaited.step(kind)? {
            return Err(rest.refusal());
        }
        texts.push(text)?;
        rest = after;
    }
    Err(rest.refusal())
}

/// Keeps `(`, a balanced list and `)`.
///
/// # Errors
///
/// Where none stands next, or there is no room.
pub fn keep_parens<'t>(
    alloc: Global,
    tokens: Cursor<'t>,
    texts: &mut Texts,
) -> Result<Cursor<'t>, SyntaxFault>
    ensures { Gives (λ rest. (texts.new, left rest)) result (behind texts.old (read in_parens (left tokens.entry))) }
{
    let (text, rest) = tokens.one(TokenKind::LeftParen)?;
    texts.push(text)?;
    keep_inside(alloc, rest, TokenKind::RightParen, texts)
}

/// Keeps `{`, a balanced list and `}`.
///
/// # Errors
///
/// Where none stands next, or there is no room.
pub fn keep_braces<'t>(
    alloc: Global,
    tokens: Cursor<'t>,
    texts: &mut Texts,
) -> Result<Cursor<'t>, SyntaxFault>
    ensures { Gives (λ rest. (texts.new, left rest)) result (behind texts.old (read in_braces (left tokens.entry))) }
{
    let (text, rest) = tokens.one(TokenKind::LeftBrace)?;
    texts.push(text)?;
    keep_inside(alloc, rest, TokenKind::RightBrace, texts)
}
