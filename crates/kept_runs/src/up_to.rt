// Balanced lists up to a stop.

ghost use Rattle.std.specs.Prelude.{◌≡◌};
ghost use Rattle.text_forms.specs.Form.{has_kind, stops_at, up_to};
ghost use Rattle.text_forms.specs.Gives.{Gives, left};
ghost use Rattle.text_forms.specs.Machine.{behind};
ghost use Rattle.text_forms.specs.Reading.{read};
ghost use Rattle.kept_runs.specs.Stopping.{stops_of};

use crate::awaited::Awaited;
use lists::Texts;
use std::alloc::Global;
use text_forms::{Cursor, SyntaxFault, TokenKind, is_one_of};

/// Where a run ends, outside brackets.
#[derive(Clone, Copy, Debug)]
pub struct Stops<'s> {
    /// At tokens of these kinds.
    pub kinds: &'s [TokenKind],
    /// At these words.
    pub words: &'s [&'s [u8]],
    /// At tokens of these kinds behind which `=` stands.
    pub before_equal: &'s [TokenKind],
}

/// Whether the kind is one of these.
fn has_kind(kinds: &[TokenKind], kind: TokenKind) -> bool
    ensures { result ≡ has_kind kinds.now kind }
{
    kinds.contains(&kind)
}

/// Whether a stop stands next.
fn stops_at(stops: Stops<'_>, tokens: Cursor<'_>) -> bool
    ensures { result ≡ stops_at (stops_of stops.entry) (left tokens.entry) }
{
    match tokens.split_first() {
        Some((kind, text, rest)) => {
            has_kind(stops.kinds, kind)
                || (kind == TokenKind::Word && is_one_of(stops.words, text))
                || (has_kind(stops.before_equal, kind) && rest.is_next(TokenKind::Equal))
        }
        None => false,
    }
}

/// Keeps a balanced list with no stop outside brackets, which may be empty.
///
/// # Errors
///
/// Where brackets don't match, or there is no room.
pub fn keep_up_to<'t>(
    alloc: Global,
    tokens: Cursor<'t>,
    stops: Stops<'_>,
    texts: &mut Texts,
) -> Result<Cursor<'t>, SyntaxFault>
    ensures { Gives (λ rest. (texts.new, left rest)) result (behind texts.old (read (up_to (stops_of stops.entry)) (left tokens.entry))) }
{
    let mut awaited = Awaited::new(alloc);
    let mut rest = tokens;
    'each: while let Some((kind, text, after)) = rest.split_first() {
        if awaited.is_empty() && stops_at(stops, rest) {
            return Ok(rest);
        }
        if !awaited.step(kind)? {
            return Err(rest.refusal());
        }
        texts.push(text)?;
        rest = after;
    }
    if awaited.is_empty() {
        Ok(rest)
    } else {
        Err(rest.refusal())
    }
}
