// Single tokens.

ghost use Rattle.text_forms.specs.declared.TokenKind.TheVariants.{Word};
ghost use Rattle.text_forms.specs.Gives.{Gives, left};
ghost use Rattle.text_forms.specs.Kept.{kept_one, kept_token};
ghost use Rattle.text_forms.specs.Machine.{behind};
ghost use Rattle.text_forms.specs.Reading.{read};

use lists::Texts;
use text_forms::{Cursor, SyntaxFault, TokenKind};

/// Keeps a token of this kind.
///
/// # Errors
///
/// Where another token stands next, or there is no room.
pub fn keep<'t>(
    tokens: Cursor<'t>,
    kind: TokenKind,
    texts: &mut Texts,
) -> Result<Cursor<'t>, SyntaxFault>
    ensures { Gives (λ rest. (texts.new, left rest)) result (behind texts.old (read (kept_one kind) (left tokens.entry))) }
{
    let (text, rest) = tokens.one(kind)?;
    texts.push(text)?;
    Ok(rest)
}

/// Keeps this word.
///
/// # Errors
///
/// Where another token stands next, or there is no room.
pub fn keep_word<'t>(
    tokens: Cursor<'t>,
    word: &[u8],
    texts: &mut Texts,
) -> Result<Cursor<'t>, SyntaxFault>
    ensures { Gives (λ rest. (texts.new, left rest)) result (behind texts.old (read (kept_token Word word.now) (left tokens.entry))) }
{
    let rest = tokens.word(word)?;
    texts.push(word)?;
    Ok(rest)
}
