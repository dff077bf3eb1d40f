// Attachments and metadata.

ghost use Rattle.std.specs.Prelude.{◌≡◌};
ghost use Rattle.text_forms.specs.declared.TokenKind.TheVariants.{Metadata};
ghost use Rattle.text_forms.specs.Form.{mapped, many};
ghost use Rattle.text_forms.specs.Gives.{Gives, left};
ghost use Rattle.text_forms.specs.Kept.{is_numbered, is_named, kept_such, metadata_node, attachment, attachments, kept_behind_comma};
ghost use Rattle.text_forms.specs.Machine.{behind};
ghost use Rattle.text_forms.specs.Nested.{concat};
ghost use Rattle.text_forms.specs.Reading.{read, opens};

use crate::enclosed::keep_braces;
use crate::tokens::keep;
use lists::Texts;
use std::alloc::Global;
use text_forms::{Cursor, SyntaxFault, TokenKind};

/// Whether the text is `!` and digits.
fn is_numbered(text: &[u8]) -> bool
    ensures { result ≡ is_numbered text.now }
{
    match text {
        [_, second, ..] => second.is_ascii_digit(),
        _ => false,
    }
}

/// Keeps a number of metadata.
fn keep_number<'t>(tokens: Cursor<'t>, texts: &mut Texts) -> Result<Cursor<'t>, SyntaxFault>
    ensures { Gives (λ rest. (texts.new, left rest)) result (behind texts.old (read (kept_such Metadata is_numbered) (left tokens.entry))) }
{
    let (text, rest) = tokens.one(TokenKind::Metadata)?;
    if !is_numbered(text) {
        return Err(tokens.refusal());
    }
    texts.push(text)?;
    Ok(rest)
}

/// Keeps a name of metadata.
fn keep_name<'t>(tokens: Cursor<'t>, texts: &mut Texts) -> Result<Cursor<'t>, SyntaxFault>
    ensures { Gives (λ rest. (texts.new, left rest)) result (behind texts.old (read (kept_such Metadata is_named) (left tokens.entry))) }
{
    let (text, rest) = tokens.one(TokenKind::Metadata)?;
    if is_numbered(text) {
        return Err(tokens.refusal());
    }
    texts.push(text)?;
    Ok(rest)
}

/// Keeps a number of metadata, or `!` and a balanced list in braces.
///
/// # Errors
///
/// Where none stands next, or there is no room.
#[tactic(auto, unfolding(text_forms::specs::Kept::metadata_node))]
pub fn keep_node<'t>(
    alloc: Global,
    tokens: Cursor<'t>,
    texts: &mut Texts,
) -> Result<Cursor<'t>, SyntaxFault>
    ensures { Gives (λ rest. (texts.new, left rest)) result (behind texts.old (read metadata_node (left tokens.entry))) }
{
    if tokens.is_next(TokenKind::Metadata) {
        return keep_number(tokens, texts);
    }
    let rest = keep(tokens, TokenKind::Bang, texts)?;
    keep_braces(alloc, rest, texts)
}

/// Whether an attachment stands next.
#[tactic(auto, unfolding(text_forms::specs::Kept::attachment))]
pub fn begins_attachment(tokens: Cursor<'_>) -> bool
    ensures { result ≡ opens attachment (left tokens.entry) }
{
    tokens.is_next(TokenKind::Metadata)
}

/// Keeps a name of metadata, and what is attached by it.
///
/// # Errors
///
/// Where none stands next, or there is no room.
#[tactic(auto, unfolding(text_forms::specs::Kept::attachment))]
pub fn keep_attachment<'t>(
    alloc: Global,
    tokens: Cursor<'t>,
    texts: &mut Texts,
) -> Result<Cursor<'t>, SyntaxFault>
    ensures { Gives (λ rest. (texts.new, left rest)) result (behind texts.old (read attachment (left tokens.entry))) }
{
    let rest = keep_name(tokens, texts)?;
    keep_node(alloc, rest, texts)
}

/// Keeps as many attachments as stand there.
///
/// # Errors
///
/// Where one is not complete, or there is no room.
#[tactic(auto, unfolding(text_forms::specs::Kept::attachments))]
pub fn keep_attachments<'t>(
    alloc: Global,
    tokens: Cursor<'t>,
    texts: &mut Texts,
) -> Result<Cursor<'t>, SyntaxFault>
    ensures { Gives (λ rest. (texts.new, left rest)) result (behind texts.old (read attachments (left tokens.entry))) }
{
    let mut rest = tokens;
    'more: while begins_attachment(rest) {
        rest = keep_attachment(alloc, rest, texts)?;
    }
    Ok(rest)
}

/// Whether a comma and an attachment stand next.
#[tactic(auto, unfolding(text_forms::specs::Kept::attachment))]
pub fn begins_comma_attachment(tokens: Cursor<'_>) -> bool
    ensures { result ≡ opens (kept_behind_comma attachment) (left tokens.entry) }
{
    match tokens.split_first() {
        Some((TokenKind::Comma, _, rest)) => rest.is_next(TokenKind::Metadata),
        _ => false,
    }
}

/// Keeps a comma and an attachment.
fn keep_comma_attachment<'t>(
    alloc: Global,
    tokens: Cursor<'t>,
    texts: &mut Texts,
) -> Result<Cursor<'t>, SyntaxFault>
    ensures { Gives (λ rest. (texts.new, left rest)) result (behind texts.old (read (kept_behind_comma attachment) (left tokens.entry))) }
{
    let rest = keep(tokens, TokenKind::Comma, texts)?;
    keep_attachment(alloc, rest, texts)
}

/// Keeps as many attachments as stand there, each behind a comma.
///
/// # Errors
///
/// Where one is not complete, or there is no room.
pub fn keep_comma_attachments<'t>(
    alloc: Global,
    tokens: Cursor<'t>,
    texts: &mut Texts,
) -> Result<Cursor<'t>, SyntaxFault>
    ensures { Gives (λ rest. (texts.new, left rest)) result (behind texts.old (read (mapped concat (many (kept_behind_comma attachment))) (left tokens.entry))) }
{
    let mut rest = tokens;
    'more: while begins_comma_attachment(rest) {
        rest = keep_comma_attachment(alloc, rest, texts)?;
    }
    Ok(rest)
}
