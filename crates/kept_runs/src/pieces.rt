// Kept runs and their pieces.

ghost use Rattle.std.specs.Prelude.{◌≡◌, ◌++◌, map, codes};
ghost use Rattle.text_forms.specs.declared.TokenKind.TheVariants.{Word, Equal, Quoted, AttributeGroup};
ghost use Rattle.text_forms.specs.Form.{either, is_one_of};
ghost use Rattle.text_forms.specs.Gives.{Gives, left};
ghost use Rattle.text_forms.specs.Kept.{is_unsigned, kept_one, perhaps, in_parens, kept_word, kept_unsigned, kept_numbered, kept_string, kept_piece, kept_run};
ghost use Rattle.text_forms.specs.Machine.{behind};
ghost use Rattle.text_forms.specs.Nested.{joined};
ghost use Rattle.text_forms.specs.Reading.{read, opens};

use crate::enclosed::keep_parens;
use crate::tokens::{keep, keep_word};
use lists::Texts;
use std::alloc::Global;
use text_forms::{Cursor, SyntaxFault, TokenKind, is_one_of};

/// Keeps a balanced list in parentheses, or nothing.
fn perhaps_parens<'t>(
    alloc: Global,
    tokens: Cursor<'t>,
    texts: &mut Texts,
) -> Result<Cursor<'t>, SyntaxFault>
    ensures { Gives (λ rest. (texts.new, left rest)) result (behind texts.old (read (perhaps in_parens) (left tokens.entry))) }
{
    if tokens.is_next(TokenKind::LeftParen) {
        return keep_parens(alloc, tokens, texts);
    }
    Ok(tokens)
}

/// Keeps a word, and a balanced list in parentheses behind it.
fn keep_any_word<'t>(
    alloc: Global,
    tokens: Cursor<'t>,
    texts: &mut Texts,
) -> Result<Cursor<'t>, SyntaxFault>
    ensures { Gives (λ rest. (texts.new, left rest)) result (behind texts.old (read (joined (kept_one Word) (perhaps in_parens)) (left tokens.entry))) }
{
    let rest = keep(tokens, TokenKind::Word, texts)?;
    perhaps_parens(alloc, rest, texts)
}

/// Whether the text has a byte, and no sign at its begin.
fn is_unsigned(text: &[u8]) -> bool
    ensures { result ≡ is_unsigned text.now }
{
    match text {
        [first, ..] => *first != b'-',
        [] => false,
    }
}

/// Whether a number without a sign stands next.
fn begins_unsigned(tokens: Cursor<'_>) -> bool
    ensures { result ≡ opens kept_unsigned (left tokens.entry) }
{
    match tokens.split_first() {
        Some((TokenKind::Number, text, _)) => is_unsigned(text),
        _ => false,
    }
}

/// Keeps a number without a sign.
///
/// # Errors
///
/// Where none stands next, or there is no room.
pub fn keep_unsigned<'t>(tokens: Cursor<'t>, texts: &mut Texts) -> Result<Cursor<'t>, SyntaxFault>
    ensures { Gives (λ rest. (texts.new, left rest)) result (behind texts.old (read kept_unsigned (left tokens.entry))) }
{
    let (text, rest) = tokens.one(TokenKind::Number)?;
    if !is_unsigned(text) {
        return Err(tokens.refusal());
    }
    texts.push(text)?;
    Ok(rest)
}

/// Keeps a number or a balanced list in parentheses.
fn number_or_parens<'t>(
    alloc: Global,
    tokens: Cursor<'t>,
    texts: &mut Texts,
) -> Result<Cursor<'t>, SyntaxFault>
    ensures { Gives (λ rest. (texts.new, left rest)) result (behind texts.old (read (either kept_unsigned in_parens) (left tokens.entry))) }
{
    if begins_unsigned(tokens) {
        return keep_unsigned(tokens, texts);
    }
    keep_parens(alloc, tokens, texts)
}

/// Keeps this word, and a number or a balanced list in parentheses behind it.
fn keep_numbered<'t>(
    alloc: Global,
    tokens: Cursor<'t>,
    word: &[u8],
    texts: &mut Texts,
) -> Result<Cursor<'t>, SyntaxFault>
    ensures { Gives (λ rest. (texts.new, left rest)) result (behind texts.old (read (kept_numbered word.now) (left tokens.entry))) }
{
    let rest = keep_word(tokens, word, texts)?;
    number_or_parens(alloc, rest, texts)
}

/// Keeps `=` and a string, or nothing.
fn perhaps_value<'t>(tokens: Cursor<'t>, texts: &mut Texts) -> Result<Cursor<'t>, SyntaxFault>
    ensures { Gives (λ rest. (texts.new, left rest)) result (behind texts.old (read (perhaps (joined (kept_one Equal) (kept_one Quoted))) (left tokens.entry))) }
{
    if !tokens.is_next(TokenKind::Equal) {
        return Ok(tokens);
    }
    let rest = keep(tokens, TokenKind::Equal, texts)?;
    keep(rest, TokenKind::Quoted, texts)
}

/// Keeps a string, and `=` and a string behind it.
fn keep_string<'t>(tokens: Cursor<'t>, texts: &mut Texts) -> Result<Cursor<'t>, SyntaxFault>
    ensures { Gives (λ rest. (texts.new, left rest)) result (behind texts.old (read kept_string (left tokens.entry))) }
{
    let rest = keep(tokens, TokenKind::Quoted, texts)?;
    perhaps_value(rest, texts)
}

/// Whether the word is in one of the two lists.
#[tactic(auto, using(crate::proofs::Excluded::in_both))]
fn is_excluded(excluded: &[&[u8]], others: &[&[u8]], word: &[u8]) -> bool
    ensures { result ≡ is_one_of (map (λ w. w.now) excluded.now ++ map (λ w. w.now) others.now) word.now }
{
    is_one_of(excluded, word) || is_one_of(others, word)
}

/// Whether a word that is in neither list stands next.
fn begins_word(tokens: Cursor<'_>, excluded: &[&[u8]], others: &[&[u8]]) -> bool
    ensures { result ≡ opens (kept_word (map (λ w. w.now) excluded.now ++ map (λ w. w.now) others.now)) (left tokens.entry) }
{
    match tokens.split_first() {
        Some((TokenKind::Word, word, _)) => !is_excluded(excluded, others, word),
        _ => false,
    }
}

/// Whether a word with a number stands next, a string or a number of attributes.
fn begins_other(tokens: Cursor<'_>) -> bool
    ensures { result ≡ opens (either (kept_numbered (codes "align")) (either (kept_numbered (codes "cc")) (either kept_string (kept_one AttributeGroup)))) (left tokens.entry) }
{
    tokens.behind_word(b"align").is_some()
        || tokens.behind_word(b"cc").is_some()
        || tokens.is_next(TokenKind::Quoted)
        || tokens.is_next(TokenKind::AttributeGroup)
}

/// Whether a piece of a kept run stands next.
#[tactic(auto, unfolding(text_forms::specs::Kept::kept_piece))]
pub fn begins_run(tokens: Cursor<'_>, excluded: &[&[u8]], others: &[&[u8]]) -> bool
    ensures { result ≡ opens (kept_piece (map (λ w. w.now) excluded.now ++ map (λ w. w.now) others.now)) (left tokens.entry) }
{
    begins_word(tokens, excluded, others) || begins_other(tokens)
}

/// Keeps a piece of a run.
#[tactic(auto, unfolding(text_forms::specs::Kept::kept_piece))]
fn keep_piece<'t>(
    alloc: Global,
    tokens: Cursor<'t>,
    excluded: &[&[u8]],
    others: &[&[u8]],
    texts: &mut Texts,
) -> Result<Cursor<'t>, SyntaxFault>
    ensures { Gives (λ rest. (texts.new, left rest)) result (behind texts.old (read (kept_piece (map (λ w. w.now) excluded.now ++ map (λ w. w.now) others.now)) (left tokens.entry))) }
{
    if begins_word(tokens, excluded, others) {
        return keep_any_word(alloc, tokens, texts);
    }
    if tokens.behind_word(b"align").is_some() {
        return keep_numbered(alloc, tokens, b"align", texts);
    }
    if tokens.behind_word(b"cc").is_some() {
        return keep_numbered(alloc, tokens, b"cc", texts);
    }
    if tokens.is_next(TokenKind::Quoted) {
        return keep_string(tokens, texts);
    }
    keep(tokens, TokenKind::AttributeGroup, texts)
}

/// Keeps as many pieces of a run as stand there: words that are in neither list, alone or before a balanced list in parentheses, `align`
/// and `cc` with a number, strings, and numbers of attributes.
///
/// # Errors
///
/// Where a piece is not complete, or there is no room.
#[tactic(auto, unfolding(text_forms::specs::Kept::kept_run))]
pub fn keep_run<'t>(
    alloc: Global,
    tokens: Cursor<'t>,
    excluded: &[&[u8]],
    others: &[&[u8]],
    texts: &mut Texts,
) -> Result<Cursor<'t>, SyntaxFault>
    ensures { Gives (λ rest. (texts.new, left rest)) result (behind texts.old (read (kept_run (map (λ w. w.now) excluded.now ++ map (λ w. w.now) others.now)) (left tokens.entry))) }
{
    let mut rest = tokens;
    'more: while begins_run(rest, excluded, others) {
        rest = keep_piece(alloc, rest, excluded, others, texts)?;
    }
    Ok(rest)
}
