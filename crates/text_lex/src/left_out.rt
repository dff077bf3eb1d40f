//! Tokens that are left out of the language, wherever they stand or as a layout of data.

ghost use Rattle.std.specs.Prelude.{◌≡◌, ◌==◌, ◌<◌, ◌≤◌, [], All, MatchOption, IfOk, IfSome, OnOk, IfErr, length};
ghost use Rattle.std.specs.List.{list_all, list_any, slice_split};
ghost use Rattle.text_forms.specs.Form.{is_one_of};
ghost use Rattle.text_forms.specs.Lexical.{is_digit, Lexes, Places};
ghost use Rattle.text_forms.specs.LeftOut.{widths, is_other_width, is_left_out, is_foreign_part, is_foreign_layout, stands_at, is_layout_at, is_left_out_at, FirstLeftOut, NoneLeftOut};
ghost use Rattle.text_forms.specs.View.{lexeme_in, lexemes};
ghost use Rattle.text_lex.specs.Fault.{IsFaultOf};
ghost use Rattle.text_lex.specs.Scan.{IsWithin};

use crate::TEXT_LIMIT;
use crate::fault::TextFault;
use lists::Text;
use std::alloc::{AllocError, Global};
use text_forms::{Token, TokenKind, is_one_of, left_out_words, unescaped, without_last};

/// The widths of integers that there are.
static WIDTHS: [&[u8]; 5] = [b"1", b"8", b"16", b"32", b"64"];

#[tactic(auto, unfolding(text_forms::specs::LeftOut::widths))]
fn is_width(digits: &[u8]) -> bool
    ensures { result ≡ is_one_of widths digits.now }
{
    is_one_of(&WIDTHS, digits)
}

fn are_digits(text: &[u8]) -> bool
    ensures { result ≡ list_all is_digit text.now }
{
    text.iter().all(|byte| byte.is_ascii_digit())
}

/// Whether the word is `i` and digits that are none of the widths.
fn is_other_width(word: &[u8]) -> bool
    ensures { result ≡ is_other_width word.now }
{
    match word.split_first() {
        Some((b'i', digits)) => !digits.is_empty() && are_digits(digits) && !is_width(digits),
        _ => false,
    }
}

/// Whether a token is left out wherever it stands.
fn is_left_out(kind: TokenKind, text: &[u8]) -> bool
    ensures { result ≡ is_left_out kind text.now }
{
    match kind {
        TokenKind::Decimal | TokenKind::Hexadecimal | TokenKind::NamedGroup => true,
        TokenKind::Metadata => text.starts_with(b"!DI"),
        TokenKind::Word => is_other_width(text) || is_one_of(left_out_words(), text),
        _ => false,
    }
}

/// Whether a part of a layout says that numbers lie with the highest byte first, or that pointers haven't 64 bits.
fn is_foreign_part(part: &[u8]) -> bool
    ensures { result ≡ is_foreign_part part.now }
{
    part.starts_with(b"E") || (part.starts_with(b"p:") && !part[2..].starts_with(b"64"))
}

/// Whether a layout has such a part between dashes.
fn has_foreign_part(layout: &[u8]) -> bool
    ensures { result ≡ list_any is_foreign_part (slice_split (λ byte. byte == 45) layout.now) }
{
    layout.split(|byte| *byte == b'-').any(is_foreign_part)
}

/// Whether a string, with its quotes, stands for such a layout.
#[tactic(auto, using(crate::proofs::Omitted::parts_are))]
fn is_foreign_layout(alloc: Global, text: &[u8]) -> Result<bool, AllocError>
    ensures { IfOk result (λ foreign. foreign ≡ is_foreign_layout text.now) }
{
    let Some((_, rest)) = text.split_first() else {
        return Ok(false);
    };
    let layout = unescaped(alloc, without_last(rest))?;
    Ok(has_foreign_part(&layout))
}

/// The bytes of a token.
fn word_of<'t>(text: &'t [u8], token: &Token) -> &'t [u8]
    requires within { IsWithin text.now token.now }
    ensures { result.now ≡ (lexeme_in text.now token.now).text }
{
    &text[token.start as usize..token.end as usize]
}

/// Whether this token stands at the place.
fn stands_at(text: &[u8], tokens: &[Token], place: usize, kind: TokenKind, word: &[u8]) -> bool
    requires within { All (IsWithin text.now) tokens.now }
    ensures { result ≡ stands_at (lexemes text.now tokens.now) place kind word.now }
{
    match tokens.get(place) {
        Some(token) => token.kind == kind && word_of(text, token) == word,
        None => false,
    }
}

/// Whether `target datalayout =` stands before the place.
fn is_layout_at(text: &[u8], tokens: &[Token], place: usize) -> bool
    requires within { All (IsWithin text.now) tokens.now }
    ensures { result ≡ is_layout_at (lexemes text.now tokens.now) place }
{
    place >= 3
        && stands_at(text, tokens, place - 3, TokenKind::Word, b"target")
        && stands_at(text, tokens, place - 2, TokenKind::Word, b"datalayout")
        && stands_at(text, tokens, place - 1, TokenKind::Equal, b"=")
}

/// Whether the token at the place is left out.
fn is_left_out_at(
    alloc: Global,
    text: &[u8],
    tokens: &[Token],
    place: usize,
) -> Result<bool, AllocError>
    requires within { All (IsWithin text.now) tokens.now }
    requires place { place < length tokens.now }
    ensures { IfOk result (λ out. out ≡ is_left_out_at (lexemes text.now tokens.now) place) }
{
    let token = &tokens[place];
    let word = word_of(text, token);
    if is_left_out(token.kind, word) {
        return Ok(true);
    }
    if token.kind == TokenKind::Quoted && is_layout_at(text, tokens, place) {
        return is_foreign_layout(alloc, word);
    }
    Ok(false)
}

/// The place of the first token that is left out.
fn first_left_out(alloc: Global, text: &[u8], tokens: &[Token]) -> Result<Option<usize>, AllocError>
    requires within { All (IsWithin text.now) tokens.now }
    ensures inside { IfOk result (λ first. IfSome first (λ place. place < length tokens.now)) }
    ensures first { IfOk result (λ first. MatchOption first (NoneLeftOut (lexemes text.now tokens.now)) (FirstLeftOut (lexemes text.now tokens.now))) }
{
    for place in 0..tokens.len() {
        if is_left_out_at(alloc, text, tokens, place)? {
            return Ok(Some(place));
        }
    }
    Ok(None)
}

/// Refuses tokens of which one is left out.
pub(crate) fn refuse_left_out(alloc: Global, text: &[u8], tokens: &[Token]) -> Result<(), TextFault>
    requires within { length text.now ≤ TEXT_LIMIT }
    requires lexed { Lexes text.now (lexemes text.now tokens.now) }
    requires placed { Places (length text.now) text.now tokens.now [] }
    ensures none { OnOk result (NoneLeftOut (lexemes text.now tokens.now)) }
    ensures fault { IfErr result (IsFaultOf text.now) }
{
    let Some(place) = first_left_out(alloc, text, tokens)? else {
        return Ok(());
    };
    let token = &tokens[place];
    let word = Text::from_slice(alloc, word_of(text, token))?;
    Err(TextFault::LeftOut(word, token.start))
}
