//! The longest front of a text that parts of tokens spell.

ghost use Rattle.std.specs.Prelude.{◌≡◌, MatchOption, map};
ghost use Rattle.text_forms.specs.Lexical.{after, may_end};
ghost use Rattle.text_lex.specs.Scan.{front, join, best};

use crate::classes::has;
use text_forms::{Part, TokenKind};

/// The parts that may follow behind this byte, where it may stand here.
fn after(parts: &[Part], byte: u8) -> Option<&[Part]>
    ensures { MatchOption result (after parts.now byte ≡ None) (λ rest. after parts.now byte ≡ Some rest.now) }
{
    let mut left = parts;
    while let Some((first, rest)) = left.split_first() {
        match *first {
            Part::One(class) => {
                return if has(class, byte) { Some(rest) } else { None };
            }
            Part::Perhaps(class) => {
                if has(class, byte) {
                    return Some(rest);
                }
            }
            Part::Run(class) => {
                if has(class, byte) {
                    return Some(left);
                }
            }
        }
        left = rest;
    }
    None
}

fn may_end(parts: &[Part]) -> bool
    ensures { result ≡ may_end parts.now }
{
    for part in parts {
        if let Part::One(_) = *part {
            return false;
        }
    }
    true
}

/// The length of the longest front that the parts spell.
fn length_of(parts: &[Part], text: &[u8]) -> Option<usize>
    ensures { result ≡ front parts.now text.now }
{
    let mut left = parts;
    let mut best = if may_end(parts) { Some(0) } else { None };
    let mut length = 0;
    for byte in text {
        let Some(behind) = after(left, *byte) else {
            return best;
        };
        left = behind;
        length += 1;
        if may_end(behind) {
            best = Some(length);
        }
    }
    best
}

/// The longer of the two, or the first.
fn join(
    kind: TokenKind,
    found: Option<usize>,
    best: Option<(TokenKind, usize)>,
) -> Option<(TokenKind, usize)>
    ensures { result ≡ join kind found best }
{
    match (found, best) {
        (None, _) => best,
        (Some(length), None) => Some((kind, length)),
        (Some(length), Some((other, longer))) => {
            if length < longer {
                Some((other, longer))
            } else {
                Some((kind, length))
            }
        }
    }
}

/// The longest front of the text that a row spells: the row's kind, and the length.
pub(crate) fn best(rows: &[(TokenKind, &[Part])], text: &[u8]) -> Option<(TokenKind, usize)>
    ensures { result ≡ best (map (λ r. (r.0, r.1.now)) rows.now) text.now }
{
    let mut best = None;
    for i in (0..rows.len()).rev() {
        let (kind, parts) = rows[i];
        best = join(kind, length_of(parts, text), best);
    }
    best
}
