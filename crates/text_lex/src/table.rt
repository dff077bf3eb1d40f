//! The table of tokens, and the token at the front of a text.

ghost use Rattle.std.specs.Prelude.{◌≡◌, ◌≢◌, ◌<◌, ◌≤◌, ◌+◌, MatchOption};
ghost use Rattle.text_forms.specs.Lexical.{is_letter, is_digit, table, NoToken};
ghost use Rattle.text_lex.specs.Scan.{range, mark_range, rows_for, colon_behind, best, At};

use crate::classes::{is_digit, is_letter};
use crate::front::best;
use text_forms::{Class, Part, TokenKind};

/// Each kind of token, and the parts of which it consists.
static TABLE: [(TokenKind, &[Part]); 37] = [
    (
        TokenKind::Label,
        &[
            Part::One(Class::Byte(b'"')),
            Part::Run(Class::NotQuote),
            Part::One(Class::Byte(b'"')),
            Part::One(Class::Byte(b':')),
        ],
    ),
    (
        TokenKind::Quoted,
        &[
            Part::One(Class::Byte(b'"')),
            Part::Run(Class::NotQuote),
            Part::One(Class::Byte(b'"')),
        ],
    ),
    (
        TokenKind::Label,
        &[
            Part::One(Class::NameStart),
            Part::Run(Class::NamePart),
            Part::One(Class::Byte(b':')),
        ],
    ),
    (
        TokenKind::Label,
        &[
            Part::One(Class::Digit),
            Part::Run(Class::Digit),
            Part::One(Class::Byte(b':')),
        ],
    ),
    (
        TokenKind::Number,
        &[
            Part::Perhaps(Class::Byte(b'-')),
            Part::One(Class::Digit),
            Part::Run(Class::Digit),
        ],
    ),
    (
        TokenKind::Decimal,
        &[
            Part::Perhaps(Class::Byte(b'-')),
            Part::One(Class::Digit),
            Part::Run(Class::Digit),
            Part::One(Class::Byte(b'.')),
            Part::One(Class::Digit),
            Part::Run(Class::Digit),
        ],
    ),
    (
        TokenKind::Decimal,
        &[
            Part::Perhaps(Class::Byte(b'-')),
            Part::One(Class::Digit),
            Part::Run(Class::Digit),
            Part::One(Class::Byte(b'.')),
            Part::One(Class::Digit),
            Part::Run(Class::Digit),
            Part::One(Class::Exponent),
            Part::Perhaps(Class::Sign),
            Part::One(Class::Digit),
            Part::Run(Class::Digit),
        ],
    ),
    (
        TokenKind::Hexadecimal,
        &[
            Part::One(Class::Byte(b'0')),
            Part::One(Class::Byte(b'x')),
            Part::One(Class::HexDigit),
            Part::Run(Class::HexDigit),
        ],
    ),
    (
        TokenKind::Word,
        &[Part::One(Class::WordStart), Part::Run(Class::WordPart)],
    ),
    (
        TokenKind::TextConstant,
        &[
            Part::One(Class::Byte(b'c')),
            Part::One(Class::Byte(b'"')),
            Part::Run(Class::NotQuote),
            Part::One(Class::Byte(b'"')),
        ],
    ),
    (
        TokenKind::Dots,
        &[
            Part::One(Class::Byte(b'.')),
            Part::One(Class::Byte(b'.')),
            Part::One(Class::Byte(b'.')),
        ],
    ),
    (
        TokenKind::Comdat,
        &[
            Part::One(Class::Byte(b'$')),
            Part::One(Class::NameStart),
            Part::Run(Class::NamePart),
        ],
    ),
    (
        TokenKind::Comdat,
        &[
            Part::One(Class::Byte(b'$')),
            Part::One(Class::Byte(b'"')),
            Part::Run(Class::NotQuote),
            Part::One(Class::Byte(b'"')),
        ],
    ),
    (
        TokenKind::Local,
        &[
            Part::One(Class::Byte(b'%')),
            Part::One(Class::NameStart),
            Part::Run(Class::NamePart),
        ],
    ),
    (
        TokenKind::Local,
        &[
            Part::One(Class::Byte(b'%')),
            Part::One(Class::Byte(b'"')),
            Part::Run(Class::NotQuote),
            Part::One(Class::Byte(b'"')),
        ],
    ),
    (
        TokenKind::Local,
        &[
            Part::One(Class::Byte(b'%')),
            Part::One(Class::Digit),
            Part::Run(Class::Digit),
        ],
    ),
    (
        TokenKind::Global,
        &[
            Part::One(Class::Byte(b'@')),
            Part::One(Class::NameStart),
            Part::Run(Class::NamePart),
        ],
    ),
    (
        TokenKind::Global,
        &[
            Part::One(Class::Byte(b'@')),
            Part::One(Class::Byte(b'"')),
            Part::Run(Class::NotQuote),
            Part::One(Class::Byte(b'"')),
        ],
    ),
    (
        TokenKind::Global,
        &[
            Part::One(Class::Byte(b'@')),
            Part::One(Class::Digit),
            Part::Run(Class::Digit),
        ],
    ),
    (
        TokenKind::Metadata,
        &[
            Part::One(Class::Byte(b'!')),
            Part::One(Class::NameStart),
            Part::Run(Class::NamePart),
        ],
    ),
    (
        TokenKind::Metadata,
        &[
            Part::One(Class::Byte(b'!')),
            Part::One(Class::Digit),
            Part::Run(Class::Digit),
        ],
    ),
    (TokenKind::Bang, &[Part::One(Class::Byte(b'!'))]),
    (
        TokenKind::AttributeGroup,
        &[
            Part::One(Class::Byte(b'#')),
            Part::One(Class::Digit),
            Part::Run(Class::Digit),
        ],
    ),
    (
        TokenKind::NamedGroup,
        &[
            Part::One(Class::Byte(b'#')),
            Part::One(Class::NameStart),
            Part::Run(Class::NamePart),
        ],
    ),
    (TokenKind::Equal, &[Part::One(Class::Byte(b'='))]),
    (TokenKind::Comma, &[Part::One(Class::Byte(b','))]),
    (TokenKind::LeftParen, &[Part::One(Class::Byte(b'('))]),
    (TokenKind::RightParen, &[Part::One(Class::Byte(b')'))]),
    (TokenKind::LeftBracket, &[Part::One(Class::Byte(b'['))]),
    (TokenKind::RightBracket, &[Part::One(Class::Byte(b']'))]),
    (TokenKind::LeftBrace, &[Part::One(Class::Byte(b'{'))]),
    (TokenKind::RightBrace, &[Part::One(Class::Byte(b'}'))]),
    (TokenKind::Less, &[Part::One(Class::Byte(b'<'))]),
    (TokenKind::Greater, &[Part::One(Class::Byte(b'>'))]),
    (TokenKind::Star, &[Part::One(Class::Byte(b'*'))]),
    (TokenKind::Colon, &[Part::One(Class::Byte(b':'))]),
    (TokenKind::Bar, &[Part::One(Class::Byte(b'|'))]),
];

/// The row of the labels that are plain names.
const LABELS: usize = 2;

fn mark_range(first: u8) -> (usize, usize)
    ensures range { result ≡ mark_range first }
    ensures within { result.0 + result.1 ≤ 37 }
    ensures marks { result.0 ≢ 2 }
{
    match first {
        b'=' => (24, 1),
        b',' => (25, 1),
        b'(' => (26, 1),
        b')' => (27, 1),
        b'[' => (28, 1),
        b']' => (29, 1),
        b'{' => (30, 1),
        b'}' => (31, 1),
        b'<' => (32, 1),
        b'>' => (33, 1),
        b'*' => (34, 1),
        b':' => (35, 1),
        b'|' => (36, 1),
        _ => (0, 0),
    }
}

/// Where in the table the rows stand that may begin with the byte: the first, and how many.
fn range(first: u8) -> (usize, usize)
    ensures range { result ≡ range first }
    ensures within { result.0 + result.1 ≤ 37 }
    ensures labels { result.0 ≡ 2 → 0 < result.1 }
{
    if first == b'"' {
        return (0, 2);
    }
    if first == b'%' {
        return (13, 3);
    }
    if first == b'@' {
        return (16, 3);
    }
    if first == b'$' {
        return (2, 11);
    }
    if first == b'.' {
        return (2, 9);
    }
    if first == b'c' {
        return (2, 8);
    }
    if is_letter(first) || first == b'_' {
        return (2, 7);
    }
    if first == b'-' {
        return (2, 5);
    }
    if is_digit(first) {
        return (3, 5);
    }
    if first == b'!' {
        return (19, 3);
    }
    if first == b'#' {
        return (22, 2);
    }
    mark_range(first)
}

/// The same without the row of labels with plain names, where no colon stands behind the name at the front.
fn rows_for(first: u8, colon: bool) -> (usize, usize)
    ensures rows { result ≡ rows_for first colon }
    ensures within { result.0 + result.1 ≤ 37 }
{
    let (start, count) = range(first);
    if !colon && start == LABELS {
        (start + 1, count - 1)
    } else {
        (start, count)
    }
}

fn best_of_table(text: &[u8], colon: bool) -> Option<(TokenKind, usize)>
    requires { colon ≡ colon_behind text.now }
    ensures { result ≡ best table text.now }
{
    let Some((first, _)) = text.split_first() else {
        return None;
    };
    let (start, count) = rows_for(*first, colon);
    best(&TABLE[start..start + count], text)
}

/// The longest token at the front: its kind and its length. `colon` says whether a colon stands at once behind the bytes of a name at the front.
pub(crate) fn token_at(text: &[u8], colon: bool) -> Option<(TokenKind, usize)>
    requires { colon ≡ colon_behind text.now }
    ensures { MatchOption result (NoToken text.now) (λ t. At text.now t.0 t.1) }
{
    best_of_table(text, colon)
}
