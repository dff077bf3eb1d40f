// What a text is made of. (What is refused, the cases of the program show.)

use std::test::Fail;
use text_lex::{TokenKind, lex};

/// Tokens of each kind: a line of the text has those of a line of the list.
const TEXT: &[u8] = b"@g @\"q\" @12 = c\"hi\" \"a b\" %x.1 %\"y z\" %7
$c $\"d\" l-1: \"s\": 12:\n; a comment\nadd c -5 42 !n !3 #7
!{ ... ()[]{}<>*:|! -1:";

#[test]
fn has_all_kinds(rt: HostRuntime) -> Result<(), Fail> {
    let kinds = [
        TokenKind::Global,
        TokenKind::Global,
        TokenKind::Global,
        TokenKind::Equal,
        TokenKind::TextConstant,
        TokenKind::Quoted,
        TokenKind::Local,
        TokenKind::Local,
        TokenKind::Local,
        TokenKind::Comdat,
        TokenKind::Comdat,
        TokenKind::Label,
        TokenKind::Label,
        TokenKind::Label,
        TokenKind::Word,
        TokenKind::Word,
        TokenKind::Number,
        TokenKind::Number,
        TokenKind::Metadata,
        TokenKind::Metadata,
        TokenKind::AttributeGroup,
        TokenKind::Bang,
        TokenKind::LeftBrace,
        TokenKind::Dots,
        TokenKind::LeftParen,
        TokenKind::RightParen,
        TokenKind::LeftBracket,
        TokenKind::RightBracket,
        TokenKind::LeftBrace,
        TokenKind::RightBrace,
        TokenKind::Less,
        TokenKind::Greater,
        TokenKind::Star,
        TokenKind::Colon,
        TokenKind::Bar,
        TokenKind::Bang,
        TokenKind::Label,
    ];
    let tokens = lex(rt.alloc(), TEXT)?;
    assert_eq!(rt; tokens.len(), kinds.len());
    for (token, kind) in tokens.iter().zip(&kinds) {
        assert_eq!(rt; token.kind, *kind, "at {}", token.start);
    }
    Ok(())
}

#[test]
fn has_places(rt: HostRuntime) -> Result<(), Fail> {
    let tokens = lex(rt.alloc(), b";a\rb-1 ...\n-2:")?;
    let places = [(3, 4), (4, 6), (7, 10), (11, 14)];
    assert_eq!(rt; tokens.len(), places.len());
    for (token, place) in tokens.iter().zip(&places) {
        assert_eq!(rt; (token.start, token.end), *place);
    }
    Ok(())
}

#[test]
fn leaves_in_what_is_near(rt: HostRuntime) -> Result<(), Fail> {
    let texts: [(&[u8], usize); 5] = [
        (
            b"target datalayout = \"e-m:e-p270:32:32-p:64:64-i64:64\"",
            4,
        ),
        (b"target triple = \"E\"", 4),
        (b"datalayout = \"E\"", 3),
        (b"i1 i8 i16 i32 i64 i i3x doubles", 8),
        (b"!D !\"DI\" !0 #0 %double @i3 undef:", 8),
    ];
    for (text, count) in &texts {
        assert_eq!(rt; lex(rt.alloc(), text)?.len(), *count);
    }
    Ok(())
}
