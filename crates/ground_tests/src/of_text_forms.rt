// Each public call once, on tokens of a text.

use std::test::Fail;
use text_forms::{Cursor, SyntaxFault, TokenKind, find, is_one_of, unescaped, without_last};
use text_lex::lex;

#[test]
fn takes_tokens(rt: HostRuntime) -> Result<(), Fail> {
    let text = b"add ,  12";
    let tokens = lex(rt.alloc(), text)?;
    let cursor = Cursor {
        text,
        rest: tokens.as_slice(),
    };
    assert!(rt; cursor.is_next(TokenKind::Word) && !cursor.is_next(TokenKind::Comma));
    assert!(rt; cursor.behind_word(b"ad").is_none() && cursor.behind_word(b"add").is_some());
    let behind = cursor.word(b"add")?;
    assert_eq!(rt; behind.place(), 4);
    assert!(rt; matches!(behind.refusal(), SyntaxFault::NoReading(4)));
    assert!(rt; matches!(behind.word(b","), Err(SyntaxFault::NoReading(4))));
    assert!(rt;
        matches!(
            behind.mark(TokenKind::Number),
            Err(SyntaxFault::NoReading(4))
        )
    );
    assert!(rt; matches!(behind.split_first(), Some((TokenKind::Comma, b",", _))));
    let (bytes, end) = behind.mark(TokenKind::Comma)?.one(TokenKind::Number)?;
    assert_eq!(rt; (bytes, end.place()), (b"12".as_slice(), 9));
    assert!(rt; end.split_first().is_none());
    Ok(())
}

#[test]
fn finds_words(rt: HostRuntime) {
    let table: [(&[u8], u32); 3] = [(b"ret", 1), (b"br", 2), (b"br", 3)];
    assert_eq!(rt; (find(&table, b"br"), find(&table, b"re")), (Some(2), None));
    let words: [&[u8]; 2] = [b"ret", b"br"];
    assert!(rt; is_one_of(&words, b"br") && !is_one_of(&words, b"b"));
}

#[test]
fn strings(rt: HostRuntime) -> Result<(), Fail> {
    let bytes = unescaped(rt.alloc(), b"\\\\41\\41\\c8\\4g\\")?;
    assert_eq!(rt; bytes.as_slice(), b"\\41A\xc8\\4g\\".as_slice());
    assert_eq!(rt; without_last(b"ab"), b"a".as_slice());
    Ok(())
}
