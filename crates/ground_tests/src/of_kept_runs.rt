// Lists, runs and attachments. (Single tokens and initialisers, the cases of the program show.)

use kept_runs::{
    begins_attachment, begins_comma_attachment, begins_run, keep, keep_attachment,
    keep_attachments, keep_braces, keep_comma_attachments, keep_node, keep_parens, keep_run,
    pass_braces, pass_parens,
};
use lists::Texts;
use std::test::Fail;
use text_forms::{Cursor, TokenKind};
use text_lex::{Token, lex};

/// A text's first token.
fn at<'t>(text: &'t [u8], tokens: &'t [Token]) -> Cursor<'t> {
    Cursor { text, rest: tokens }
}

/// Whether so many texts are kept, the last of which is this one.
fn ends(texts: &Texts, count: usize, last: &[u8]) -> bool {
    count != 0 && texts.len() == count && texts.at(count - 1) == last
}

#[test]
fn keeps_balanced_lists(rt: HostRuntime) -> Result<(), Fail> {
    let text = b"({\"s\"}) {()} (}";
    let tokens = lex(rt.alloc(), text)?;
    let cursor = at(text, &tokens);
    let mut texts = Texts::new(rt.alloc());
    let rest = keep_parens(rt.alloc(), cursor, &mut texts)?;
    assert!(rt; ends(&texts, 5, b")"));
    let rest = keep_braces(rt.alloc(), rest, &mut texts)?;
    assert!(rt; ends(&texts, 9, b"}"));
    assert!(rt; keep_parens(rt.alloc(), rest, &mut texts).is_err());
    let behind = pass_braces(rt.alloc(), pass_parens(rt.alloc(), cursor)?)?;
    assert_eq!(rt; behind.rest.len(), 2);
    Ok(())
}

#[test]
fn keeps_runs(rt: HostRuntime) -> Result<(), Fail> {
    let text = b"none align 4 align() none(to) \"s\" = \"s\" #0 \"s\" to";
    let tokens = lex(rt.alloc(), text)?;
    let cursor = at(text, &tokens);
    let excluded: [&[u8]; 2] = [b"align", b"cc"];
    let others: [&[u8]; 1] = [b"to"];
    let mut texts = Texts::new(rt.alloc());
    assert!(rt; begins_run(cursor, &excluded, &others));
    let rest = keep_run(rt.alloc(), cursor, &excluded, &others, &mut texts)?;
    assert!(rt; ends(&texts, 15, b"\"s\""));
    assert!(rt; !begins_run(rest, &excluded, &others));
    Ok(())
}

#[test]
fn keeps_attachments(rt: HostRuntime) -> Result<(), Fail> {
    let text = b"!dbg !7 !dbg !{!7} , !x !8 , !y !{} , align 4";
    let tokens = lex(rt.alloc(), text)?;
    let cursor = at(text, &tokens);
    assert!(rt; begins_attachment(cursor) && !begins_comma_attachment(cursor));
    let mut texts = Texts::new(rt.alloc());
    let rest = keep_attachments(rt.alloc(), cursor, &mut texts)?;
    assert!(rt; ends(&texts, 7, b"}"));
    assert!(rt; !begins_attachment(rest) && begins_comma_attachment(rest));
    let rest = keep_comma_attachments(rt.alloc(), rest, &mut texts)?;
    assert!(rt; ends(&texts, 15, b"}"));
    assert_eq!(rt; rest.rest.len(), 3);
    assert!(rt; !begins_comma_attachment(rest));
    let mut first = Texts::new(rt.alloc());
    let rest = keep_attachment(rt.alloc(), cursor, &mut first)?;
    assert!(rt; ends(&first, 2, b"!7"));
    let rest = keep(rest, TokenKind::Metadata, &mut first)?;
    keep_node(rt.alloc(), rest, &mut first)?;
    assert!(rt; ends(&first, 7, b"}"));
    Ok(())
}
