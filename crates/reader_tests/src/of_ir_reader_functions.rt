// Each public call once, and instructions of all forms.

use crate::shared::at;
use ir_reader_functions::{declared, defined};
use ir_reader_ops::{Scope, read_inst};
use ir_reader_types::{SymbolNames, Tables, TypeNames};
use ir_types::Names;
use lists::Texts;
use std::alloc::{AllocError, Global};
use std::test::Fail;
use text_forms::SyntaxFault;
use text_lex::{Token, lex};

/// Whether so many texts are kept, the last of which is this one.
fn ends(texts: &Texts, count: usize, last: &[u8]) -> bool {
    count != 0 && texts.len() == count && texts.at(count - 1) == last
}

/// Tables of nothing.
fn no_tables(alloc: Global) -> Result<Tables, AllocError> {
    let names = TypeNames::new(alloc);
    Tables::new(alloc, Vec::new(alloc), names, SymbolNames::new(alloc))
}

#[test]
fn declares(rt: HostRuntime) -> Result<(), Fail> {
    let text = b"!dbg !7 signext i32 @f(i32 signext, ...) #0 align 4";
    let tokens = lex(rt.alloc(), text)?;
    let (function, rest) = declared(rt.alloc(), at(text, &tokens))?;
    assert!(rt; rest.rest.is_empty() && function.varargs);
    assert!(rt; ends(&function.before, 3, b"signext") && ends(&function.after, 3, b"4"));
    assert_eq!(rt; function.params.len(), 1);
    Ok(())
}

#[test]
fn defines(rt: HostRuntime) -> Result<(), Fail> {
    let text = b"signext void @f(i32 %x, i32) #0 !dbg !7 { ret void } }";
    let tokens = lex(rt.alloc(), text)?;
    let mut tables = no_tables(rt.alloc())?;
    let (function, rest) = defined(rt.alloc(), at(text, &tokens), &mut tables)?;
    assert_eq!(rt; (rest.rest.len(), function.varargs), (1, false));
    assert!(rt; ends(&function.before, 1, b"signext") && ends(&function.after, 3, b"!7"));
    assert_eq!(rt; (function.params.len(), function.names.len()), (2, 3));
    Ok(())
}

const INSTRUCTIONS: &[u8] = b"i32 @f(i32 %a, ptr %p, <2 x i32> %v) {
add nsw nuw i32 %a, -1, !dbg !7, !tbaa !8
lshr exact i32 %a, 3
or disjoint i32 %a, 4
xor i32 %a, poison
icmp ult ptr %p, null
select i1 true, ptr %p, ptr @g
freeze <2 x i32> %v
trunc nsw i32 %a to i8
zext nneg i32 %a to i64
sext i32 %a to i64
ptrtoint ptr getelementptr inbounds (i32, ptr @g, i64 2) to i64
getelementptr nuw {i8, %t}, ptr %p, i64 1, i32 1
load i64, ptr %p
store i32 %a, ptr %p, align 2
tail call fastcc i32 (i32, ...) @h(i32 signext %a, ptr @g) #0
extractelement <2 x i32> %v, i8 3
insertelement <2 x i32> splat (i32 7), i32 %a, i64 1
shufflevector <2 x i32> %v, <2 x i32> zeroinitializer, <4 x i32> <i32 poison, i32 -1, i32 0, i32 2>
switch i32 %a, label %b [ i32 1, label %c i32 -2, label %b ]
b:
%r = phi i32 [ 1, %b ]
br i1 poison, label %c, label %b
c:
unreachable, !dbg !7
}";

/// How many blocks there are, and how many symbols and types the tables have behind them.
fn counted(
    alloc: Global,
    text: &[u8],
    tokens: &[Token],
) -> Result<(usize, usize, usize), SyntaxFault> {
    let mut tables = no_tables(alloc)?;
    let (function, _) = defined(alloc, at(text, tokens), &mut tables)?;
    let parts = tables.into_parts();
    Ok((function.body.len(), parts.symbols.len(), parts.types.len()))
}

#[test]
fn reads_instructions(rt: HostRuntime) -> Result<(), Fail> {
    let tokens = lex(rt.alloc(), INSTRUCTIONS)?;
    assert_eq!(rt; counted(rt.alloc(), INSTRUCTIONS, &tokens)?, (3, 1, 4));
    Ok(())
}

#[test]
fn refuses(rt: HostRuntime) -> Result<(), Fail> {
    let texts: [(&[u8], u32); 3] = [
        (b"void @f() { freeze i32 zeroinitializer ret void }", 23),
        (
            b"void @f() { switch i32 1, label %a [ i8 2, label %a ] }",
            37,
        ),
        (b"void @f() { sub nuw nuw i8 1, 2 ret void }", 20),
    ];
    for (text, place) in texts {
        let tokens = lex(rt.alloc(), text)?;
        let read = counted(rt.alloc(), text, &tokens);
        assert!(rt; matches!(read, Err(SyntaxFault::NoReading(at)) if at == place));
    }
    Ok(())
}

#[test]
fn reads_one_instruction(rt: HostRuntime) -> Result<(), Fail> {
    let text = b"store ptr @w, ptr %p, align 4 ret";
    let tokens = lex(rt.alloc(), text)?;
    let mut scope = Scope {
        names: Names::new(rt.alloc()),
        tables: no_tables(rt.alloc())?,
    };
    let (inst, rest) = read_inst(rt.alloc(), at(text, &tokens), &mut scope)?;
    assert_eq!(rt; (rest.rest.len(), inst.args.len()), (1, 2));
    assert_eq!(rt; scope.names.len(), 1);
    let read = read_inst(rt.alloc(), rest, &mut scope);
    assert!(rt; matches!(read, Err(SyntaxFault::NoReading(33))));
    assert_eq!(rt; scope.tables.into_parts().symbols.len(), 1);
    Ok(())
}
