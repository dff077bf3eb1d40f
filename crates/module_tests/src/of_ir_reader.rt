// Texts that are read and texts that are refused. (That the module is the text's is proved.)

use crate::shared::name;
use ir_reader::read_module;
use ir_types::{Inst, InstKind, NamedType, Operand, SymbolKind};
use std::test::Fail;
use text_lex::TextFault;

const USES: &[u8] = b"@v = global [3 x %w] zeroinitializer
%a = type { i8, %b, %u }
define void @h() {
  getelementptr %z, ptr @x, i64 1
  store ptr @v, ptr @y
  ret void
}
%b = type <{ i16, [0 x i64] }>";

#[test]
fn what_is_only_used_stands_behind(rt: HostRuntime) -> Result<(), Fail> {
    let module = read_module(rt.alloc(), USES)?;
    let (symbols, types) = (module.symbols.as_slice(), module.type_names.as_slice());
    assert_eq!(rt; (symbols.len(), types.len()), (4, 5));
    for (symbol, (text, known)) in symbols
        .iter()
        .zip([(b"v", true), (b"h", true), (b"x", false), (b"y", false)])
    {
        assert_eq!(rt; symbol.name, name(rt.alloc(), text)?);
        assert_eq!(rt; symbol.kind != SymbolKind::Missing, known);
    }
    for (ty, (text, known)) in types.iter().zip([
        (b"a", true),
        (b"b", true),
        (b"u", false),
        (b"w", false),
        (b"z", false),
    ]) {
        assert_eq!(rt; ty.name, name(rt.alloc(), text)?);
        assert_eq!(rt; ty.ty != NamedType::Missing, known);
    }
    Ok(())
}

const WIDE: &[u8] = b"define void @f(i8 %x, ptr %p) {
  %a = add i8 1, 256
  %b = add i8 -128, 255
  store i8 %a, ptr %p, align 18446744073709551616
  switch i8 %x, label %c [ i8 1, label %c i8 -129, label %c ]
c:
  store ptr getelementptr (i8, ptr @v, i8 256), ptr %p
  ret void
}";

/// Whether the instruction at a place of the text is wide, and holds these numbers.
fn holds(place: usize, inst: &Inst) -> bool {
    let args = inst.args.as_slice();
    match place {
        0 => inst.wide && matches!(args, [Operand::Int(1), Operand::OutOfRange(None)]),
        1 => !inst.wide && matches!(args, [Operand::Int(128), Operand::Int(255)]),
        2 => !inst.wide && matches!(inst.kind, InstKind::Store(_, 18446744073709551615)),
        3 => match &inst.kind {
            InstKind::Switch(_, cases) => inst.wide && matches!(cases.as_slice(), [1, 127]),
            _ => false,
        },
        4 => inst.wide && matches!(args, [Operand::OutOfRange(Some(1)), _]),
        _ => place == 5 && !inst.wide,
    }
}

#[test]
fn reads_numbers_out_of_range(rt: HostRuntime) -> Result<(), Fail> {
    let module = read_module(rt.alloc(), WIDE)?;
    assert_eq!(rt; module.functions.len(), 1);
    let mut place = 0usize;
    for block in module.functions.at(0).body.as_slice() {
        for inst in block.insts.as_slice() {
            assert!(rt; holds(place, inst), "instruction {place}");
            place = place.wrapping_add(1);
        }
    }
    assert_eq!(rt; place, 6);
    Ok(())
}

#[test]
fn refuses(rt: HostRuntime) {
    let read = read_module(rt.alloc(), b"define i32 @f() { ret i32 ~ }");
    assert!(rt; matches!(read, Err(TextFault::BadToken(26))));
    let read = read_module(rt.alloc(), b"define i32 @f() { }");
    assert!(rt; matches!(read, Err(TextFault::NoReading(18))));
    match read_module(rt.alloc(), b"define double @f()") {
        Err(TextFault::LeftOut(word, place)) => {
            assert_eq!(rt; (word.as_bytes(), place), (b"double".as_slice(), 7));
        }
        _ => panic!(rt; "no word is left out"),
    }
}
