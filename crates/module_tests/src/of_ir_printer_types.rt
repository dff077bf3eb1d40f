// Texts of names and types.

use crate::shared::{at, name};
use ir_printer_types::memory_type::put_memory_type;
use ir_printer_types::name::put_name;
use ir_printer_types::types::put_type;
use ir_reader_types::{TypeNames, memory_type};
use ir_types::{Name, Ty};
use std::test::Fail;
use text_lex::lex;

#[test]
fn names(rt: HostRuntime) -> Result<(), Fail> {
    let texts: [(&[u8], &[u8]); 8] = [
        (b"x", b"x"),
        (b"-a.1$_", b"-a.1$_"),
        (b"a b", b"\"a b\""),
        (b"", b"\"\""),
        (b"a\"b\\c", b"\"a\\22b\\5Cc\""),
        (b"\xc8\n~", b"\"\\C8\\0A~\""),
        (b"12", b"\"12\""),
        (b"1a", b"\"1a\""),
    ];
    let mut out = Vec::new(rt.alloc());
    for (text, printed) in &texts {
        out.clear();
        put_name(&mut out, &name(rt.alloc(), *text)?)?;
        assert_eq!(rt; out.as_slice(), *printed);
    }
    put_name(&mut out, &Name::Number(120))?;
    assert_eq!(rt; out.as_slice(), b"\"1a\"120".as_slice());
    Ok(())
}

#[test]
fn types(rt: HostRuntime) -> Result<(), Fail> {
    let types = [
        Ty::Int(1),
        Ty::Int(64),
        Ty::Ptr,
        Ty::Vector(4, 32),
        Ty::Vector(512, 1),
        Ty::Void,
    ];
    let mut out = Vec::new(rt.alloc());
    for ty in types {
        put_type(&mut out, ty)?;
        out.push(b' ')?;
    }
    assert_eq!(rt;
        out.as_slice(),
        b"i1 i64 ptr <4 x i32> <512 x i1> void ".as_slice()
    );
    Ok(())
}

#[test]
fn memory_types(rt: HostRuntime) -> Result<(), Fail> {
    let text = b"{ i8, [2 x <{ i32 }>], %t, {} }";
    let tokens = lex(rt.alloc(), text)?;
    let mut types = Vec::new(rt.alloc());
    let mut names = TypeNames::new(rt.alloc());
    let (id, _) = memory_type(rt.alloc(), at(text, &tokens), &mut types, &mut names)?;
    let mut out = Vec::new(rt.alloc());
    put_memory_type(rt.alloc(), &mut out, &types, names.as_slice(), id)?;
    assert_eq!(rt; out.as_slice(), text.as_slice());
    Ok(())
}
