// Each public call once.

use crate::shared::{at, name};
use ir_reader_types::{
    SymbolNames, TypeNames, begins_type, block_label, global, local, memory_type, name_before,
    name_behind, number_of_32_bits, number_of_64_bits, return_type, value_type,
};
use ir_types::{MemTy, Name, NamedType, Ty, TypeId, TypeName};
use std::test::Fail;
use text_lex::lex;

#[test]
fn reads_numbers(rt: HostRuntime) {
    assert_eq!(rt; number_of_32_bits(b"4294967295"), Some(4294967295));
    assert_eq!(rt; number_of_32_bits(b"4294967296"), None);
    assert_eq!(rt;
        number_of_64_bits(b"18446744073709551615"),
        Some(18446744073709551615)
    );
    assert_eq!(rt; number_of_64_bits(b"18446744073709551616"), None);
}

#[test]
fn reads_names(rt: HostRuntime) -> Result<(), Fail> {
    let alloc = rt.alloc();
    let text = b"%x @7 y:";
    let tokens = lex(alloc, text)?;
    let (x, rest) = local(alloc, at(text, &tokens))?;
    let (seven, rest) = global(alloc, rest)?;
    let (y, rest) = block_label(alloc, rest)?;
    assert_eq!(rt; x, name(alloc, b"x")?);
    assert_eq!(rt; seven, Name::Number(7));
    assert_eq!(rt; y, name(alloc, b"y")?);
    assert!(rt; rest.rest.is_empty());
    assert_eq!(rt; name_behind(alloc, b"%007")?, Some(Name::Number(7)));
    assert_eq!(rt; name_before(alloc, b"\"7\":")?, Some(name(alloc, b"7")?));
    Ok(())
}

#[test]
fn reads_types_of_values(rt: HostRuntime) -> Result<(), Fail> {
    let text = b"<4 x i32> void";
    let tokens = lex(rt.alloc(), text)?;
    let cursor = at(text, &tokens);
    assert!(rt; begins_type(cursor));
    let (vector, rest) = value_type(cursor)?;
    assert!(rt; !begins_type(rest));
    let (void, rest) = return_type(rest)?;
    assert_eq!(rt; (vector, void), (Ty::Vector(4, 32), Ty::Void));
    assert!(rt; rest.rest.is_empty());
    Ok(())
}

#[test]
fn keeps_the_first_place_of_a_name(rt: HostRuntime) -> Result<(), Fail> {
    let mut names = TypeNames::new(rt.alloc());
    for number in [5, 7, 7] {
        names.define(Name::Number(number), NamedType::Opaque)?;
    }
    for (number, place) in [(7, 1), (9, 3), (9, 3)] {
        assert_eq!(rt; names.place_of(Name::Number(number))?, place);
    }
    assert_eq!(rt; names.len(), 4);
    names.set(2, NamedType::Defined(TypeId(2)));
    assert!(rt;
        matches!(
            names.as_slice(),
            [
                _,
                _,
                TypeName {
                    name: Name::Number(7),
                    ..
                },
                _
            ]
        )
    );
    let items = names.into_items();
    assert_eq!(rt; items.len(), 4);
    assert_eq!(rt; items.at(2).ty, NamedType::Defined(TypeId(2)));
    assert_eq!(rt; items.at(3).ty, NamedType::Missing);
    Ok(())
}

#[test]
fn keeps_the_first_place_of_a_symbol(rt: HostRuntime) -> Result<(), Fail> {
    let mut names = SymbolNames::new(rt.alloc());
    names.define(Name::Number(5))?;
    names.define(Name::Number(7))?;
    for (number, place) in [(7, 1), (9, 2), (9, 2)] {
        assert_eq!(rt; names.place_of(Name::Number(number))?, place);
    }
    assert_eq!(rt; (names.len(), names.into_items().len()), (3, 3));
    Ok(())
}

#[test]
fn reads_memory_types(rt: HostRuntime) -> Result<(), Fail> {
    let text = b"[2 x <{i8, %t, {}}>]";
    let tokens = lex(rt.alloc(), text)?;
    let cursor = at(text, &tokens);
    let mut types = Vec::new(rt.alloc());
    let mut names = TypeNames::new(rt.alloc());
    let (id, rest) = memory_type(rt.alloc(), cursor, &mut types, &mut names)?;
    assert_eq!(rt; id, TypeId(4));
    assert!(rt; rest.rest.is_empty());
    match types.as_slice() {
        [
            MemTy::One(Ty::Int(8)),
            MemTy::Named(0),
            MemTy::Struct(false, _),
            MemTy::Struct(true, members),
            MemTy::Array(2, TypeId(3)),
        ] => assert_eq!(rt;
            members.as_slice(),
            [TypeId(0), TypeId(1), TypeId(2)].as_slice()
        ),
        _ => panic!(rt; "other types"),
    }
    Ok(())
}
