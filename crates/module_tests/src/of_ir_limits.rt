// The first name that is too long: in texts, as modules that have one are refused.

use crate::shared::name;
use ir_limits::{long_name, passed};
use ir_reader::read_module;
use ir_types::Name;
use std::alloc::{AllocError, Global};
use std::test::Fail;
use text_lex::{Count, TextFault};

/// The text in which each capital letter stands for a name of some length.
fn with_names(alloc: Global, text: &[u8]) -> Result<Vec<u8>, AllocError> {
    let mut out = Vec::new(alloc);
    for byte in text {
        let times = match *byte {
            b'A' => 255,
            b'B' => 256,
            b'C' => 300,
            b'D' => 400,
            _ => 1,
        };
        for _ in 0..times {
            out.push(*byte)?;
        }
    }
    Ok(out)
}

#[test]
fn the_first_long_name_counts(rt: HostRuntime) -> Result<(), Fail> {
    let texts: [(&[u8], u64); 9] = [
        (b"@A = global i8 0", 0),
        (b"@B = global i8 0 define void @D() { ret void }", 256),
        (b"define void @D() { ret void } @B = global i8 0", 400),
        (b"define void @f(i8 %C) { br label %D }", 300),
        (b"define void @f() { C: br label %D }", 300),
        (b"define void @f() { A: br label %D }", 400),
        (
            b"define void @f() { %D = getelementptr [2 x %C], ptr @B, i64 0 ret void }",
            400,
        ),
        (
            b"define void @f() { getelementptr [2 x %C], ptr @D, i64 0 ret void }",
            300,
        ),
        (b"define void @f() { call void @D(ptr @C) ret void }", 400),
    ];
    for (text, bytes) in &texts {
        let text = with_names(rt.alloc(), *text)?;
        match read_module(rt.alloc(), text.as_slice()) {
            Err(TextFault::CountLimit(Count::Name, found)) => assert_eq!(rt; found, *bytes),
            read => assert!(rt; read.is_ok() && *bytes == 0),
        }
    }
    Ok(())
}

#[test]
fn numbers_are_no_long_names(rt: HostRuntime) -> Result<(), Fail> {
    assert_eq!(rt; long_name(&Name::Number(7)), None);
    assert_eq!(rt; long_name(&name(rt.alloc(), b"x")?), None);
    assert_eq!(rt; passed(&[], None)?, None);
    assert_eq!(rt; passed(&[], Some(300))?, Some((Count::Name, 300)));
    Ok(())
}
