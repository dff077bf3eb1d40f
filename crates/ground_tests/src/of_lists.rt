// Each public call once.

use lists::{Copies, Few, Items, Text, Texts};
use std::test::Fail;

#[test]
fn items(rt: HostRuntime) -> Result<(), Fail> {
    let items = Items::from_vec([5_u32, 7].to_vec(rt.alloc())?);
    assert_eq!(rt; items.len(), 2);
    assert!(rt; !items.is_empty() && *items.at(1) == 7);
    assert_eq!(rt; items.as_slice(), [5, 7].as_slice());
    let copy = items.copy()?;
    assert_eq!(rt; copy, items);
    assert_eq!(rt; copy.into_vec().len(), 2);
    Ok(())
}

#[test]
fn few(rt: HostRuntime) -> Result<(), Fail> {
    let mut few: Few<Text, 2> = Few::new(rt.alloc());
    assert!(rt; few.is_empty());
    for bytes in [b"a", b"b", b"c"] {
        few.push(Text::from_slice(rt.alloc(), bytes)?)?;
    }
    assert_eq!(rt; few.len(), 3);
    assert_eq!(rt; few.at(2).as_bytes(), b"c".as_slice());
    let copy = few.copy()?;
    assert_eq!(rt; copy.as_slice(), few.as_slice());
    assert_eq!(rt; copy, few);
    Ok(())
}

#[test]
fn text(rt: HostRuntime) -> Result<(), Fail> {
    let text = Text::from_slice(rt.alloc(), b"x\xff")?;
    assert_eq!(rt; text.as_bytes(), [120, 255].as_slice());
    assert_eq!(rt; text.len(), 2);
    assert!(rt; !text.is_empty() && *text.at(1) == 255);
    assert_eq!(rt; text, text.copy()?);
    assert_ne!(rt; text, Text::from_vec([120_u8].to_vec(rt.alloc())?));
    Ok(())
}

#[test]
fn texts(rt: HostRuntime) -> Result<(), Fail> {
    let mut texts = Texts::new(rt.alloc());
    assert!(rt; texts.is_empty());
    for text in [b"one".as_slice(), b"", b"three"] {
        texts.push(text)?;
    }
    let copy = texts.copy()?;
    assert_eq!(rt; copy.len(), 3);
    assert_eq!(rt; copy.at(0), b"one".as_slice());
    assert_eq!(rt; copy.at(1), b"".as_slice());
    assert_eq!(rt; copy.at(2), b"three".as_slice());
    Ok(())
}
