// The table of names. (What a module is made of is copied in the tests of its readers.)

use ir_types::{Name, Names, ValueId};
use lists::{Copies, Text};
use std::test::Fail;

#[test]
fn equal_names_have_one_place(rt: HostRuntime) -> Result<(), Fail> {
    let mut names = Names::new(rt.alloc());
    let x = Name::Text(Text::from_slice(rt.alloc(), b"x")?);
    let again = x.copy()?;
    assert_eq!(rt; names.add(x)?, ValueId(0));
    assert_eq!(rt; names.add(Name::Number(7))?, ValueId(1));
    assert_eq!(rt; names.add(again)?, ValueId(0));
    let copy = names.copy()?;
    assert_eq!(rt; copy.len(), 2);
    assert_eq!(rt; copy.get(ValueId(1)), &Name::Number(7));
    Ok(())
}
