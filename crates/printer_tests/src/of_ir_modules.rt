// A module that is made by code goes the way of one that is read.

use ir_check::check;
use ir_modules::made;
use ir_printer::print_module;
use ir_reader::read_module;
use std::test::Fail;

const PRINTED: &str = "define i32 @f(i32 %0) {
1:
  %2 = add i32 %0, 1
  ret i32 %2
}
";

#[test]
fn made_by_code_it_is_checked_printed_and_read_back(rt: HostRuntime) -> Result<(), Fail> {
    let checked = match check(rt.alloc(), made(rt.alloc())?) {
        Ok(checked) => checked,
        Err((_, fault)) => return Err(Fail::from(fault)),
    };
    let mut text = Vec::new(rt.alloc());
    print_module(rt.alloc(), checked.module(), &mut text)?;
    assert_eq!(rt; text.as_slice(), PRINTED.as_bytes());

    let read = read_module(rt.alloc(), text.as_slice())?;
    assert_eq!(rt; read.functions.len(), 1);
    assert_eq!(rt; read.functions.at(0).names.len(), 3);
    Ok(())
}
