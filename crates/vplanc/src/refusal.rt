// The answer where a rule is broken.

ghost use Rattle.std.specs.Prelude.{◌≡◌, ◌++◌, IfOk, OnOk};
ghost use Rattle.ir_types.specs.declared.name.Name.{Name};
ghost use Rattle.vplanc.specs.Answers.{function_text, subject_text, breach_text, IsCheckStatus};

use crate::answer::Status;
use ir_printer_types::name::put_name;
use ir_rules::{Breach, CheckFault, Subject};
use ir_types::Name;
use lists::Text;
use std::alloc::{AllocError, Global};

// The function's name, or a dash.
fn put_function(out: &mut Vec<u8>, function: &Option<Name>) -> Result<(), AllocError>
    ensures { OnOk result (out.new.items ≡ out.old.items ++ function_text function.now) }
{
    match function {
        Some(name) => {
            out.push(b'@')?;
            put_name(out, name)
        }
        None => {
            out.push(b'-')?;
            Ok(())
        }
    }
}

// The name that a breach is said of, or a dash.
fn put_subject(out: &mut Vec<u8>, subject: &Subject) -> Result<(), AllocError>
    ensures { OnOk result (out.new.items ≡ out.old.items ++ subject_text subject.now) }
{
    match subject {
        Subject::Nothing => {
            out.push(b'-')?;
            Ok(())
        }
        Subject::Local(name) | Subject::TypeName(name) => {
            out.push(b'%')?;
            put_name(out, name)
        }
        Subject::Symbol(name) => {
            out.push(b'@')?;
            put_name(out, name)
        }
    }
}

// The names of a breach.
fn names_of(alloc: Global, breach: &Breach) -> Result<Text, AllocError>
    ensures { IfOk result (λ names. names ≡ breach_text breach.now) }
{
    let mut names = Vec::new(alloc);
    put_function(&mut names, &breach.function)?;
    names.push(b' ')?;
    put_subject(&mut names, &breach.subject)?;
    Ok(Text::from_vec(names))
}

/// The answer to a fault of the checks.
pub fn refused(alloc: Global, fault: CheckFault) -> Status
    ensures { IsCheckStatus fault result }
{
    match fault {
        CheckFault::Broken(rule, breach) => match names_of(alloc, &breach) {
            Ok(names) => Status::Check(rule, names, breach.place),
            Err(_) => Status::Memory,
        },
        CheckFault::Memory => Status::Memory,
    }
}
