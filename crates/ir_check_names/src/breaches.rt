// Breaches, with copies of the names that they are said of.

ghost use Rattle.std.specs.Prelude.{◌≡◌, IfOk};
ghost use Rattle.ir_rules.specs.Breaches.{outside};
ghost use Rattle.ir_check_names.specs.Definitions.{local_subject, breach_at};

use crate::definitions::{Definition, name_at};
use ir_rules::{Breach, Subject};
use ir_types::{Function, Names, ValueId};
use lists::Copies;
use std::alloc::AllocError;

// Outside functions.
pub(crate) fn outside(subject: Subject) -> Breach
    ensures { result ≡ outside subject }
{
    Breach {
        function: None,
        subject,
        place: 0,
    }
}

// A local, by its place in the names of its function.
pub(crate) fn local_subject(names: &Names, id: ValueId) -> Result<Subject, AllocError>
    ensures { IfOk result (λ s. s ≡ local_subject names.now id) }
{
    match name_at(names, id) {
        Some(name) => Ok(Subject::Local(name.copy()?)),
        None => Ok(Subject::Nothing),
    }
}

// In a function, where a local is defined.
pub(crate) fn breach_at(function: &Function, definition: Definition) -> Result<Breach, AllocError>
    ensures { IfOk result (λ b. b ≡ breach_at function.now definition) }
{
    Ok(Breach {
        function: Some(function.name.copy()?),
        subject: local_subject(&function.names, definition.name)?,
        place: definition.place,
    })
}
