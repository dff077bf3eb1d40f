// Numbers of locals that aren't above all earlier ones.

ghost use Rattle.std.specs.Prelude.{◌≡◌, IfOk, None};
ghost use Rattle.ir_types.specs.Denotes.{tree_of};
ghost use Rattle.ir_shape.specs.Modules.{IsModule};
ghost use Rattle.ir_rules.specs.Breaches.{first};
ghost use Rattle.ir_rules.specs.Numbering.{misnumbered_names};
ghost use Rattle.ir_check_names.specs.Choice.{first_of};
ghost use Rattle.ir_check_names.specs.Misnumbered.{number_at, is_above_all, misnumbered_from, misnumbered_in};

use crate::breaches::breach_at;
use crate::definitions::{Definition, definitions_of, name_at};
use ir_rules::Breach;
use ir_types::{Function, Module, Name, Names, ValueId};
use std::alloc::{AllocError, Global};

// A local's name, where it is a number.
fn number_at(names: &Names, id: ValueId) -> Option<u32>
    ensures { result ≡ number_at names.now id }
{
    match name_at(names, id) {
        Some(Name::Number(number)) => Some(*number),
        _ => None,
    }
}

// Whether a number is above the highest that is given before.
fn is_above_all(number: u32, highest: Option<u32>) -> bool
    ensures { result ≡ is_above_all number highest }
{
    match highest {
        Some(earlier) => earlier < number,
        None => true,
    }
}

// The first of the definitions whose number isn't above all earlier ones.
fn misnumbered_local(names: &Names, definitions: &[Definition]) -> Option<Definition>
    ensures { result ≡ misnumbered_from names.now None definitions.now }
{
    let mut highest = None;
    for definition in definitions {
        if let Some(number) = number_at(names, definition.name) {
            if !is_above_all(number, highest) {
                return Some(*definition);
            }
            highest = Some(number);
        }
    }
    None
}

fn misnumbered_in(alloc: Global, function: &Function) -> Result<Option<Breach>, AllocError>
    ensures { IfOk result (λ found. found ≡ misnumbered_in function.now) }
{
    let definitions = definitions_of(alloc, function)?;
    match misnumbered_local(&function.names, definitions.as_slice()) {
        Some(definition) => Ok(Some(breach_at(function, definition)?)),
        None => Ok(None),
    }
}

fn misnumbered_in_functions(
    alloc: Global,
    functions: &[Function],
) -> Result<Option<Breach>, AllocError>
    ensures { IfOk result (λ found. found ≡ first_of misnumbered_in functions.now) }
{
    for function in functions {
        if let Some(breach) = misnumbered_in(alloc, function)? {
            return Ok(Some(breach));
        }
    }
    Ok(None)
}

/// The first local whose number isn't above all earlier ones of its function.
///
/// # Errors
///
/// Where there is no memory; so it is said of a function of 2^32 instructions or more, too.
pub fn misnumbered(alloc: Global, m: &Module) -> Result<Option<Breach>, AllocError>
    requires is_module { IsModule m.now }
    ensures { IfOk result (λ found. found ≡ first (misnumbered_names (tree_of m.now))) }
{
    misnumbered_in_functions(alloc, m.functions.as_slice())
}
