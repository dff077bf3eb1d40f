// Names that are repeated where they may not be.

ghost use Rattle.std.specs.Prelude.{◌≡◌, ◌++◌, ◌∷◌, [], false, length, replicate, IfOk};
ghost use Rattle.ir_types.specs.Denotes.{tree_of};
ghost use Rattle.ir_types.specs.Names.{has_name};
ghost use Rattle.ir_shape.specs.Modules.{IsModule};
ghost use Rattle.ir_rules.specs.Breaches.{first};
ghost use Rattle.ir_rules.specs.Duplicates.{duplicate_names};
ghost use Rattle.ir_check_names.specs.Choice.{first_of};
ghost use Rattle.ir_check_names.specs.Repeated.{is_text_at, repeated_from, repeated_type, repeated_symbol, repeated_in, first_repeated};

use crate::breaches::{breach_at, outside};
use crate::definitions::{Definition, definitions_of, name_at};
use crate::marks::{is_marked, set_mark};
use ir_rules::{Breach, Subject};
use ir_types::{Function, Module, Name, NamedType, Names, Symbol, SymbolKind, TypeName, ValueId};
use lists::Copies;
use std::alloc::{AllocError, Global};

// Adds a name to those that stand before; whether it was there.
fn was_there(seen: &mut Names, name: &Name) -> Result<bool, AllocError>
    ensures there { IfOk result (λ b. b ≡ has_name name.now seen.old) }
    ensures added { IfOk result (λ b. b ≡ false → seen.new ≡ seen.old ++ name.now ∷ []) }
{
    let before = seen.len();
    seen.add(name.copy()?)?;
    Ok(seen.len() == before)
}

// The first of the types that has the name of an earlier one.
fn repeated_type(alloc: Global, entries: &[TypeName]) -> Result<Option<Name>, AllocError>
    ensures { IfOk result (λ found. found ≡ repeated_type [] entries.now) }
{
    let mut seen = Names::new(alloc);
    for entry in entries {
        if !matches!(entry.ty, NamedType::Missing) && was_there(&mut seen, &entry.name)? {
            return Ok(Some(entry.name.copy()?));
        }
    }
    Ok(None)
}

// The first of the symbols that has the name of an earlier one.
fn repeated_symbol(alloc: Global, symbols: &[Symbol]) -> Result<Option<Name>, AllocError>
    ensures { IfOk result (λ found. found ≡ repeated_symbol [] symbols.now) }
{
    let mut seen = Names::new(alloc);
    for symbol in symbols {
        if !matches!(symbol.kind, SymbolKind::Missing) && was_there(&mut seen, &symbol.name)? {
            return Ok(Some(symbol.name.copy()?));
        }
    }
    Ok(None)
}

// Whether a local's name is a text.
fn is_text(names: &Names, id: ValueId) -> bool
    ensures { result ≡ is_text_at names.now id }
{
    matches!(name_at(names, id), Some(Name::Text(_)))
}

// The first of the definitions whose name is a text that is given before.
fn repeated_local(
    alloc: Global,
    names: &Names,
    definitions: &[Definition],
) -> Result<Option<Definition>, AllocError>
    ensures { IfOk result (λ found. found ≡ repeated_from names.now
        (replicate (length names.now) false) definitions.now) }
{
    let mut given = vec![in alloc; false; names.len()]?;
    for definition in definitions {
        let id = definition.name;
        if is_text(names, id) && is_marked(given.as_slice(), id.0) {
            return Ok(Some(*definition));
        }
        set_mark(given.as_mut_slice(), id.0);
    }
    Ok(None)
}

fn repeated_in(alloc: Global, function: &Function) -> Result<Option<Breach>, AllocError>
    ensures { IfOk result (λ found. found ≡ repeated_in function.now) }
{
    let definitions = definitions_of(alloc, function)?;
    match repeated_local(alloc, &function.names, definitions.as_slice())? {
        Some(definition) => Ok(Some(breach_at(function, definition)?)),
        None => Ok(None),
    }
}

fn repeated_in_functions(
    alloc: Global,
    functions: &[Function],
) -> Result<Option<Breach>, AllocError>
    ensures { IfOk result (λ found. found ≡ first_of repeated_in functions.now) }
{
    for function in functions {
        if let Some(breach) = repeated_in(alloc, function)? {
            return Ok(Some(breach));
        }
    }
    Ok(None)
}

fn first_repeated(alloc: Global, m: &Module) -> Result<Option<Breach>, AllocError>
    ensures { IfOk result (λ found. found ≡ first_repeated m.now) }
{
    if let Some(name) = repeated_type(alloc, m.type_names.as_slice())? {
        return Ok(Some(outside(Subject::TypeName(name))));
    }
    if let Some(name) = repeated_symbol(alloc, m.symbols.as_slice())? {
        return Ok(Some(outside(Subject::Symbol(name))));
    }
    repeated_in_functions(alloc, m.functions.as_slice())
}

/// The first name that is repeated where it may not be: of two types, of two symbols, or of two locals of a function, where it is a text.
///
/// # Errors
///
/// Where there is no memory; so it is said of a function of 2^32 instructions or more, too.
pub fn duplicate_name(alloc: Global, m: &Module) -> Result<Option<Breach>, AllocError>
    requires is_module { IsModule m.now }
    ensures { IfOk result (λ found. found ≡ first (duplicate_names (tree_of m.now))) }
{
    first_repeated(alloc, m)
}
