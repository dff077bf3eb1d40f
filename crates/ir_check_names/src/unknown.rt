// Uses of what is neither defined nor declared.

ghost use Rattle.std.specs.Prelude.{◌≡◌, IfOk};
ghost use Rattle.ir_types.specs.Denotes.{tree_of};
ghost use Rattle.ir_shape.specs.Modules.{IsModule};
ghost use Rattle.ir_types.specs.declared.module.Symbol.{Symbol};
ghost use Rattle.ir_types.specs.declared.memory_type.TypeName.{TypeName};
ghost use Rattle.ir_rules.specs.Breaches.{first};
ghost use Rattle.ir_rules.specs.Unknown.{unknown_names};
ghost use Rattle.ir_check_names.specs.Choice.{first_of};
ghost use Rattle.ir_check_names.specs.Missing.{missing_in_definition, missing_in_symbol};
ghost use Rattle.ir_check_names.specs.FirstUnknown.{type_subject, symbol_subject, used_subject, unknown_in, first_unknown};

use crate::breaches::{local_subject, outside};
use crate::definitions::definitions_of;
use crate::instructions::{Known, Used, unknown_blocks};
use crate::marks::{defined_marks, symbol_marks};
use crate::missing::{missing_at, missing_names};
use ir_rules::{Breach, Subject};
use ir_types::{Function, Module, NamedType, Names, Symbol, SymbolKind, TypeName};
use lists::Copies;
use std::alloc::{AllocError, Global};

// A name of a type, by its place.
fn type_subject(names: &[TypeName], place: u32) -> Result<Subject, AllocError>
    ensures { IfOk result (λ s. s ≡ type_subject names.now place) }
{
    match names.get(place as usize) {
        Some(entry) => Ok(Subject::TypeName(entry.name.copy()?)),
        None => Ok(Subject::Nothing),
    }
}

// A symbol, by its place.
fn symbol_subject(symbols: &[Symbol], place: u32) -> Result<Subject, AllocError>
    ensures { IfOk result (λ s. s ≡ symbol_subject symbols.now place) }
{
    match symbols.get(place as usize) {
        Some(symbol) => Ok(Subject::Symbol(symbol.name.copy()?)),
        None => Ok(Subject::Nothing),
    }
}

fn used_subject(m: &Module, names: &Names, used: Used) -> Result<Subject, AllocError>
    ensures { IfOk result (λ s. s ≡ used_subject m.now names.now used) }
{
    match used {
        Used::Local(id) => local_subject(names, id),
        Used::Symbol(place) => symbol_subject(m.symbols.as_slice(), place),
        Used::TypeName(place) => type_subject(m.type_names.as_slice(), place),
    }
}

// In the definitions of types.
fn missing_in_definitions(missing: &[Option<u32>], names: &[TypeName]) -> Option<u32>
    ensures { result ≡ first_of (λ (n : TypeName). missing_in_definition missing.now n.ty)
        names.now }
{
    for entry in names {
        if let NamedType::Defined(id) = entry.ty
            && let Some(place) = missing_at(missing, id)
        {
            return Some(place);
        }
    }
    None
}

// In the types of variables.
fn missing_in_symbols(missing: &[Option<u32>], symbols: &[Symbol]) -> Option<u32>
    ensures { result ≡ first_of (λ (s : Symbol). missing_in_symbol missing.now s.kind) symbols.now }
{
    for symbol in symbols {
        if let SymbolKind::Variable(id, _) = symbol.kind
            && let Some(place) = missing_at(missing, id)
        {
            return Some(place);
        }
    }
    None
}

fn unknown_in(
    alloc: Global,
    m: &Module,
    symbols: &[bool],
    missing: &[Option<u32>],
    function: &Function,
) -> Result<Option<Breach>, AllocError>
    ensures { IfOk result (λ found. found ≡ unknown_in m.now symbols.now missing.now function.now) }
{
    let definitions = definitions_of(alloc, function)?;
    let locals = defined_marks(alloc, function.names.len(), definitions.as_slice())?;
    let known = Known {
        locals: locals.as_slice(),
        symbols,
        missing,
    };
    match unknown_blocks(&known, function.body.as_slice())? {
        Some((used, place)) => Ok(Some(Breach {
            function: Some(function.name.copy()?),
            subject: used_subject(m, &function.names, used)?,
            place,
        })),
        None => Ok(None),
    }
}

fn unknown_in_functions(
    alloc: Global,
    m: &Module,
    symbols: &[bool],
    missing: &[Option<u32>],
) -> Result<Option<Breach>, AllocError>
    ensures { IfOk result (λ found. found ≡ first_of (unknown_in m.now symbols.now missing.now)
        m.now.functions) }
{
    for function in m.functions.as_slice() {
        if let Some(breach) = unknown_in(alloc, m, symbols, missing, function)? {
            return Ok(Some(breach));
        }
    }
    Ok(None)
}

fn first_unknown(alloc: Global, m: &Module) -> Result<Option<Breach>, AllocError>
    ensures { IfOk result (λ found. found ≡ first_unknown m.now) }
{
    let names = m.type_names.as_slice();
    let missing = missing_names(alloc, names, m.types.as_slice())?;
    if let Some(place) = missing_in_definitions(missing.as_slice(), names) {
        return Ok(Some(outside(type_subject(names, place)?)));
    }
    if let Some(place) = missing_in_symbols(missing.as_slice(), m.symbols.as_slice()) {
        return Ok(Some(outside(type_subject(names, place)?)));
    }
    let symbols = symbol_marks(alloc, m.symbols.as_slice())?;
    unknown_in_functions(alloc, m, symbols.as_slice(), missing.as_slice())
}

/// The first use of a local, a label, a type or a symbol that is neither defined nor declared. What is called is not looked at.
///
/// # Errors
///
/// Where there is no memory; so it is said of a function of 2^32 instructions or more, too.
pub fn unknown_name(alloc: Global, m: &Module) -> Result<Option<Breach>, AllocError>
    requires is_module { IsModule m.now }
    ensures { IfOk result (λ found. found ≡ first (unknown_names (tree_of m.now))) }
{
    first_unknown(alloc, m)
}
