// Functions are read, when it is known what names of types stand for.

ghost use Rattle.std.specs.Prelude.{◌≡◌, map, IfOk};
ghost use Rattle.std.specs.List.{AllByRecursion};
ghost use Rattle.text_forms.specs.Gives.{Gives};
ghost use Rattle.text_forms.specs.Nested.{concat};
ghost use Rattle.ir_types.specs.declared.module.Function.{Function};
ghost use Rattle.ir_types.specs.Names.{IsTable};
ghost use Rattle.ir_types.specs.Denotes.{function_in};
ghost use Rattle.ir_types.specs.Used.{insts_of};
ghost use Rattle.ir_reader_types.specs.Tables.{TableLists, tables_in, definitions_of, Grows};
ghost use Rattle.ir_reader_types.specs.Uses.{InstsUse};
ghost use Rattle.ir_reader.specs.Gathered.{skimmed_of};
ghost use Rattle.ir_reader.specs.Reading.{function_read, functions_read};

use ir_reader_functions::{declared, defined};
use ir_reader_items::FunctionSource;
use ir_reader_types::Tables;
use ir_types::Function;
use std::alloc::Global;
use text_forms::{Cursor, SyntaxFault};

/// The function that stands there.
fn function(
    alloc: Global,
    source: &FunctionSource<'_>,
    tables: &mut Tables,
) -> Result<Function, SyntaxFault>
    ensures grows { Grows tables.old tables.new }
    ensures reads { Gives (λ f. function_in (tables_in tables.new) f) result (function_read (definitions_of tables.old) (skimmed_of source.now)) }
    ensures stays { IfOk result (λ f. (later : TableLists) → Grows tables.new later → function_in (tables_in later) f ≡ function_in (tables_in tables.new) f) }
    ensures table { IfOk result (λ f. IsTable f.names) }
    ensures uses { IfOk result (λ f. InstsUse tables.old (insts_of (function_in (tables_in tables.new) f)) tables.new) }
{
    if source.defined {
        let (function, _) = defined(alloc, source.tokens, tables)?;
        return Ok(function);
    }
    let (function, _) = declared(alloc, source.tokens)?;
    Ok(function)
}

/// The functions, in their order.
pub fn functions(
    alloc: Global,
    sources: &[FunctionSource<'_>],
    tables: &mut Tables,
) -> Result<Vec<Function>, SyntaxFault>
    ensures grows { Grows tables.old tables.new }
    ensures reads { Gives (λ fs. map (function_in (tables_in tables.new)) fs.items) result (functions_read (definitions_of tables.old) (map skimmed_of sources.now)) }
    ensures tables { IfOk result (λ fs. AllByRecursion (λ (f : Function). IsTable f.names) fs.items) }
    ensures uses { IfOk result (λ fs. InstsUse tables.old (concat (map insts_of (map (function_in (tables_in tables.new)) fs.items))) tables.new) }
{
    let mut functions = Vec::with_capacity(alloc, sources.len())?;
    for source in sources {
        let function = function(alloc, source, tables)?;
        functions.push(function)?;
    }
    Ok(functions)
}

/// Reads the function with which the tokens begin, if one does, whether or not its brackets match.
///
/// # Errors
///
/// Where it can't be read, with the place at which reading stops, or there is no room.
pub fn try_function(
    alloc: Global,
    tokens: Cursor<'_>,
    tables: &mut Tables,
) -> Result<(), SyntaxFault> {
    if let Some(rest) = tokens.behind_word(b"define") {
        defined(alloc, rest, tables)?;
    } else if let Some(rest) = tokens.behind_word(b"declare") {
        declared(alloc, rest)?;
    }
    Ok(())
}
