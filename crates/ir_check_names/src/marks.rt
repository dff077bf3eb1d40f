// A mark for each name of a list.

ghost use Rattle.std.specs.Prelude.{◌≡◌, false, true, length, map, replicate, slice_index_or, slice_set, IfOk};
ghost use Rattle.ir_types.specs.declared.module.Symbol.{Symbol};
ghost use Rattle.ir_check_names.specs.Definitions.{all_marked, is_symbol_known};

use crate::definitions::Definition;
use ir_types::{Symbol, SymbolKind};
use std::alloc::{AllocError, Global};

// Whether the name at a place is marked.
pub(crate) fn is_marked(marks: &[bool], place: u32) -> bool
    ensures { result ≡ slice_index_or marks.now place false }
{
    match marks.get(place as usize) {
        Some(mark) => *mark,
        None => false,
    }
}

// Marks the name at a place.
pub(crate) fn set_mark(marks: &mut [bool], place: u32)
    ensures { marks.new ≡ slice_set marks.old place true }
{
    if (place as usize) < marks.len() {
        marks[place as usize] = true;
    }
}

/// Of so many names, those that are defined.
///
/// # Errors
///
/// Where there is no memory.
pub(crate) fn defined_marks(
    alloc: Global,
    count: usize,
    definitions: &[Definition],
) -> Result<Vec<bool>, AllocError>
    ensures { IfOk result (λ marks. marks.items ≡ all_marked (replicate count false)
        definitions.now) }
{
    let mut marks = vec![in alloc; false; count]?;
    for definition in definitions {
        set_mark(marks.as_mut_slice(), definition.name.0);
    }
    Ok(marks)
}

/// Of the symbols, those that are defined or declared.
///
/// # Errors
///
/// Where there is no memory.
pub(crate) fn symbol_marks(alloc: Global, symbols: &[Symbol]) -> Result<Vec<bool>, AllocError>
    ensures { IfOk result (λ marks. marks.items ≡ map (λ (s : Symbol). is_symbol_known s.kind)
        symbols.now) }
{
    let mut marks = Vec::new(alloc);
    for symbol in symbols {
        marks.push(!matches!(symbol.kind, SymbolKind::Missing))?;
    }
    Ok(marks)
}
