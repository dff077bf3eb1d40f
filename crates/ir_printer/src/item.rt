// The lines of a module, its named types and its variables.

ghost use Rattle.std.specs.Prelude.{◌≡◌, ◌<◌, ◌++◌, [], flat_map, filter_map, codes, length};
ghost use Rattle.ir_types.specs.Types.{AreTypes};
ghost use Rattle.ir_types.specs.Denotes.{type_names_of, nodes_in, type_name_in, symbol_in};
ghost use Rattle.ir_shape.specs.Modules.{IsModule};
ghost use Rattle.ir_shape.specs.Placed.{IsNamedPlaced, IsSymbolPlaced};
ghost use Rattle.ir_printer_types.specs.Appends.{Appends, Prints};
ghost use Rattle.ir_printer_types.specs.Pieces.{local_token};
ghost use Rattle.ir_printer_types.specs.MemoryPieces.{node_pieces};
ghost use Rattle.ir_printer.specs.Print.{for_one, type_name_pieces, variable_word, variable_pieces, symbol_pieces, is_comdat, whole_line, head_line_pieces, comdat_line_pieces};

use crate::kept::{put_kept_behind, put_kept_then_blank, put_line};
use ir_printer_types::memory_type::put_memory_type;
use ir_printer_types::name::put_name;
use ir_types::{Kept, Module, Name, NamedType, Symbol, SymbolKind, TypeId, TypeName};
use std::alloc::{AllocError, Global};

// Whether a line at the head is that of a comdat.
fn is_comdat(line: &Kept) -> bool
    ensures { result ≡ is_comdat line.now }
{
    !line.is_empty() && line.at(0).starts_with(b"$".as_slice())
}

// Appends a line of the head, or nothing where it is that of a comdat.
fn put_head_line(out: &mut Vec<u8>, line: &Kept) -> Result<(), AllocError>
    ensures { Prints out.old out.new result (head_line_pieces line.now) }
{
    if is_comdat(line) {
        return Ok(());
    }
    put_line(out, line)
}

// Appends the line of a comdat, or nothing where it is another line of the head.
fn put_comdat(out: &mut Vec<u8>, line: &Kept) -> Result<(), AllocError>
    ensures { Prints out.old out.new result (comdat_line_pieces line.now) }
{
    if !is_comdat(line) {
        return Ok(());
    }
    put_line(out, line)
}

/// Appends the lines of the head but those of comdats.
pub(crate) fn put_head_lines(out: &mut Vec<u8>, lines: &[Kept]) -> Result<(), AllocError>
    ensures { Prints out.old out.new result (flat_map head_line_pieces lines.now) }
{
    for line in lines {
        put_head_line(out, line)?;
    }
    Ok(())
}

/// Appends the comdats among the lines of the head.
pub(crate) fn put_comdats(out: &mut Vec<u8>, lines: &[Kept]) -> Result<(), AllocError>
    ensures { Prints out.old out.new result (flat_map comdat_line_pieces lines.now) }
{
    for line in lines {
        put_comdat(out, line)?;
    }
    Ok(())
}

/// Appends lines.
pub(crate) fn put_lines(out: &mut Vec<u8>, lines: &[Kept]) -> Result<(), AllocError>
    ensures { Prints out.old out.new result (flat_map whole_line lines.now) }
{
    for line in lines {
        put_line(out, line)?;
    }
    Ok(())
}

/// Appends the type at a place.
pub(crate) fn put_type_at(
    alloc: Global,
    out: &mut Vec<u8>,
    m: &Module,
    id: TypeId,
) -> Result<(), AllocError>
    requires types { AreTypes (type_names_of m.now) 0 m.now.types }
    requires place { id.0 < length m.now.types }
    ensures { Prints out.old out.new result (node_pieces (nodes_in m.now id)) }
{
    put_memory_type(alloc, out, m.types.as_slice(), m.type_names.as_slice(), id)
}

// Appends `%name = type `.
fn put_definition(out: &mut Vec<u8>, name: &Name) -> Result<(), AllocError>
    ensures { Appends out.old out.new result ((local_token name.now).text ++ codes " = type ") }
{
    out.push(b'%')?;
    put_name(out, name)?;
    out.extend_from_slice(b" = type ")
}

// Appends a name of a type and what it stands for, on a line, or nothing where that is missing.
#[tactic(auto, using(crate::proofs::Appended::definition_text, std::proofs::lemmas::Grind::common_steps))]
fn put_type_name(
    alloc: Global,
    out: &mut Vec<u8>,
    m: &Module,
    name: &TypeName,
) -> Result<(), AllocError>
    requires types { AreTypes (type_names_of m.now) 0 m.now.types }
    requires place { IsNamedPlaced m.now.types name.now.ty }
    ensures { Prints out.old out.new result
        (for_one type_name_pieces (type_name_in m.now name.now)) }
{
    match name.ty {
        NamedType::Missing => Ok(()),
        NamedType::Opaque => {
            put_definition(out, &name.name)?;
            out.extend_from_slice(b"opaque\n")?;
            Ok(())
        }
        NamedType::Defined(id) => {
            put_definition(out, &name.name)?;
            put_type_at(alloc, out, m, id)?;
            out.push(b'\n')?;
            Ok(())
        }
    }
}

/// Appends the named types.
pub(crate) fn put_type_names(alloc: Global, out: &mut Vec<u8>, m: &Module) -> Result<(), AllocError>
    requires { IsModule m.now }
    ensures { Prints out.old out.new result
        (flat_map type_name_pieces (filter_map (type_name_in m.now) m.now.type_names)) }
{
    for name in m.type_names.as_slice() {
        put_type_name(alloc, out, m, name)?;
    }
    Ok(())
}

fn word_of_variable(writable: bool) -> &'static [u8]
    ensures { result.now ≡ variable_word writable }
{
    if writable { b"global" } else { b"constant" }
}

// Appends a variable on a line.
fn put_variable(
    alloc: Global,
    out: &mut Vec<u8>,
    m: &Module,
    symbol: &Symbol,
    id: TypeId,
    writable: bool,
) -> Result<(), AllocError>
    requires types { AreTypes (type_names_of m.now) 0 m.now.types }
    requires place { id.0 < length m.now.types }
    ensures { Prints out.old out.new result (variable_pieces (record {
      name = symbol.now.name;
      before = symbol.now.before;
      writable = writable;
      ty = nodes_in m.now id;
      after = symbol.now.after;
    })) }
{
    out.push(b'@')?;
    put_name(out, &symbol.name)?;
    out.extend_from_slice(b" = ")?;
    put_kept_then_blank(out, &symbol.before)?;
    out.extend_from_slice(word_of_variable(writable))?;
    out.push(b' ')?;
    put_type_at(alloc, out, m, id)?;
    put_kept_behind(out, &symbol.after)?;
    out.push(b'\n')?;
    Ok(())
}

// Appends a symbol that is a variable, and nothing for another.
fn put_symbol(
    alloc: Global,
    out: &mut Vec<u8>,
    m: &Module,
    symbol: &Symbol,
) -> Result<(), AllocError>
    requires types { AreTypes (type_names_of m.now) 0 m.now.types }
    requires place { IsSymbolPlaced m.now symbol.now.kind }
    ensures { Prints out.old out.new result (for_one symbol_pieces (symbol_in m.now symbol.now)) }
{
    match symbol.kind {
        SymbolKind::Variable(id, writable) => put_variable(alloc, out, m, symbol, id, writable),
        SymbolKind::Function(_) | SymbolKind::Missing => Ok(()),
    }
}

/// Appends the variables.
pub(crate) fn put_variables(alloc: Global, out: &mut Vec<u8>, m: &Module) -> Result<(), AllocError>
    requires { IsModule m.now }
    ensures { Prints out.old out.new result
        (flat_map symbol_pieces (filter_map (symbol_in m.now) m.now.symbols)) }
{
    for symbol in m.symbols.as_slice() {
        put_symbol(alloc, out, m, symbol)?;
    }
    Ok(())
}
