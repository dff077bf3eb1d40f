// Symbols, and symbols that are stepped through in a constant.

ghost use Rattle.std.specs.Prelude.{◌≡◌, codes, map, All, IfOk, ◌∷◌, []};
ghost use Rattle.text_forms.specs.declared.TokenKind.TheVariants.{Comma};
ghost use Rattle.text_forms.specs.Form.{mapped};
ghost use Rattle.text_forms.specs.Reading.{read};
ghost use Rattle.text_forms.specs.Gives.{Gives, left};
ghost use Rattle.ir_types.specs.TypeNodes.{names_used};
ghost use Rattle.ir_types.specs.Tree.{global};
ghost use Rattle.ir_reader_types.specs.Uses.{Uses};
ghost use Rattle.text_forms.specs.Combined.{after_mark, behind, some};
ghost use Rattle.ir_types.specs.TypeForms.{global_name, inst_memory};
ghost use Rattle.ir_types.specs.ValueForms.{comma_index, stepped, constant_offset};
ghost use Rattle.ir_reader_values.specs.Seen.{nodes_seen, symbol_seen, Widens, Stays, ReadsAs, SymbolAdds, TypeAdds};
ghost use Rattle.ir_reader_values.specs.View.{index_in, HasWidth, written_in, AreIndexed, WrittenUses};

use crate::flags::three_flags;
use crate::scope::Scope;
use crate::value::Written;
use ir_reader_types::{global, width};
use ir_types::TypeId;
use lists::Items;
use std::alloc::Global;
use text_forms::{Cursor, SyntaxFault, TokenKind};

/// An index as it is written.
#[derive(Clone, Copy, Debug)]
pub struct WrittenIndex<'t> {
    /// The width in bits, from 1 to 64.
    pub width: u32,
    /// The token of a number.
    pub digits: &'t [u8],
}

/// A memory type, which is added to the module's.
#[tactic(auto, using(crate::proofs::Widening::tables_widen))]
pub fn memory<'t>(
    alloc: Global,
    tokens: Cursor<'t>,
    scope: &mut Scope,
) -> Result<(TypeId, Cursor<'t>), SyntaxFault>
    ensures grows { Widens scope.old scope.new }
    ensures reads { ReadsAs (nodes_seen scope.new) result inst_memory tokens.entry }
    ensures stays { Stays nodes_seen scope.new result }
    ensures uses { IfOk result (λ x. TypeAdds scope.old x.0 scope.new) }
{
    let (id, rest) = scope.tables.memory_type(alloc, tokens)?;
    Ok((id, rest))
}

/// The place of a symbol, which is added to the module's where it is new.
#[tactic(auto, using(crate::proofs::Widening::tables_widen, crate::proofs::Widening::widens_refl))]
pub fn symbol<'t>(
    alloc: Global,
    tokens: Cursor<'t>,
    scope: &mut Scope,
) -> Result<(u32, Cursor<'t>), SyntaxFault>
    ensures grows { Widens scope.old scope.new }
    ensures reads { ReadsAs (symbol_seen scope.new) result global_name tokens.entry }
    ensures stays { Stays symbol_seen scope.new result }
    ensures uses { IfOk result (λ x. SymbolAdds scope.old x.0 scope.new) }
{
    let (name, rest) = global(alloc, tokens)?;
    let id = scope.tables.symbol(name)?;
    Ok((id, rest))
}

/// @name behind a comma and `ptr`.
fn comma_symbol<'t>(
    alloc: Global,
    tokens: Cursor<'t>,
    scope: &mut Scope,
) -> Result<(u32, Cursor<'t>), SyntaxFault>
    ensures grows { Widens scope.old scope.new }
    ensures reads { ReadsAs (symbol_seen scope.new) result (after_mark Comma (behind (codes "ptr") global_name)) tokens.entry }
    ensures stays { Stays symbol_seen scope.new result }
    ensures uses { IfOk result (λ x. SymbolAdds scope.old x.0 scope.new) }
{
    let rest = tokens.mark(TokenKind::Comma)?;
    let rest = rest.word(b"ptr")?;
    symbol(alloc, rest, scope)
}

/// iN number behind a comma.
fn comma_index<'t>(tokens: Cursor<'t>) -> Result<(WrittenIndex<'t>, Cursor<'t>), SyntaxFault>
    ensures reads { ReadsAs index_in result comma_index tokens.entry }
    ensures within { IfOk result (λ x. HasWidth x.0) }
{
    let rest = tokens.mark(TokenKind::Comma)?;
    let (width, rest) = width(rest)?;
    let (digits, rest) = rest.one(TokenKind::Number)?;
    Ok((WrittenIndex { width, digits }, rest))
}

/// Indexes, at least one.
fn indexes<'t>(
    alloc: Global,
    tokens: Cursor<'t>,
) -> Result<(Vec<WrittenIndex<'t>>, Cursor<'t>), SyntaxFault>
    ensures reads { Gives (λ x. (map index_in x.0.items, left x.1)) result (read (some comma_index) (left tokens.entry)) }
    ensures within { IfOk result (λ x. All HasWidth x.0.items) }
{
    let (first, mut rest) = comma_index(tokens)?;
    let mut indexes = Vec::new(alloc);
    indexes.push(first)?;
    'more: while rest.is_next(TokenKind::Comma) {
        let (next, after) = comma_index(rest)?;
        indexes.push(next)?;
        rest = after;
    }
    Ok((indexes, rest))
}

/// ( M, ptr @name, iN number, .. ).
#[tactic(auto, unfolding(ir_types::specs::ValueForms::constant_offset))]
pub fn constant_offset<'t>(
    alloc: Global,
    tokens: Cursor<'t>,
    scope: &mut Scope,
) -> Result<(Written<'t>, Cursor<'t>), SyntaxFault>
    ensures grows { Widens scope.old scope.new }
    ensures reads { ReadsAs (written_in scope.new) result (mapped stepped constant_offset) tokens.entry }
    ensures stays { Stays written_in scope.new result }
    ensures indexed { IfOk result (λ x. AreIndexed x.0) }
    ensures uses { IfOk result (λ x. WrittenUses scope.old (written_in scope.new x.0) scope.new) }
{
    let rest = tokens.word(b"getelementptr")?;
    let (_, rest) = three_flags(rest);
    let rest = rest.mark(TokenKind::LeftParen)?;
    let (id, rest) = memory(alloc, rest, scope)?;
    let (symbol, rest) = comma_symbol(alloc, rest, scope)?;
    let (indexes, rest) = indexes(alloc, rest)?;
    let rest = rest.mark(TokenKind::RightParen)?;
    let indexes = Items::from_vec(indexes);
    Ok((Written::Stepped(id, symbol, indexes), rest))
}
