// Values behind their types.

ghost use Rattle.std.specs.Prelude.{◌≡◌, List, IfOk};
ghost use Rattle.text_forms.specs.declared.TokenKind.TheVariants.{Comma};
ghost use Rattle.ir_types.specs.Types.{IsType, IsOneOf, widths};
ghost use Rattle.text_forms.specs.Combined.{after_mark};
ghost use Rattle.ir_types.specs.InstParts.{typed_value, comma_typed, typed_pair, pointer_value, index_value};
ghost use Rattle.ir_types.specs.InstForms.{three_values};
ghost use Rattle.ir_reader_values.specs.Seen.{operand_seen, definitions, Widens, Stays, OperandAdds, ReadsAs, ReadsOver};
ghost use Rattle.ir_reader_values.specs.View.{typed_in, pair_in, three_in, PairAdds, ThreeAdd};

use crate::operand::value_at;
use crate::scope::Scope;
use ir_reader_types::{value_type, width};
use ir_types::{Operand, Ty};
use std::alloc::Global;
use text_forms::{Cursor, SyntaxFault, TokenKind};

/// Three operands, each behind its type.
pub type ThreeValues = ((Ty, Operand), ((Ty, Operand), (Ty, Operand)));

/// T V.
#[tactic(auto, using(crate::proofs::Operands::typed_value_is))]
pub fn typed_value<'t>(
    alloc: Global,
    tokens: Cursor<'t>,
    scope: &mut Scope,
) -> Result<((Ty, Operand), Cursor<'t>), SyntaxFault>
    ensures grows { Widens scope.old scope.new }
    ensures reads { ReadsOver typed_in typed_value tokens.entry scope.old result scope.new }
    ensures stays { Stays typed_in scope.new result }
    ensures written { IfOk result (λ x. IsType x.0.0) }
    ensures uses { IfOk result (λ x. OperandAdds scope.old x.0.1 scope.new) }
{
    let (ty, rest) = value_type(tokens)?;
    let (operand, rest) = value_at(alloc, ty, rest, scope)?;
    Ok(((ty, operand), rest))
}

/// T V behind a comma.
pub fn comma_typed<'t>(
    alloc: Global,
    tokens: Cursor<'t>,
    scope: &mut Scope,
) -> Result<((Ty, Operand), Cursor<'t>), SyntaxFault>
    ensures grows { Widens scope.old scope.new }
    ensures reads { ReadsOver typed_in comma_typed tokens.entry scope.old result scope.new }
    ensures stays { Stays typed_in scope.new result }
    ensures uses { IfOk result (λ x. OperandAdds scope.old x.0.1 scope.new) }
{
    let rest = tokens.mark(TokenKind::Comma)?;
    typed_value(alloc, rest, scope)
}

/// T V, T V, T V.
pub fn three_values<'t>(
    alloc: Global,
    tokens: Cursor<'t>,
    scope: &mut Scope,
) -> Result<(ThreeValues, Cursor<'t>), SyntaxFault>
    ensures grows { Widens scope.old scope.new }
    ensures reads { ReadsOver three_in three_values tokens.entry scope.old result scope.new }
    ensures stays { Stays three_in scope.new result }
    ensures uses { IfOk result (λ x. ThreeAdd scope.old x.0 scope.new) }
{
    let (first, rest) = typed_value(alloc, tokens, scope)?;
    let (second, rest) = comma_typed(alloc, rest, scope)?;
    let (third, rest) = comma_typed(alloc, rest, scope)?;
    Ok(((first, (second, third)), rest))
}

/// T V, V.
#[tactic(auto, using(crate::proofs::Operands::typed_pair_is))]
pub fn typed_pair<'t>(
    alloc: Global,
    tokens: Cursor<'t>,
    scope: &mut Scope,
) -> Result<((Ty, (Operand, Operand)), Cursor<'t>), SyntaxFault>
    ensures grows { Widens scope.old scope.new }
    ensures reads { ReadsOver pair_in typed_pair tokens.entry scope.old result scope.new }
    ensures stays { Stays pair_in scope.new result }
    ensures uses { IfOk result (λ x. PairAdds scope.old x.0 scope.new) }
{
    let (ty, rest) = value_type(tokens)?;
    let (first, rest) = value_at(alloc, ty, rest, scope)?;
    let rest = rest.mark(TokenKind::Comma)?;
    let (second, rest) = value_at(alloc, ty, rest, scope)?;
    Ok(((ty, (first, second)), rest))
}

/// ptr V.
#[tactic(auto, using(crate::proofs::Operands::pointer_is))]
pub fn pointer_value<'t>(
    alloc: Global,
    tokens: Cursor<'t>,
    scope: &mut Scope,
) -> Result<(Operand, Cursor<'t>), SyntaxFault>
    ensures grows { Widens scope.old scope.new }
    ensures reads { ReadsOver operand_seen pointer_value tokens.entry scope.old result scope.new }
    ensures stays { Stays operand_seen scope.new result }
    ensures uses { IfOk result (λ x. OperandAdds scope.old x.0 scope.new) }
{
    let rest = tokens.word(b"ptr")?;
    value_at(alloc, Ty::Ptr, rest, scope)
}

/// ptr V behind a comma.
pub fn comma_pointer<'t>(
    alloc: Global,
    tokens: Cursor<'t>,
    scope: &mut Scope,
) -> Result<(Operand, Cursor<'t>), SyntaxFault>
    ensures grows { Widens scope.old scope.new }
    ensures reads { ReadsAs (operand_seen scope.new) result (after_mark Comma (pointer_value (definitions scope.old))) tokens.entry }
    ensures stays { Stays operand_seen scope.new result }
    ensures uses { IfOk result (λ x. OperandAdds scope.old x.0 scope.new) }
{
    let rest = tokens.mark(TokenKind::Comma)?;
    pointer_value(alloc, rest, scope)
}

/// iN V: the width and the value.
#[tactic(auto, using(crate::proofs::Operands::index_is))]
pub fn index_value<'t>(
    alloc: Global,
    tokens: Cursor<'t>,
    scope: &mut Scope,
) -> Result<((u32, Operand), Cursor<'t>), SyntaxFault>
    ensures grows { Widens scope.old scope.new }
    ensures reads { ReadsOver typed_in index_value tokens.entry scope.old result scope.new }
    ensures stays { Stays typed_in scope.new result }
    ensures written { IfOk result (λ x. IsOneOf widths x.0.0) }
    ensures uses { IfOk result (λ x. OperandAdds scope.old x.0.1 scope.new) }
{
    let (width, rest) = width(tokens)?;
    let (operand, rest) = value_at(alloc, Ty::Int(width), rest, scope)?;
    Ok(((width, operand), rest))
}

/// iN V behind a comma.
pub fn comma_index<'t>(
    alloc: Global,
    tokens: Cursor<'t>,
    scope: &mut Scope,
) -> Result<((u32, Operand), Cursor<'t>), SyntaxFault>
    ensures grows { Widens scope.old scope.new }
    ensures reads { ReadsAs (typed_in scope.new) result (after_mark Comma (index_value (definitions scope.old))) tokens.entry }
    ensures stays { Stays typed_in scope.new result }
    ensures uses { IfOk result (λ x. OperandAdds scope.old x.0.1 scope.new) }
{
    let rest = tokens.mark(TokenKind::Comma)?;
    let (value, rest) = index_value(alloc, rest, scope)?;
    Ok((value, rest))
}
