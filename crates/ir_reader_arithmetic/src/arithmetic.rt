// Operators of integers, comparisons, `select` and `freeze`, without the words before them.

ghost use Rattle.std.specs.Prelude.{◌≡◌, List};
ghost use Rattle.ir_types.specs.InstForms.{overflowing, possibly_exact, plain_binary, or_operation, compared, compare, bits_for, select, freeze};
ghost use Rattle.ir_reader_values.specs.Seen.{operand_seen, inst_seen, definitions, Widens, Stays, InstAdds, ReadsAs, ReadsOver};

use crate::words::predicate_of;
use ir_making::{applied, binary, one_operand, three_operands, two_operands};
use ir_reader_values::{Scope, one_flag, three_values, two_flags, typed_pair, typed_value};
use ir_types::{BinOp, Flags, Inst, InstKind, Pred, Ty};
use std::alloc::Global;
use text_forms::{Cursor, SyntaxFault, TokenKind};

static NO_FLAGS: Flags = Flags {
    nuw: false,
    nsw: false,
    exact: false,
    disjoint: false,
};

/// [nuw] [nsw] T V, V.
#[tactic(auto, unfolding(ir_types::specs::InstForms::overflowing))]
pub fn overflowing<'t>(
    alloc: Global,
    operator: BinOp,
    tokens: Cursor<'t>,
    scope: &mut Scope,
) -> Result<(Inst, Cursor<'t>), SyntaxFault>
    ensures grows { Widens scope.old scope.new }
    ensures reads { ReadsAs (inst_seen scope.new) result (overflowing (definitions scope.old) operator) tokens.entry }
    ensures stays { Stays inst_seen scope.new result }
    ensures uses { InstAdds scope.old result scope.new }
{
    let ((nuw, nsw), rest) = two_flags(tokens, b"nuw", b"nsw");
    let ((ty, (first, second)), rest) = typed_pair(alloc, rest, scope)?;
    let flags = Flags {
        nuw,
        nsw,
        ..NO_FLAGS
    };
    let inst = binary(alloc, operator, flags, ty, first, second)?;
    Ok((inst, rest))
}

/// [exact] T V, V.
#[tactic(auto, unfolding(ir_types::specs::InstForms::possibly_exact))]
pub fn possibly_exact<'t>(
    alloc: Global,
    operator: BinOp,
    tokens: Cursor<'t>,
    scope: &mut Scope,
) -> Result<(Inst, Cursor<'t>), SyntaxFault>
    ensures grows { Widens scope.old scope.new }
    ensures reads { ReadsAs (inst_seen scope.new) result (possibly_exact (definitions scope.old) operator) tokens.entry }
    ensures stays { Stays inst_seen scope.new result }
    ensures uses { InstAdds scope.old result scope.new }
{
    let (exact, rest) = one_flag(tokens, b"exact");
    let ((ty, (first, second)), rest) = typed_pair(alloc, rest, scope)?;
    let flags = Flags { exact, ..NO_FLAGS };
    let inst = binary(alloc, operator, flags, ty, first, second)?;
    Ok((inst, rest))
}

/// T V, V behind a word that takes no flags.
#[tactic(auto, unfolding(ir_types::specs::InstForms::plain_binary))]
pub fn plain_binary<'t>(
    alloc: Global,
    operator: BinOp,
    tokens: Cursor<'t>,
    scope: &mut Scope,
) -> Result<(Inst, Cursor<'t>), SyntaxFault>
    ensures grows { Widens scope.old scope.new }
    ensures reads { ReadsAs (inst_seen scope.new) result (plain_binary (definitions scope.old) operator) tokens.entry }
    ensures stays { Stays inst_seen scope.new result }
    ensures uses { InstAdds scope.old result scope.new }
{
    let ((ty, (first, second)), rest) = typed_pair(alloc, tokens, scope)?;
    let inst = binary(alloc, operator, NO_FLAGS, ty, first, second)?;
    Ok((inst, rest))
}

/// [disjoint] T V, V.
#[tactic(auto, unfolding(ir_types::specs::InstForms::or_operation))]
pub fn or_operation<'t>(
    alloc: Global,
    tokens: Cursor<'t>,
    scope: &mut Scope,
) -> Result<(Inst, Cursor<'t>), SyntaxFault>
    ensures grows { Widens scope.old scope.new }
    ensures reads { ReadsOver inst_seen or_operation tokens.entry scope.old result scope.new }
    ensures stays { Stays inst_seen scope.new result }
    ensures uses { InstAdds scope.old result scope.new }
{
    let (disjoint, rest) = one_flag(tokens, b"disjoint");
    let ((ty, (first, second)), rest) = typed_pair(alloc, rest, scope)?;
    let flags = Flags {
        disjoint,
        ..NO_FLAGS
    };
    let inst = binary(alloc, BinOp::Or, flags, ty, first, second)?;
    Ok((inst, rest))
}

/// The type of a comparison's result.
fn bits_for(ty: Ty) -> Ty
    ensures { result ≡ bits_for ty }
{
    match ty {
        Ty::Vector(lanes, _) => Ty::Vector(lanes, 1),
        Ty::Int(_) | Ty::Ptr | Ty::Void => Ty::Int(1),
    }
}

/// T V, V behind the predicate.
#[tactic(auto, unfolding(ir_types::specs::InstForms::compared))]
fn compared<'t>(
    alloc: Global,
    predicate: Pred,
    tokens: Cursor<'t>,
    scope: &mut Scope,
) -> Result<(Inst, Cursor<'t>), SyntaxFault>
    ensures grows { Widens scope.old scope.new }
    ensures reads { ReadsAs (inst_seen scope.new) result (compared (definitions scope.old) predicate) tokens.entry }
    ensures stays { Stays inst_seen scope.new result }
    ensures uses { InstAdds scope.old result scope.new }
{
    let ((ty, (first, second)), rest) = typed_pair(alloc, tokens, scope)?;
    let args = two_operands(alloc, first, second)?;
    let kind = InstKind::Compare(predicate, ty);
    Ok((applied(alloc, kind, bits_for(ty), args), rest))
}

/// pred T V, V.
#[tactic(auto, unfolding(ir_types::specs::InstForms::compare))]
pub fn comparison<'t>(
    alloc: Global,
    tokens: Cursor<'t>,
    scope: &mut Scope,
) -> Result<(Inst, Cursor<'t>), SyntaxFault>
    ensures grows { Widens scope.old scope.new }
    ensures reads { ReadsOver inst_seen compare tokens.entry scope.old result scope.new }
    ensures stays { Stays inst_seen scope.new result }
    ensures uses { InstAdds scope.old result scope.new }
{
    let (word, rest) = tokens.one(TokenKind::Word)?;
    match predicate_of(word) {
        Some(predicate) => compared(alloc, predicate, rest, scope),
        None => Err(tokens.refusal()),
    }
}

/// T V, T V, T V: a condition and two arms.
#[tactic(auto, unfolding(ir_types::specs::InstForms::select))]
pub fn selection<'t>(
    alloc: Global,
    tokens: Cursor<'t>,
    scope: &mut Scope,
) -> Result<(Inst, Cursor<'t>), SyntaxFault>
    ensures grows { Widens scope.old scope.new }
    ensures reads { ReadsOver inst_seen select tokens.entry scope.old result scope.new }
    ensures stays { Stays inst_seen scope.new result }
    ensures uses { InstAdds scope.old result scope.new }
{
    let (values, rest) = three_values(alloc, tokens, scope)?;
    let ((condition_type, condition), ((ty, then), (last_type, otherwise))) = values;
    let args = three_operands(alloc, condition, then, otherwise)?;
    let kind = InstKind::Select(condition_type, last_type);
    Ok((applied(alloc, kind, ty, args), rest))
}

/// T V.
#[tactic(auto, unfolding(ir_types::specs::InstForms::freeze))]
pub fn freeze<'t>(
    alloc: Global,
    tokens: Cursor<'t>,
    scope: &mut Scope,
) -> Result<(Inst, Cursor<'t>), SyntaxFault>
    ensures grows { Widens scope.old scope.new }
    ensures reads { ReadsOver inst_seen freeze tokens.entry scope.old result scope.new }
    ensures stays { Stays inst_seen scope.new result }
    ensures uses { InstAdds scope.old result scope.new }
{
    let ((ty, operand), rest) = typed_value(alloc, tokens, scope)?;
    let args = one_operand(alloc, operand)?;
    Ok((applied(alloc, InstKind::Freeze, ty, args), rest))
}
