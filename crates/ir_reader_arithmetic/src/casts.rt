// Casts, without the words before them.

ghost use Rattle.std.specs.Prelude.{◌≡◌, List};
ghost use Rattle.text_forms.specs.Reading.{read};
ghost use Rattle.text_forms.specs.Gives.{Gives, left};
ghost use Rattle.ir_types.specs.InstParts.{to_type};
ghost use Rattle.ir_types.specs.InstForms.{trunc, zext, sext, ptrtoint};
ghost use Rattle.ir_reader_values.specs.Seen.{operand_seen, inst_seen, Widens, Stays, InstAdds, ReadsOver};

use ir_making::{applied, one_operand};
use ir_reader_types::value_type;
use ir_reader_values::{Scope, one_flag, pointer_value, two_flags, typed_value};
use ir_types::{Inst, InstKind, Ty};
use std::alloc::Global;
use text_forms::{Cursor, SyntaxFault};

/// to T.
fn to_type<'t>(tokens: Cursor<'t>) -> Result<(Ty, Cursor<'t>), SyntaxFault>
    ensures { Gives (λ x. (x.0, left x.1)) result (read to_type (left tokens.entry)) }
{
    let rest = tokens.word(b"to")?;
    let (ty, rest) = value_type(rest)?;
    Ok((ty, rest))
}

/// [nuw] [nsw] T V to T.
#[tactic(auto, unfolding(ir_types::specs::InstForms::trunc))]
pub fn trunc<'t>(
    alloc: Global,
    tokens: Cursor<'t>,
    scope: &mut Scope,
) -> Result<(Inst, Cursor<'t>), SyntaxFault>
    ensures grows { Widens scope.old scope.new }
    ensures reads { ReadsOver inst_seen trunc tokens.entry scope.old result scope.new }
    ensures stays { Stays inst_seen scope.new result }
    ensures uses { InstAdds scope.old result scope.new }
{
    let ((nuw, nsw), rest) = two_flags(tokens, b"nuw", b"nsw");
    let ((from, operand), rest) = typed_value(alloc, rest, scope)?;
    let (ty, rest) = to_type(rest)?;
    let args = one_operand(alloc, operand)?;
    let kind = InstKind::Trunc(from, nuw, nsw);
    Ok((applied(alloc, kind, ty, args), rest))
}

/// [nneg] T V to T.
#[tactic(auto, unfolding(ir_types::specs::InstForms::zext))]
pub fn zext<'t>(
    alloc: Global,
    tokens: Cursor<'t>,
    scope: &mut Scope,
) -> Result<(Inst, Cursor<'t>), SyntaxFault>
    ensures grows { Widens scope.old scope.new }
    ensures reads { ReadsOver inst_seen zext tokens.entry scope.old result scope.new }
    ensures stays { Stays inst_seen scope.new result }
    ensures uses { InstAdds scope.old result scope.new }
{
    let (nneg, rest) = one_flag(tokens, b"nneg");
    let ((from, operand), rest) = typed_value(alloc, rest, scope)?;
    let (ty, rest) = to_type(rest)?;
    let args = one_operand(alloc, operand)?;
    Ok((applied(alloc, InstKind::Zext(from, nneg), ty, args), rest))
}

/// T V to T.
#[tactic(auto, unfolding(ir_types::specs::InstForms::sext))]
pub fn sext<'t>(
    alloc: Global,
    tokens: Cursor<'t>,
    scope: &mut Scope,
) -> Result<(Inst, Cursor<'t>), SyntaxFault>
    ensures grows { Widens scope.old scope.new }
    ensures reads { ReadsOver inst_seen sext tokens.entry scope.old result scope.new }
    ensures stays { Stays inst_seen scope.new result }
    ensures uses { InstAdds scope.old result scope.new }
{
    let ((from, operand), rest) = typed_value(alloc, tokens, scope)?;
    let (ty, rest) = to_type(rest)?;
    let args = one_operand(alloc, operand)?;
    Ok((applied(alloc, InstKind::Sext(from), ty, args), rest))
}

/// ptr V to T.
#[tactic(auto, unfolding(ir_types::specs::InstForms::ptrtoint))]
pub fn ptrtoint<'t>(
    alloc: Global,
    tokens: Cursor<'t>,
    scope: &mut Scope,
) -> Result<(Inst, Cursor<'t>), SyntaxFault>
    ensures grows { Widens scope.old scope.new }
    ensures reads { ReadsOver inst_seen ptrtoint tokens.entry scope.old result scope.new }
    ensures stays { Stays inst_seen scope.new result }
    ensures uses { InstAdds scope.old result scope.new }
{
    let (pointer, rest) = pointer_value(alloc, tokens, scope)?;
    let (ty, rest) = to_type(rest)?;
    let args = one_operand(alloc, pointer)?;
    Ok((applied(alloc, InstKind::PtrToInt, ty, args), rest))
}
