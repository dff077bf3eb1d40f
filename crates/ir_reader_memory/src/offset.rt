// `getelementptr`, without its word.

ghost use Rattle.std.specs.Prelude.{◌≡◌, map, IfOk};
ghost use Rattle.text_forms.specs.Reading.{opens};
ghost use Rattle.text_forms.specs.Gives.{Gives, left};
ghost use Rattle.ir_types.specs.Offsets.{Definitions};
ghost use Rattle.ir_types.specs.InstForms.{getelementptr};
ghost use Rattle.ir_reader_values.specs.Seen.{operand_seen, inst_seen, definitions, Widens, AreSteady, Stays, OperandsUse, InstAdds, OperandAdds, OperandsAdd, ReadsOver};
ghost use Rattle.ir_reader_values.specs.View.{typed_in};
ghost use Rattle.ir_reader_memory.specs.Offsets.{next_index, steps_in, indexes_read, steps_read};

use ir_making::{applied, one_operand};
use ir_reader_types::begins_width;
use ir_reader_values::{Scope, comma_pointer, index_value, memory, three_flags};
use ir_types::{Inst, InstKind, Operand, Operands, Ty};
use lists::Items;
use std::alloc::Global;
use text_forms::{Cursor, SyntaxFault, TokenKind};

/// iN V behind a comma.
fn next_index<'t>(
    alloc: Global,
    tokens: Cursor<'t>,
    scope: &mut Scope,
) -> Result<((u32, Operand), Cursor<'t>), SyntaxFault>
    ensures grows { Widens scope.old scope.new }
    ensures reads { ReadsOver typed_in next_index tokens.entry scope.old result scope.new }
    ensures stays { Stays typed_in scope.new result }
    ensures uses { IfOk result (λ x. OperandAdds scope.old x.0.1 scope.new) }
{
    let rest = tokens.mark(TokenKind::Comma)?;
    let (value, rest) = index_value(alloc, rest, scope)?;
    Ok((value, rest))
}

/// Whether a comma and an index stand next.
#[tactic(auto, unfolding(ir_types::specs::InstParts::index_value, ir_types::specs::TypeForms::width))]
fn another(tokens: Cursor<'_>) -> bool
    ensures { (defs : Definitions) → result ≡ opens (next_index defs) (left tokens.entry) }
{
    match tokens.split_first() {
        Some((TokenKind::Comma, _, rest)) => begins_width(rest),
        _ => false,
    }
}

/// The widths of the indexes, at least one, and the indexes behind the operands before them.
fn indexes<'t>(
    alloc: Global,
    before: Operands,
    tokens: Cursor<'t>,
    scope: &mut Scope,
) -> Result<((Vec<u32>, Operands), Cursor<'t>), SyntaxFault>
    requires { AreSteady operand_seen scope.old before }
    ensures grows { Widens scope.old scope.new }
    ensures reads { Gives (λ x. (steps_in scope.new (x.0.0.items, x.0.1), left x.1)) result (indexes_read (definitions scope.old) (map (operand_seen scope.old) before) (left tokens.entry)) }
    ensures stays { Stays (λ s x. steps_in s (x.0.items, x.1)) scope.new result }
    ensures uses { IfOk result (λ x. (start : Scope) → OperandsUse start (map (operand_seen scope.old) before) scope.old → OperandsUse start (map (operand_seen scope.new) x.0.1) scope.new) }
{
    let mut operands = before;
    let mut widths = Vec::new(alloc);
    let ((width, index), mut rest) = next_index(alloc, tokens, scope)?;
    widths.push(width)?;
    operands.push(index)?;
    'more: while another(rest) {
        let ((width, index), after) = next_index(alloc, rest, scope)?;
        widths.push(width)?;
        operands.push(index)?;
        rest = after;
    }
    Ok(((widths, operands), rest))
}

/// , ptr V, iN V, ..
fn steps<'t>(
    alloc: Global,
    tokens: Cursor<'t>,
    scope: &mut Scope,
) -> Result<((Items<u32>, Operands), Cursor<'t>), SyntaxFault>
    ensures grows { Widens scope.old scope.new }
    ensures reads { Gives (λ x. (steps_in scope.new x.0, left x.1)) result (steps_read (definitions scope.old) (left tokens.entry)) }
    ensures stays { Stays steps_in scope.new result }
    ensures uses { IfOk result (λ x. OperandsAdd scope.old x.0.1 scope.new) }
{
    let (pointer, rest) = comma_pointer(alloc, tokens, scope)?;
    let before = one_operand(alloc, pointer)?;
    let ((widths, operands), rest) = indexes(alloc, before, rest, scope)?;
    Ok(((Items::from_vec(widths), operands), rest))
}

/// [inbounds] [nuw] [nusw] M, ptr V, iN V, ..
#[tactic(auto, using(crate::proofs::Offsets::getelementptr_is))]
pub fn getelementptr<'t>(
    alloc: Global,
    tokens: Cursor<'t>,
    scope: &mut Scope,
) -> Result<(Inst, Cursor<'t>), SyntaxFault>
    ensures grows { Widens scope.old scope.new }
    ensures reads { ReadsOver inst_seen getelementptr tokens.entry scope.old result scope.new }
    ensures stays { Stays inst_seen scope.new result }
    ensures uses { InstAdds scope.old result scope.new }
{
    let ((inbounds, (nuw, nusw)), rest) = three_flags(tokens);
    let (id, rest) = memory(alloc, rest, scope)?;
    let ((widths, args), rest) = steps(alloc, rest, scope)?;
    let kind = InstKind::Offset(id, widths, inbounds, nuw, nusw);
    Ok((applied(alloc, kind, Ty::Ptr, args), rest))
}
