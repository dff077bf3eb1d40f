// The entries of a phi, and the phi without its word.

ghost use Rattle.std.specs.Prelude.{◌≡◌, List, IfOk};
ghost use Rattle.text_forms.specs.declared.TokenKind.TheVariants.{Comma};
ghost use Rattle.text_forms.specs.Reading.{read, opens};
ghost use Rattle.text_forms.specs.Walk.{completed};
ghost use Rattle.text_forms.specs.Gives.{Gives, left};
ghost use Rattle.ir_types.specs.Types.{IsType};
ghost use Rattle.text_forms.specs.Combined.{commas, marked};
ghost use Rattle.ir_types.specs.InstForms.{entry_of_phi, phi};
ghost use Rattle.ir_reader_values.specs.Split.{split_each};
ghost use Rattle.ir_reader_control.specs.Labelled.{entry_at, entry_in, entries_in};
ghost use Rattle.ir_reader_values.specs.Seen.{inst_seen, definitions, Widens, Stays, InstAdds, OperandAdds, OperandsAdd, ReadsOver};

use ir_making::{bare, one_label, one_operand};
use ir_reader_types::value_type;
use ir_reader_values::{Scope, comma_local, value_at};
use ir_types::{Inst, InstKind, Labels, Operand, Operands, Ty, ValueId};
use std::alloc::Global;
use text_forms::{Cursor, SyntaxFault, TokenKind};

/// `[ V, %name ]` at a type.
#[tactic(auto, using(crate::proofs::Labelled::entry_is))]
fn entry<'t>(
    alloc: Global,
    ty: Ty,
    tokens: Cursor<'t>,
    scope: &mut Scope,
) -> Result<((Operand, ValueId), Cursor<'t>), SyntaxFault>
    requires { IsType ty }
    ensures grows { Widens scope.old scope.new }
    ensures reads { Gives (λ x. (entry_in scope.new x.0, left x.1)) result (completed (entry_at (definitions scope.old) ty) (read entry_of_phi (left tokens.entry))) }
    ensures stays { Stays entry_in scope.new result }
    ensures uses { IfOk result (λ x. OperandAdds scope.old x.0.0 scope.new) }
{
    let rest = tokens.mark(TokenKind::LeftBracket)?;
    let (value, rest) = value_at(alloc, ty, rest, scope)?;
    let (label, rest) = comma_local(alloc, rest, scope)?;
    let rest = rest.mark(TokenKind::RightBracket)?;
    Ok(((value, label), rest))
}

/// An entry behind a comma.
fn comma_entry<'t>(
    alloc: Global,
    ty: Ty,
    tokens: Cursor<'t>,
    scope: &mut Scope,
) -> Result<((Operand, ValueId), Cursor<'t>), SyntaxFault>
    requires { IsType ty }
    ensures grows { Widens scope.old scope.new }
    ensures reads { Gives (λ x. (entry_in scope.new x.0, left x.1)) result (completed (entry_at (definitions scope.old) ty) (read (marked Comma entry_of_phi) (left tokens.entry))) }
    ensures stays { Stays entry_in scope.new result }
    ensures uses { IfOk result (λ x. OperandAdds scope.old x.0.0 scope.new) }
{
    let rest = tokens.mark(TokenKind::Comma)?;
    let (found, rest) = entry(alloc, ty, rest, scope)?;
    Ok((found, rest))
}

/// Whether a comma and an entry stand next.
#[tactic(auto, unfolding(ir_types::specs::InstForms::entry_of_phi))]
fn another(tokens: Cursor<'_>) -> bool
    ensures { result ≡ opens (marked Comma entry_of_phi) (left tokens.entry) }
{
    match tokens.split_first() {
        Some((TokenKind::Comma, _, rest)) => rest.is_next(TokenKind::LeftBracket),
        _ => false,
    }
}

/// The operands and the labels of the entries, at least one, parted by commas.
fn entries<'t>(
    alloc: Global,
    ty: Ty,
    tokens: Cursor<'t>,
    scope: &mut Scope,
) -> Result<((Operands, Labels), Cursor<'t>), SyntaxFault>
    requires { IsType ty }
    ensures grows { Widens scope.old scope.new }
    ensures reads { Gives (λ x. (entries_in scope.new x.0, left x.1)) result (completed (split_each (entry_at (definitions scope.old) ty)) (read (commas entry_of_phi) (left tokens.entry))) }
    ensures stays { Stays entries_in scope.new result }
    ensures uses { IfOk result (λ x. OperandsAdd scope.old x.0.0 scope.new) }
{
    let ((operand, label), mut rest) = entry(alloc, ty, tokens, scope)?;
    let mut operands = one_operand(alloc, operand)?;
    let mut labels = one_label(alloc, label)?;
    'more: while another(rest) {
        let ((operand, label), after) = comma_entry(alloc, ty, rest, scope)?;
        operands.push(operand)?;
        labels.push(label)?;
        rest = after;
    }
    Ok(((operands, labels), rest))
}

/// T [ V, %name ], ..
#[tactic(auto, using(crate::proofs::Labelled::phi_is))]
pub fn phi<'t>(
    alloc: Global,
    tokens: Cursor<'t>,
    scope: &mut Scope,
) -> Result<(Inst, Cursor<'t>), SyntaxFault>
    ensures grows { Widens scope.old scope.new }
    ensures reads { ReadsOver inst_seen phi tokens.entry scope.old result scope.new }
    ensures stays { Stays inst_seen scope.new result }
    ensures uses { InstAdds scope.old result scope.new }
{
    let (ty, rest) = value_type(tokens)?;
    let ((args, labels), rest) = entries(alloc, ty, rest, scope)?;
    Ok((bare(alloc, InstKind::Phi, ty, args, labels), rest))
}
