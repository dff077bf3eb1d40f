// Terminators, without the words before them.

ghost use Rattle.std.specs.Prelude.{◌≡◌, ◌∷◌, [], ◌≤◌, List, map};
ghost use Rattle.text_forms.specs.declared.TokenKind.TheVariants.{Comma};
ghost use Rattle.text_forms.specs.Form.{mapped};
ghost use Rattle.text_forms.specs.Gives.{Gives, left};
ghost use Rattle.text_forms.specs.Combined.{after_mark};
ghost use Rattle.ir_types.specs.InstParts.{target, typed_value};
ghost use Rattle.ir_types.specs.InstForms.{branch, return_tree, ret};
ghost use Rattle.ir_reader_control.specs.Conditions.{conditional_read};
ghost use Rattle.ir_reader_values.specs.Seen.{name_seen, operand_seen, inst_seen, definitions, Widens, Stays, InstAdds, ReadsAs, ReadsOver};

use ir_making::{applied, bare, one_label, one_operand, two_labels};
use ir_reader_types::begins_type;
use ir_reader_values::{Scope, local_id, typed_value, value_at};
use ir_types::{Inst, InstKind, Ty, ValueId};
use lists::Few;
use std::alloc::Global;
use text_forms::{Cursor, SyntaxFault, TokenKind};

/// label %name.
#[tactic(auto, unfolding(ir_types::specs::InstParts::target))]
fn target<'t>(
    alloc: Global,
    tokens: Cursor<'t>,
    scope: &mut Scope,
) -> Result<(ValueId, Cursor<'t>), SyntaxFault>
    ensures grows { Widens scope.old scope.new }
    ensures reads { ReadsAs (name_seen scope.new) result target tokens.entry }
    ensures stays { Stays name_seen scope.new result }
    ensures tables { scope.new.tables ≡ scope.old.tables }
{
    let Some(rest) = tokens.behind_word(b"label") else {
        return Err(tokens.refusal());
    };
    local_id(alloc, rest, scope)
}

/// A target behind a comma.
pub fn comma_target<'t>(
    alloc: Global,
    tokens: Cursor<'t>,
    scope: &mut Scope,
) -> Result<(ValueId, Cursor<'t>), SyntaxFault>
    ensures grows { Widens scope.old scope.new }
    ensures reads { ReadsAs (name_seen scope.new) result (after_mark Comma target) tokens.entry }
    ensures stays { Stays name_seen scope.new result }
    ensures tables { scope.new.tables ≡ scope.old.tables }
{
    let rest = tokens.mark(TokenKind::Comma)?;
    target(alloc, rest, scope)
}

/// V, label %name, label %name behind the condition's type.
fn conditional<'t>(
    alloc: Global,
    tokens: Cursor<'t>,
    scope: &mut Scope,
) -> Result<(Inst, Cursor<'t>), SyntaxFault>
    ensures grows { Widens scope.old scope.new }
    ensures reads { Gives (λ x. (inst_seen scope.new x.0, left x.1)) result (conditional_read (definitions scope.old) (left tokens.entry)) }
    ensures stays { Stays inst_seen scope.new result }
    ensures uses { InstAdds scope.old result scope.new }
{
    let (condition, rest) = value_at(alloc, Ty::Int(1), tokens, scope)?;
    let (then, rest) = comma_target(alloc, rest, scope)?;
    let (otherwise, rest) = comma_target(alloc, rest, scope)?;
    let args = one_operand(alloc, condition)?;
    let labels = two_labels(alloc, then, otherwise)?;
    Ok((bare(alloc, InstKind::Branch, Ty::Void, args, labels), rest))
}

/// label %name | i1 V, label %name, label %name.
#[tactic(auto, unfolding(ir_types::specs::InstForms::branch, ir_types::specs::InstParts::target))]
pub fn branch<'t>(
    alloc: Global,
    tokens: Cursor<'t>,
    scope: &mut Scope,
) -> Result<(Inst, Cursor<'t>), SyntaxFault>
    ensures grows { Widens scope.old scope.new }
    ensures reads { ReadsOver inst_seen branch tokens.entry scope.old result scope.new }
    ensures stays { Stays inst_seen scope.new result }
    ensures uses { InstAdds scope.old result scope.new }
{
    if let Some(rest) = tokens.behind_word(b"i1") {
        let (inst, rest) = conditional(alloc, rest, scope)?;
        return Ok((inst, rest));
    }
    let (label, rest) = target(alloc, tokens, scope)?;
    let labels = one_label(alloc, label)?;
    let args = Few::new(alloc);
    Ok((bare(alloc, InstKind::Jump, Ty::Void, args, labels), rest))
}

/// T V.
fn returned_value<'t>(
    alloc: Global,
    tokens: Cursor<'t>,
    scope: &mut Scope,
) -> Result<(Inst, Cursor<'t>), SyntaxFault>
    ensures grows { Widens scope.old scope.new }
    ensures reads { ReadsAs (inst_seen scope.new) result (mapped return_tree (typed_value (definitions scope.old))) tokens.entry }
    ensures stays { Stays inst_seen scope.new result }
    ensures uses { InstAdds scope.old result scope.new }
{
    let ((ty, value), rest) = typed_value(alloc, tokens, scope)?;
    let args = one_operand(alloc, value)?;
    Ok((applied(alloc, InstKind::Return(ty), Ty::Void, args), rest))
}

/// T V | void.
#[tactic(auto, unfolding(ir_types::specs::InstForms::ret, ir_types::specs::InstParts::typed_value, ir_types::specs::TypeForms::value_type, ir_types::specs::TypeForms::vector_type, ir_types::specs::TypeForms::width))]
pub fn give_back<'t>(
    alloc: Global,
    tokens: Cursor<'t>,
    scope: &mut Scope,
) -> Result<(Inst, Cursor<'t>), SyntaxFault>
    ensures grows { Widens scope.old scope.new }
    ensures reads { ReadsOver inst_seen ret tokens.entry scope.old result scope.new }
    ensures stays { Stays inst_seen scope.new result }
    ensures uses { InstAdds scope.old result scope.new }
{
    if begins_type(tokens) {
        return returned_value(alloc, tokens, scope);
    }
    let rest = tokens.word(b"void")?;
    let args = Few::new(alloc);
    Ok((applied(alloc, InstKind::ReturnVoid, Ty::Void, args), rest))
}
