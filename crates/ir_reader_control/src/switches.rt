// The cases of a switch, and the switch without its word.

ghost use Rattle.std.specs.Prelude.{◌≡◌, ◌≤◌, List, map, IfOk};
ghost use Rattle.text_forms.specs.Reading.{read, opens};
ghost use Rattle.text_forms.specs.Walk.{completed};
ghost use Rattle.text_forms.specs.Gives.{Gives, left};
ghost use Rattle.ir_types.specs.Types.{IsOneOf, widths};
ghost use Rattle.ir_types.specs.InstForms.{case_of_switch, switch};
ghost use Rattle.ir_reader_control.specs.Labelled.{labels_in, case_at, case_in, cases_in, cases_read, switch_head, head_in};
ghost use Rattle.ir_reader_values.specs.Seen.{name_seen, inst_seen, Widens, AreSteady, Stays, InstAdds, OperandAdds, ReadsOver};

use crate::branches::comma_target;
use ir_making::{bare, one_label, one_operand};
use ir_reader_types::{begins_width, width};
use ir_reader_values::{Scope, fits_width, index_value, number_at};
use ir_types::{Inst, InstKind, Labels, Operand, Ty, ValueId};
use lists::Items;
use std::alloc::Global;
use text_forms::{Cursor, SyntaxFault, TokenKind};

/// iN number, label %name, where the width is this: the number, whether it is out of range, and the label.
#[tactic(auto, unfolding(ir_types::specs::InstForms::case_of_switch))]
fn case<'t>(
    alloc: Global,
    bits: u32,
    tokens: Cursor<'t>,
    scope: &mut Scope,
) -> Result<(((u64, bool), ValueId), Cursor<'t>), SyntaxFault>
    requires { bits ≤ 64 }
    ensures grows { Widens scope.old scope.new }
    ensures reads { Gives (λ x. (case_in scope.new x.0, left x.1)) result (completed (case_at bits) (read case_of_switch (left tokens.entry))) }
    ensures stays { Stays case_in scope.new result }
    ensures tables { scope.new.tables ≡ scope.old.tables }
{
    let (written, rest) = width(tokens)?;
    let (digits, rest) = rest.one(TokenKind::Number)?;
    let (label, rest) = comma_target(alloc, rest, scope)?;
    if written != bits {
        return Err(tokens.refusal());
    }
    let number = number_at(bits, digits);
    let outside = !fits_width(written, digits);
    Ok((((number, outside), label), rest))
}

/// Whether a case stands next.
#[tactic(auto, unfolding(ir_types::specs::InstForms::case_of_switch, ir_types::specs::TypeForms::width))]
fn begins_case(tokens: Cursor<'_>) -> bool
    ensures { result ≡ opens case_of_switch (left tokens.entry) }
{
    begins_width(tokens)
}

/// The numbers of the cases, whether one of them is out of range, and the labels behind those before them.
fn cases<'t>(
    alloc: Global,
    bits: u32,
    labels: Labels,
    tokens: Cursor<'t>,
    scope: &mut Scope,
) -> Result<(((Vec<u64>, bool), Labels), Cursor<'t>), SyntaxFault>
    requires narrow { bits ≤ 64 }
    requires labels { AreSteady name_seen scope.old labels }
    ensures grows { Widens scope.old scope.new }
    ensures reads { Gives (λ x. (cases_in scope.new ((x.0.0.0.items, x.0.0.1), x.0.1), left x.1)) result (cases_read bits (labels_in scope.old labels) (left tokens.entry)) }
    ensures stays { Stays (λ ns x. cases_in ns ((x.0.0.items, x.0.1), x.1)) scope.new result }
    ensures tables { scope.new.tables ≡ scope.old.tables }
{
    let mut numbers = Vec::new(alloc);
    let mut wide = false;
    let mut labels = labels;
    let mut rest = tokens;
    'more: while begins_case(rest) {
        let (((number, outside), label), after) = case(alloc, bits, rest, scope)?;
        numbers.push(number)?;
        wide |= outside;
        labels.push(label)?;
        rest = after;
    }
    Ok((((numbers, wide), labels), rest))
}

/// iN V, label %name.
fn head<'t>(
    alloc: Global,
    tokens: Cursor<'t>,
    scope: &mut Scope,
) -> Result<(((u32, Operand), ValueId), Cursor<'t>), SyntaxFault>
    ensures grows { Widens scope.old scope.new }
    ensures reads { ReadsOver head_in switch_head tokens.entry scope.old result scope.new }
    ensures stays { Stays head_in scope.new result }
    ensures written { IfOk result (λ x. IsOneOf widths x.0.0.0) }
    ensures uses { IfOk result (λ x. OperandAdds scope.old x.0.0.1 scope.new) }
{
    let (value, rest) = index_value(alloc, tokens, scope)?;
    let (default, rest) = comma_target(alloc, rest, scope)?;
    Ok(((value, default), rest))
}

/// iN V, label %name [ iN number, label %name .. ].
#[tactic(auto, using(crate::proofs::Labelled::switch_is))]
pub fn switch<'t>(
    alloc: Global,
    tokens: Cursor<'t>,
    scope: &mut Scope,
) -> Result<(Inst, Cursor<'t>), SyntaxFault>
    ensures grows { Widens scope.old scope.new }
    ensures reads { ReadsOver inst_seen switch tokens.entry scope.old result scope.new }
    ensures stays { Stays inst_seen scope.new result }
    ensures uses { InstAdds scope.old result scope.new }
{
    let (((bits, value), default), rest) = head(alloc, tokens, scope)?;
    let rest = rest.mark(TokenKind::LeftBracket)?;
    let labels = one_label(alloc, default)?;
    let (((numbers, wide), labels), rest) = cases(alloc, bits, labels, rest, scope)?;
    let rest = rest.mark(TokenKind::RightBracket)?;
    let args = one_operand(alloc, value)?;
    let kind = InstKind::Switch(bits, Items::from_vec(numbers));
    let inst = bare(alloc, kind, Ty::Void, args, labels);
    Ok((Inst { wide, ..inst }, rest))
}
