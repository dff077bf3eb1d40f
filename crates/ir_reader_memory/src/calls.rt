// Calls, behind their word.

ghost use Rattle.std.specs.Prelude.{◌≡◌, IfOk};
ghost use Rattle.text_forms.specs.declared.TokenKind.TheVariants.{Comma};
ghost use Rattle.text_forms.specs.Reading.{read, opens};
ghost use Rattle.text_forms.specs.Walk.{completed};
ghost use Rattle.text_forms.specs.Gives.{Gives, left};
ghost use Rattle.ir_types.specs.Offsets.{Definitions};
ghost use Rattle.text_forms.specs.Combined.{marked, list};
ghost use Rattle.ir_types.specs.InstForms.{argument, call, call_behind};
ghost use Rattle.ir_reader_values.specs.Seen.{inst_seen, definitions, Widens, Stays, InstAdds, OperandAdds, OperandsAdd, ReadsAs, ReadsOver};
ghost use Rattle.ir_reader_values.specs.Split.{split_each};
ghost use Rattle.ir_reader_values.specs.Split.{as_two};
ghost use Rattle.ir_reader_memory.specs.Calls.{actual_in, actuals_in, some_arguments_read, arguments_read, call_read};

use crate::signature::signature;
use ir_making::{applied, one_operand};
use ir_reader_types::{begins_type, global, return_type, value_type};
use ir_reader_values::{Scope, kept, value_at};
use ir_types::{Actual, Callee, Inst, InstKind, Operand, Operands, TailKind};
use lists::{Few, Items};
use std::alloc::Global;
use text_forms::{Cursor, SyntaxFault, TokenKind};

/// T K V.
#[tactic(auto, using(crate::proofs::Callees::argument_is))]
fn argument<'t>(
    alloc: Global,
    tokens: Cursor<'t>,
    scope: &mut Scope,
) -> Result<((Actual, Operand), Cursor<'t>), SyntaxFault>
    ensures grows { Widens scope.old scope.new }
    ensures reads { ReadsOver actual_in argument tokens.entry scope.old result scope.new }
    ensures stays { Stays actual_in scope.new result }
    ensures uses { IfOk result (λ x. OperandAdds scope.old x.0.1 scope.new) }
{
    let (ty, rest) = value_type(tokens)?;
    let (kept, rest) = kept(alloc, rest)?;
    let (value, rest) = value_at(alloc, ty, rest, scope)?;
    Ok(((Actual { ty, kept }, value), rest))
}

/// An argument behind a comma.
fn comma_argument<'t>(
    alloc: Global,
    tokens: Cursor<'t>,
    scope: &mut Scope,
) -> Result<((Actual, Operand), Cursor<'t>), SyntaxFault>
    ensures grows { Widens scope.old scope.new }
    ensures reads { ReadsAs (actual_in scope.new) result (marked Comma (argument (definitions scope.old))) tokens.entry }
    ensures stays { Stays actual_in scope.new result }
    ensures uses { IfOk result (λ x. OperandAdds scope.old x.0.1 scope.new) }
{
    let rest = tokens.mark(TokenKind::Comma)?;
    let (found, rest) = argument(alloc, rest, scope)?;
    Ok((found, rest))
}

/// Whether a comma and an argument stand next.
#[tactic(auto, unfolding(ir_types::specs::InstForms::argument, ir_types::specs::TypeForms::value_type, ir_types::specs::TypeForms::vector_type, ir_types::specs::TypeForms::width))]
fn another(tokens: Cursor<'_>) -> bool
    ensures { (defs : Definitions) → result ≡ opens (marked Comma (argument defs)) (left tokens.entry) }
{
    match tokens.split_first() {
        Some((TokenKind::Comma, _, rest)) => begins_type(rest),
        _ => false,
    }
}

/// T K V, ..
fn some_arguments<'t>(
    alloc: Global,
    tokens: Cursor<'t>,
    scope: &mut Scope,
) -> Result<((Vec<Actual>, Operands), Cursor<'t>), SyntaxFault>
    ensures grows { Widens scope.old scope.new }
    ensures reads { Gives (λ x. (actuals_in scope.new (x.0.0.items, x.0.1), left x.1)) result (some_arguments_read (definitions scope.old) (left tokens.entry)) }
    ensures stays { Stays (λ s x. actuals_in s (x.0.items, x.1)) scope.new result }
    ensures uses { IfOk result (λ x. OperandsAdd scope.old x.0.1 scope.new) }
{
    let ((actual, value), mut rest) = argument(alloc, tokens, scope)?;
    let mut actuals = Vec::new(alloc);
    actuals.push(actual)?;
    let mut values = one_operand(alloc, value)?;
    'more: while another(rest) {
        let ((actual, value), after) = comma_argument(alloc, rest, scope)?;
        actuals.push(actual)?;
        values.push(value)?;
        rest = after;
    }
    Ok(((actuals, values), rest))
}

/// T K V, .., or nothing.
fn arguments<'t>(
    alloc: Global,
    tokens: Cursor<'t>,
    scope: &mut Scope,
) -> Result<((Vec<Actual>, Operands), Cursor<'t>), SyntaxFault>
    ensures grows { Widens scope.old scope.new }
    ensures reads { Gives (λ x. (actuals_in scope.new (x.0.0.items, x.0.1), left x.1)) result (completed (split_each as_two) (read (list (argument (definitions scope.old))) (left tokens.entry))) }
    ensures stays { Stays (λ s x. actuals_in s (x.0.items, x.1)) scope.new result }
    ensures uses { IfOk result (λ x. OperandsAdd scope.old x.0.1 scope.new) }
{
    if begins_type(tokens) {
        return some_arguments(alloc, tokens, scope);
    }
    Ok(((Vec::new(alloc), Few::new(alloc)), tokens))
}

/// ( T K V, .. ).
fn enclosed_arguments<'t>(
    alloc: Global,
    tokens: Cursor<'t>,
    scope: &mut Scope,
) -> Result<((Items<Actual>, Operands), Cursor<'t>), SyntaxFault>
    ensures grows { Widens scope.old scope.new }
    ensures reads { Gives (λ x. (actuals_in scope.new x.0, left x.1)) result (arguments_read (definitions scope.old) (left tokens.entry)) }
    ensures stays { Stays actuals_in scope.new result }
    ensures uses { IfOk result (λ x. OperandsAdd scope.old x.0.1 scope.new) }
{
    let rest = tokens.mark(TokenKind::LeftParen)?;
    let ((actuals, values), rest) = arguments(alloc, rest, scope)?;
    let rest = rest.mark(TokenKind::RightParen)?;
    Ok(((Items::from_vec(actuals), values), rest))
}

/// K R [( T, .. [, ...] )] @name ( T K V, .. ) K.
#[tactic(auto, using(crate::proofs::Callees::call_is))]
fn call<'t>(
    alloc: Global,
    tail: TailKind,
    tokens: Cursor<'t>,
    scope: &mut Scope,
) -> Result<(Inst, Cursor<'t>), SyntaxFault>
    ensures grows { Widens scope.old scope.new }
    ensures reads { ReadsAs (inst_seen scope.new) result (call (definitions scope.old) tail) tokens.entry }
    ensures stays { Stays inst_seen scope.new result }
    ensures uses { InstAdds scope.old result scope.new }
{
    let (before, rest) = kept(alloc, tokens)?;
    let (ty, rest) = return_type(rest)?;
    let (signature, rest) = signature(alloc, rest)?;
    let (name, rest) = global(alloc, rest)?;
    let ((actuals, args), rest) = enclosed_arguments(alloc, rest, scope)?;
    let (after, rest) = kept(alloc, rest)?;
    let callee = Callee {
        tail,
        before,
        signature,
        name,
        actuals,
        after,
    };
    Ok((applied(alloc, InstKind::Call(callee), ty, args), rest))
}

/// The same behind `call`, or, where a word stands before it, behind that and `call`.
pub fn call_behind<'t>(
    alloc: Global,
    tail: TailKind,
    tokens: Cursor<'t>,
    scope: &mut Scope,
) -> Result<(Inst, Cursor<'t>), SyntaxFault>
    ensures grows { Widens scope.old scope.new }
    ensures reads { ReadsAs (inst_seen scope.new) result (call_behind (definitions scope.old) tail) tokens.entry }
    ensures stays { Stays inst_seen scope.new result }
    ensures uses { InstAdds scope.old result scope.new }
{
    match tail {
        TailKind::Unmarked => call(alloc, tail, tokens, scope),
        TailKind::Tail | TailKind::MustTail | TailKind::NoTail => {
            let rest = tokens.word(b"call")?;
            call(alloc, tail, rest, scope)
        }
    }
}
