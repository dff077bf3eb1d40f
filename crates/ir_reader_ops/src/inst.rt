// Instructions, without the names of their results.

ghost use Rattle.std.specs.Prelude.{◌≡◌, IfOk};
ghost use Rattle.text_forms.specs.Form.{by_word};
ghost use Rattle.text_forms.specs.Reading.{opens, next_in, words_of};
ghost use Rattle.text_forms.specs.Gives.{Gives, left};
ghost use Rattle.ir_types.specs.Offsets.{Definitions};
ghost use Rattle.ir_types.specs.Words.{operation_words, terminator_words};
ghost use Rattle.ir_types.specs.InstForms.{operation_behind, terminator_behind, operation, terminator};
ghost use Rattle.ir_reader_values.specs.Seen.{inst_seen, definitions, Widens, Stays, InstAdds, ReadsAs, ReadsOver};
ghost use Rattle.std.specs.List.{list_any};
ghost use Rattle.ir_reader_ops.specs.Words.{is_outside, attached_to, bare_terminator, form_at, instruction};

use crate::words::{operation_of, terminator_of};
use ir_making::applied;
use ir_reader_arithmetic::{
    comparison, extract, freeze, insert, or_operation, overflowing, plain_binary, possibly_exact,
    ptrtoint, selection, sext, shuffle, trunc, zext,
};
use ir_reader_control::{branch, give_back, phi, switch};
use ir_reader_memory::{call_behind, getelementptr, load, store};
use ir_reader_values::Scope;
use ir_types::{Inst, InstKind, Operand, Operation, Terminator, Ty};
use kept_runs::keep_comma_attachments;
use lists::{Few, Texts};
use std::alloc::Global;
use text_forms::{Cursor, SyntaxFault, TokenKind};

/// Where an instruction stands in its block.
#[derive(Clone, Copy, Debug)]
pub enum Place {
    /// Before the last one.
    Inside,
    /// At the end.
    Last,
}

/// An instruction that doesn't end a block, before its attachments.
fn bare_operation<'t>(
    alloc: Global,
    tokens: Cursor<'t>,
    scope: &mut Scope,
) -> Result<(Inst, Cursor<'t>), SyntaxFault>
    ensures grows { Widens scope.old scope.new }
    ensures reads { ReadsAs (inst_seen scope.new) result (by_word operation_words (operation_behind (definitions scope.old))) tokens.entry }
    ensures stays { Stays inst_seen scope.new result }
    ensures uses { InstAdds scope.old result scope.new }
{
    let (word, rest) = tokens.one(TokenKind::Word)?;
    let Some(operation) = operation_of(word) else {
        return Err(tokens.refusal());
    };
    match operation {
        Operation::Overflowing(operator) => overflowing(alloc, operator, rest, scope),
        Operation::PossiblyExact(operator) => possibly_exact(alloc, operator, rest, scope),
        Operation::Plain(operator) => plain_binary(alloc, operator, rest, scope),
        Operation::Or => or_operation(alloc, rest, scope),
        Operation::Icmp => comparison(alloc, rest, scope),
        Operation::Select => selection(alloc, rest, scope),
        Operation::Freeze => freeze(alloc, rest, scope),
        Operation::Trunc => trunc(alloc, rest, scope),
        Operation::Zext => zext(alloc, rest, scope),
        Operation::Sext => sext(alloc, rest, scope),
        Operation::PtrToInt => ptrtoint(alloc, rest, scope),
        Operation::Phi => phi(alloc, rest, scope),
        Operation::GetElementPtr => getelementptr(alloc, rest, scope),
        Operation::Load => load(alloc, rest, scope),
        Operation::Store => store(alloc, rest, scope),
        Operation::Call(tail) => call_behind(alloc, tail, rest, scope),
        Operation::ExtractElement => extract(alloc, rest, scope),
        Operation::InsertElement => insert(alloc, rest, scope),
        Operation::ShuffleVector => shuffle(alloc, rest, scope),
    }
}

/// A terminator that has more behind its word.
fn longer_terminator<'t>(
    alloc: Global,
    tokens: Cursor<'t>,
    scope: &mut Scope,
) -> Result<(Inst, Cursor<'t>), SyntaxFault>
    ensures grows { Widens scope.old scope.new }
    ensures reads { ReadsAs (inst_seen scope.new) result (by_word terminator_words (terminator_behind (definitions scope.old))) tokens.entry }
    ensures stays { Stays inst_seen scope.new result }
    ensures uses { InstAdds scope.old result scope.new }
{
    let (word, rest) = tokens.one(TokenKind::Word)?;
    match terminator_of(word) {
        Some(Terminator::Br) => branch(alloc, rest, scope),
        Some(Terminator::Switch) => switch(alloc, rest, scope),
        Some(Terminator::Ret) => give_back(alloc, rest, scope),
        None => Err(tokens.refusal()),
    }
}

/// Whether a terminator stands next that has more behind its word.
#[tactic(auto, using(crate::proofs::Beginnings::longer_next))]
fn begins_longer(tokens: Cursor<'_>) -> bool
    ensures { result ≡ next_in (words_of terminator_words) (left tokens.entry) }
{
    match tokens.split_first() {
        Some((TokenKind::Word, word, _)) => terminator_of(word).is_some(),
        _ => false,
    }
}

/// A terminator, before its attachments.
fn bare_terminator<'t>(
    alloc: Global,
    tokens: Cursor<'t>,
    scope: &mut Scope,
) -> Result<(Inst, Cursor<'t>), SyntaxFault>
    ensures grows { Widens scope.old scope.new }
    ensures reads { ReadsOver inst_seen bare_terminator tokens.entry scope.old result scope.new }
    ensures stays { Stays inst_seen scope.new result }
    ensures uses { InstAdds scope.old result scope.new }
{
    if begins_longer(tokens) {
        return longer_terminator(alloc, tokens, scope);
    }
    let rest = tokens.word(b"unreachable")?;
    let args = Few::new(alloc);
    Ok((applied(alloc, InstKind::Unreachable, Ty::Void, args), rest))
}

/// Whether a number in an operand is out of its type's range.
fn is_outside(operand: &Operand) -> bool
    ensures { result ≡ is_outside operand.now }
{
    matches!(operand, Operand::OutOfRange(_))
}

/// Whether a number in one of these operands is.
fn any_outside(operands: &[Operand]) -> bool
    ensures { result ≡ list_any is_outside operands.now }
{
    for operand in operands {
        if is_outside(operand) {
            return true;
        }
    }
    false
}

/// An instruction with the attachments that stand behind it, wide where an operand is out of range.
#[tactic(auto, unfolding(ir_types::specs::InstForms::inst_attachments))]
fn with_attachments<'t>(
    alloc: Global,
    inst: Inst,
    tokens: Cursor<'t>,
) -> Result<(Inst, Cursor<'t>), SyntaxFault>
    ensures reads { Gives (λ x. (x.0, left x.1)) result (attached_to inst (left tokens.entry)) }
    ensures same { IfOk result (λ x. (x.0.kind ≡ inst.kind) × (x.0.args ≡ inst.args)) }
{
    let mut kept = Texts::new(alloc);
    let rest = keep_comma_attachments(alloc, tokens, &mut kept)?;
    let wide = any_outside(inst.args.as_slice()) || inst.wide;
    Ok((Inst { wide, kept, ..inst }, rest))
}

/// An instruction that doesn't end a block.
#[tactic(auto, unfolding(ir_types::specs::InstForms::operation), using(crate::proofs::Attached::outside_seen))]
fn operation<'t>(
    alloc: Global,
    tokens: Cursor<'t>,
    scope: &mut Scope,
) -> Result<(Inst, Cursor<'t>), SyntaxFault>
    ensures grows { Widens scope.old scope.new }
    ensures reads { ReadsOver inst_seen operation tokens.entry scope.old result scope.new }
    ensures stays { Stays inst_seen scope.new result }
    ensures uses { InstAdds scope.old result scope.new }
{
    let (inst, rest) = bare_operation(alloc, tokens, scope)?;
    let (inst, rest) = with_attachments(alloc, inst, rest)?;
    Ok((inst, rest))
}

/// A terminator.
#[tactic(auto, unfolding(ir_types::specs::InstForms::terminator), using(crate::proofs::Attached::outside_seen))]
fn terminator<'t>(
    alloc: Global,
    tokens: Cursor<'t>,
    scope: &mut Scope,
) -> Result<(Inst, Cursor<'t>), SyntaxFault>
    ensures grows { Widens scope.old scope.new }
    ensures reads { ReadsOver inst_seen terminator tokens.entry scope.old result scope.new }
    ensures stays { Stays inst_seen scope.new result }
    ensures uses { InstAdds scope.old result scope.new }
{
    let (inst, rest) = bare_terminator(alloc, tokens, scope)?;
    let (inst, rest) = with_attachments(alloc, inst, rest)?;
    Ok((inst, rest))
}

/// An instruction that may stand at this place.
///
/// # Errors
///
/// Those of `read_inst`, where no such instruction stands.
pub fn inst_at<'t>(
    alloc: Global,
    place: Place,
    tokens: Cursor<'t>,
    scope: &mut Scope,
) -> Result<(Inst, Cursor<'t>), SyntaxFault>
    ensures grows { Widens scope.old scope.new }
    ensures reads { ReadsAs (inst_seen scope.new) result (form_at (definitions scope.old) place) tokens.entry }
    ensures stays { Stays inst_seen scope.new result }
    ensures uses { InstAdds scope.old result scope.new }
{
    match place {
        Place::Inside => operation(alloc, tokens, scope),
        Place::Last => terminator(alloc, tokens, scope),
    }
}

/// One instruction, without its result's name, and what is behind it. Memory types that it writes are added to the scope's tables, with their
/// parts, and so are names of types and of symbols that these lack, but for what a call calls; local names that the function lacks are added to
/// its names. What stands behind it must be nothing with which it could go on: `load i32, ptr %p, align x` is refused.
///
/// # Errors
///
/// Where no instruction stands, with the place at which reading from left to right stops, or there is no room. The lists hold the old
/// entries first then too, and perhaps more.
pub fn read_inst<'t>(
    alloc: Global,
    tokens: Cursor<'t>,
    scope: &mut Scope,
) -> Result<(Inst, Cursor<'t>), SyntaxFault>
    ensures grows { Widens scope.old scope.new }
    ensures reads { ReadsOver inst_seen instruction tokens.entry scope.old result scope.new }
    ensures stays { Stays inst_seen scope.new result }
    ensures uses { InstAdds scope.old result scope.new }
{
    if begins_instruction(Place::Inside, tokens) {
        return inst_at(alloc, Place::Inside, tokens, scope);
    }
    inst_at(alloc, Place::Last, tokens, scope)
}

/// Whether an instruction that doesn't end a block stands next.
#[tactic(auto, using(crate::proofs::Beginnings::operation_next))]
fn begins_operation(tokens: Cursor<'_>) -> bool
    ensures { result ≡ next_in (words_of operation_words) (left tokens.entry) }
{
    match tokens.split_first() {
        Some((TokenKind::Word, word, _)) => operation_of(word).is_some(),
        _ => false,
    }
}

/// Whether an instruction that may stand at this place stands next.
#[tactic(auto, using(crate::proofs::Beginnings::inside_begins, crate::proofs::Beginnings::last_begins))]
pub fn begins_instruction(place: Place, tokens: Cursor<'_>) -> bool
    ensures { (defs : Definitions) → result ≡ opens (form_at defs place) (left tokens.entry) }
{
    match place {
        Place::Inside => begins_operation(tokens),
        Place::Last => begins_longer(tokens) || tokens.behind_word(b"unreachable").is_some(),
    }
}
