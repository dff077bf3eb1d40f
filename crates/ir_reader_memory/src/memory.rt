// Loads and stores, without the words before them.

ghost use Rattle.std.specs.Prelude.{◌≡◌, List};
ghost use Rattle.text_forms.specs.declared.TokenKind.TheVariants.{Comma, Word};
ghost use Rattle.text_forms.specs.Reading.{read, opens};
ghost use Rattle.text_forms.specs.Gives.{Gives, left};
ghost use Rattle.ir_types.specs.Sizes.{value_size};
ghost use Rattle.ir_types.specs.Types.{IsType};
ghost use Rattle.ir_types.specs.InstParts.{alignment_of, alignment, align_or};
ghost use Rattle.ir_types.specs.InstForms.{load, store};
ghost use Rattle.ir_reader_memory.specs.Alignments.{written_alignment};
ghost use Rattle.ir_reader_values.specs.Seen.{inst_seen, Widens, Stays, InstAdds, ReadsOver};

use ir_making::{applied, one_operand, two_operands};
use ir_reader_types::value_type;
use ir_reader_values::{Scope, comma_pointer, saturated_number_of, typed_value};
use ir_types::{Inst, InstKind, Ty};
use std::alloc::Global;
use text_forms::{Cursor, SyntaxFault, TokenKind};

/// The alignment that is written so: digits without a sign, for a number of at most 64 bits.
fn alignment_of(digits: &[u8]) -> Option<u64>
    ensures { result ≡ alignment_of digits.now }
{
    let (first, _) = digits.split_first()?;
    if *first == b'-' {
        return None;
    }
    Some(saturated_number_of(digits))
}

/// align n behind a comma.
fn comma_align<'t>(tokens: Cursor<'t>) -> Result<(u64, Cursor<'t>), SyntaxFault>
    ensures { Gives (λ x. (x.0, left x.1)) result (read written_alignment (left tokens.entry)) }
{
    let rest = tokens.mark(TokenKind::Comma)?;
    let number = rest.word(b"align")?;
    let (digits, rest) = number.one(TokenKind::Number)?;
    match alignment_of(digits) {
        Some(align) => Ok((align, rest)),
        None => Err(number.refusal()),
    }
}

/// Whether a comma and the word `align` stand next.
fn begins_alignment(tokens: Cursor<'_>) -> bool
    ensures { result ≡ opens written_alignment (left tokens.entry) }
{
    match tokens.split_first() {
        Some((TokenKind::Comma, _, rest)) => rest.behind_word(b"align").is_some(),
        _ => false,
    }
}

/// [, align n].
#[tactic(auto, unfolding(ir_types::specs::InstParts::alignment))]
fn alignment<'t>(tokens: Cursor<'t>) -> Result<(Option<u64>, Cursor<'t>), SyntaxFault>
    ensures { Gives (λ x. (x.0, left x.1)) result (read alignment (left tokens.entry)) }
{
    if !begins_alignment(tokens) {
        return Ok((None, tokens));
    }
    let (align, rest) = comma_align(tokens)?;
    Ok((Some(align), rest))
}

/// The natural alignment of a type, in bytes.
fn natural(ty: Ty) -> u64
    requires { IsType ty }
    ensures { result ≡ value_size ty }
{
    match ty {
        Ty::Int(width) => (u64::from(width) + 7) / 8,
        Ty::Ptr => 8,
        Ty::Vector(lanes, width) => (u64::from(lanes) * u64::from(width) + 7) / 8,
        Ty::Void => 0,
    }
}

/// The alignment of an access at a type.
fn align_or(ty: Ty, written: Option<u64>) -> u64
    requires { IsType ty }
    ensures { result ≡ align_or ty written }
{
    match written {
        Some(align) => align,
        None => natural(ty),
    }
}

/// T, ptr V [, align n].
#[tactic(auto, unfolding(ir_types::specs::InstForms::load))]
pub fn load<'t>(
    alloc: Global,
    tokens: Cursor<'t>,
    scope: &mut Scope,
) -> Result<(Inst, Cursor<'t>), SyntaxFault>
    ensures grows { Widens scope.old scope.new }
    ensures reads { ReadsOver inst_seen load tokens.entry scope.old result scope.new }
    ensures stays { Stays inst_seen scope.new result }
    ensures uses { InstAdds scope.old result scope.new }
{
    let (ty, rest) = value_type(tokens)?;
    let (pointer, rest) = comma_pointer(alloc, rest, scope)?;
    let (written, rest) = alignment(rest)?;
    let args = one_operand(alloc, pointer)?;
    let kind = InstKind::Load(align_or(ty, written));
    Ok((applied(alloc, kind, ty, args), rest))
}

/// T V, ptr V [, align n].
#[tactic(auto, unfolding(ir_types::specs::InstForms::store))]
pub fn store<'t>(
    alloc: Global,
    tokens: Cursor<'t>,
    scope: &mut Scope,
) -> Result<(Inst, Cursor<'t>), SyntaxFault>
    ensures grows { Widens scope.old scope.new }
    ensures reads { ReadsOver inst_seen store tokens.entry scope.old result scope.new }
    ensures stays { Stays inst_seen scope.new result }
    ensures uses { InstAdds scope.old result scope.new }
{
    let ((ty, value), rest) = typed_value(alloc, tokens, scope)?;
    let (pointer, rest) = comma_pointer(alloc, rest, scope)?;
    let (written, rest) = alignment(rest)?;
    let args = two_operands(alloc, value, pointer)?;
    let kind = InstKind::Store(ty, align_or(ty, written));
    Ok((applied(alloc, kind, Ty::Void, args), rest))
}
