// Whether types, alignments and what is stepped through, called or returned fit what an instruction does.
ghost use Rattle.std.specs.Prelude.{◌≡◌, map};
ghost use Rattle.ir_types.specs.Denotes.{nodes_in, tree_of};
ghost use Rattle.ir_rules.specs.Steps.{type_definitions};
ghost use Rattle.ir_rules.specs.Mismatch.{leads_on, kind_fits};
ghost use Rattle.ir_check_fits.specs.Sites.{around_at, operands_at, kind_at};

use crate::around::Around;
use crate::calls::is_meant_right;
use crate::numbers::{is_alignment, is_mask_constant};
use crate::operands::{
    is_bits, is_condition_for, is_element_of, is_integral, is_mask_type, is_vector, is_wider,
};
use ir_rules::same_type;
use ir_types::{InstKind, Operand, Ty, TypeId};

// Whether indexes lead on from a pointer through the type at a place.
fn leads_on(x: &Around<'_>, id: TypeId, widths: &[u32], args: &[Operand]) -> bool
    ensures { result ≡ leads_on (type_definitions (tree_of x.now.whole)) (nodes_in x.now.whole id)
        widths.now (operands_at x.now args.now) }
{
    match args.split_first() {
        Some((_, indexes)) => x.types().is_stepped(id, widths, indexes),
        None => false,
    }
}

/// Whether types, alignments and what is stepped through, called or returned fit an instruction of a kind with a result of a type.
pub fn kind_fits(x: &Around<'_>, kind: &InstKind, ty: Ty, args: &[Operand]) -> bool
    ensures { result ≡ kind_fits (around_at x.now) (kind_at x.now kind.now) ty
        (operands_at x.now args.now) }
{
    match kind {
        InstKind::Binary(_, _) => is_integral(ty),
        InstKind::Select(condition, last) => {
            is_condition_for(ty, *condition) && same_type(ty, *last)
        }
        InstKind::Trunc(from, _, _) => is_wider(*from, ty),
        InstKind::Zext(from, _) => is_wider(ty, *from),
        InstKind::Sext(from) => is_wider(ty, *from),
        InstKind::PtrToInt => matches!(ty, Ty::Int(_)),
        InstKind::Offset(id, widths, _, _, _) => leads_on(x, *id, widths.as_slice(), args),
        InstKind::Load(align) => !is_bits(ty) && is_alignment(*align),
        InstKind::Store(of, align) => !is_bits(*of) && is_alignment(*align),
        InstKind::Call(callee) => is_meant_right(callee, ty, args),
        InstKind::Extract(of, _) => is_vector(*of),
        InstKind::Insert(element, _) => is_element_of(ty, *element),
        InstKind::Shuffle(of, other, mask) => {
            is_vector(*of)
                && same_type(*of, *other)
                && is_mask_type(*mask)
                && is_mask_constant(args)
        }
        InstKind::ReturnVoid => same_type(x.function().ret, Ty::Void),
        InstKind::Return(of) => same_type(x.function().ret, *of),
        InstKind::Compare(_, _)
        | InstKind::Freeze
        | InstKind::Phi
        | InstKind::Jump
        | InstKind::Branch
        | InstKind::Switch(_, _)
        | InstKind::Unreachable => true,
    }
}
