// Lanes of vectors, without the words before them.

ghost use Rattle.std.specs.Prelude.{◌≡◌, List};
ghost use Rattle.ir_types.specs.InstForms.{element_of, extractelement, insertelement, shuffled, shufflevector};
ghost use Rattle.ir_reader_values.specs.Seen.{inst_seen, Widens, Stays, InstAdds, ReadsOver};

use ir_making::{applied, three_operands, two_operands};
use ir_reader_values::{Scope, comma_index, comma_typed, three_values, typed_value};
use ir_types::{Inst, InstKind, Ty};
use std::alloc::Global;
use text_forms::{Cursor, SyntaxFault};

/// The type of a vector's elements, and any other type itself.
fn element_of(ty: Ty) -> Ty
    ensures { result ≡ element_of ty }
{
    match ty {
        Ty::Vector(_, width) => Ty::Int(width),
        Ty::Int(_) | Ty::Ptr | Ty::Void => ty,
    }
}

/// T V, iN V.
#[tactic(auto, unfolding(ir_types::specs::InstForms::extractelement))]
pub fn extract<'t>(
    alloc: Global,
    tokens: Cursor<'t>,
    scope: &mut Scope,
) -> Result<(Inst, Cursor<'t>), SyntaxFault>
    ensures grows { Widens scope.old scope.new }
    ensures reads { ReadsOver inst_seen extractelement tokens.entry scope.old result scope.new }
    ensures stays { Stays inst_seen scope.new result }
    ensures uses { InstAdds scope.old result scope.new }
{
    let ((ty, vector), rest) = typed_value(alloc, tokens, scope)?;
    let ((width, index), rest) = comma_index(alloc, rest, scope)?;
    let args = two_operands(alloc, vector, index)?;
    let kind = InstKind::Extract(ty, width);
    Ok((applied(alloc, kind, element_of(ty), args), rest))
}

/// T V, T V, iN V.
#[tactic(auto, unfolding(ir_types::specs::InstForms::insertelement))]
pub fn insert<'t>(
    alloc: Global,
    tokens: Cursor<'t>,
    scope: &mut Scope,
) -> Result<(Inst, Cursor<'t>), SyntaxFault>
    ensures grows { Widens scope.old scope.new }
    ensures reads { ReadsOver inst_seen insertelement tokens.entry scope.old result scope.new }
    ensures stays { Stays inst_seen scope.new result }
    ensures uses { InstAdds scope.old result scope.new }
{
    let ((ty, vector), rest) = typed_value(alloc, tokens, scope)?;
    let ((element, value), rest) = comma_typed(alloc, rest, scope)?;
    let ((width, index), rest) = comma_index(alloc, rest, scope)?;
    let args = three_operands(alloc, vector, value, index)?;
    let kind = InstKind::Insert(element, width);
    Ok((applied(alloc, kind, ty, args), rest))
}

/// The type of the lanes of the first that a mask of the second chooses.
fn shuffled(ty: Ty, mask: Ty) -> Ty
    ensures { result ≡ shuffled ty mask }
{
    match (ty, mask) {
        (Ty::Vector(_, width), Ty::Vector(lanes, _)) => Ty::Vector(lanes, width),
        _ => ty,
    }
}

/// T V, T V, T V: two vectors and a mask.
#[tactic(auto, unfolding(ir_types::specs::InstForms::shufflevector))]
pub fn shuffle<'t>(
    alloc: Global,
    tokens: Cursor<'t>,
    scope: &mut Scope,
) -> Result<(Inst, Cursor<'t>), SyntaxFault>
    ensures grows { Widens scope.old scope.new }
    ensures reads { ReadsOver inst_seen shufflevector tokens.entry scope.old result scope.new }
    ensures stays { Stays inst_seen scope.new result }
    ensures uses { InstAdds scope.old result scope.new }
{
    let (values, rest) = three_values(alloc, tokens, scope)?;
    let ((ty, first), ((second_type, second), (mask_type, mask))) = values;
    let args = three_operands(alloc, first, second, mask)?;
    let kind = InstKind::Shuffle(ty, second_type, mask_type);
    Ok((applied(alloc, kind, shuffled(ty, mask_type), args), rest))
}
