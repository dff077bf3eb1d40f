// Instructions from their parts.

ghost use Rattle.std.specs.Prelude.{◌≡◌, ◌∷◌, [], None, false, List, IfOk};
ghost use Rattle.ir_types.specs.declared.inst.InstKind.TheVariants.{Binary};
ghost use Rattle.ir_making.specs.Making.{bare};

use ir_types::{BinOp, Flags, Inst, InstKind, Labels, Operand, Operands, Ty, ValueId};
use lists::{Few, Texts};
use std::alloc::{AllocError, Global};

/// One operand, in a list.
pub fn one_operand(alloc: Global, only: Operand) -> Result<Operands, AllocError>
    ensures { IfOk result (λ list. list ≡ only ∷ []) }
{
    let mut list = Few::new(alloc);
    list.push(only)?;
    Ok(list)
}

/// Two operands, in a list.
pub fn two_operands(alloc: Global, first: Operand, second: Operand) -> Result<Operands, AllocError>
    ensures { IfOk result (λ list. list ≡ first ∷ second ∷ []) }
{
    let mut list = Few::new(alloc);
    list.push(first)?;
    list.push(second)?;
    Ok(list)
}

/// Three operands, in a list.
pub fn three_operands(
    alloc: Global,
    first: Operand,
    second: Operand,
    third: Operand,
) -> Result<Operands, AllocError>
    ensures { IfOk result (λ list. list ≡ first ∷ second ∷ third ∷ []) }
{
    let mut list = Few::new(alloc);
    list.push(first)?;
    list.push(second)?;
    list.push(third)?;
    Ok(list)
}

/// One label, in a list.
pub fn one_label(alloc: Global, only: ValueId) -> Result<Labels, AllocError>
    ensures { IfOk result (λ list. list ≡ only ∷ []) }
{
    let mut list = Few::new(alloc);
    list.push(only)?;
    Ok(list)
}

/// Two labels, in a list.
pub fn two_labels(alloc: Global, first: ValueId, second: ValueId) -> Result<Labels, AllocError>
    ensures { IfOk result (λ list. list ≡ first ∷ second ∷ []) }
{
    let mut list = Few::new(alloc);
    list.push(first)?;
    list.push(second)?;
    Ok(list)
}

/// An instruction without a name for its result and without attachments.
pub fn bare(alloc: Global, kind: InstKind, ty: Ty, args: Operands, labels: Labels) -> Inst
    ensures { result ≡ bare kind ty args labels }
{
    Inst {
        kind,
        ty,
        args,
        labels,
        result: None,
        wide: false,
        kept: Texts::new(alloc),
    }
}

/// The same without labels.
pub fn applied(alloc: Global, kind: InstKind, ty: Ty, args: Operands) -> Inst
    ensures { result ≡ bare kind ty args [] }
{
    bare(alloc, kind, ty, args, Few::new(alloc))
}

/// A binary operator with its flags, of two operands at one type.
pub fn binary(
    alloc: Global,
    operator: BinOp,
    flags: Flags,
    ty: Ty,
    first: Operand,
    second: Operand,
) -> Result<Inst, AllocError>
    ensures { IfOk result (λ inst. inst ≡ bare (Binary operator flags) ty (first ∷ second ∷ []) []) }
{
    let args = two_operands(alloc, first, second)?;
    Ok(applied(alloc, InstKind::Binary(operator, flags), ty, args))
}
