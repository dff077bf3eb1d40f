// Whether places of local names are in their table.
ghost use Rattle.std.specs.Prelude.{IsTrue, IfSome};
ghost use Rattle.std.specs.List.{AllByRecursion};
ghost use Rattle.ir_check_fits.specs.Sites.{IsHere, IsNamed, IsInstHere};

use ir_types::{Inst, Operand, ValueId};

// Whether an operand's place is one of so many.
fn is_here(count: usize, operand: &Operand) -> bool
    ensures { IsTrue result → IsHere count operand.now }
{
    match operand {
        Operand::Local(id) => (id.0 as usize) < count,
        _ => true,
    }
}

// Whether those of operands are.
fn are_here(count: usize, operands: &[Operand]) -> bool
    ensures { IsTrue result → AllByRecursion (IsHere count) operands.now }
{
    let mut left = operands;
    'more: while let Some((operand, behind)) = left.split_first() {
        if !is_here(count, operand) {
            return false;
        }
        left = behind;
    }
    true
}

// Whether those of labels are.
fn are_named(count: usize, labels: &[ValueId]) -> bool
    ensures { IsTrue result → AllByRecursion (IsNamed count) labels.now }
{
    let mut left = labels;
    'more: while let Some((label, behind)) = left.split_first() {
        if label.0 as usize >= count {
            return false;
        }
        left = behind;
    }
    true
}

// Whether that of a result is, where there is one.
fn is_result_named(count: usize, inst: &Inst) -> bool
    ensures { IsTrue result → IfSome inst.now.result (IsNamed count) }
{
    match inst.result {
        Some(id) => (id.0 as usize) < count,
        None => true,
    }
}

/// Whether all places in an instruction are among so many.
pub fn is_inst_here(count: usize, inst: &Inst) -> bool
    ensures { IsTrue result → IsInstHere count inst.now }
{
    is_result_named(count, inst)
        && are_here(count, inst.args.as_slice())
        && are_named(count, inst.labels.as_slice())
}
