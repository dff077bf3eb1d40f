// Whether an instruction fits.
ghost use Rattle.std.specs.Prelude.{◌≡◌, ◌||◌, ◌&&◌, not, is_none, map, length};
ghost use Rattle.std.specs.List.{AllByRecursion, list_all};
ghost use Rattle.ir_types.specs.Denotes.{name_in};
ghost use Rattle.ir_rules.specs.Operands.{is_valued, is_label};
ghost use Rattle.ir_rules.specs.Mismatch.{operands_fit, kind_fits, inst_fits};
ghost use Rattle.ir_check_fits.specs.Sites.{locals_at, around_at, operands_at, kind_at, inst_at, IsNamed, IsInstHere};

use crate::around::Around;
use crate::fitting::operands_fit;
use crate::kinds::kind_fits;
use crate::operands::is_valued;
use ir_types::{Inst, ValueId};

// Whether labels are blocks'.
fn labels_fit(x: &Around<'_>, labels: &[ValueId]) -> bool
    requires { AllByRecursion (IsNamed (length x.now.part.names)) labels.now }
    ensures { result ≡ list_all (is_label (locals_at x.now))
        (map (name_in x.now.part.names) labels.now) }
{
    let mut left = labels;
    'more: while let Some((label, behind)) = left.split_first() {
        if !x.is_block(*label) {
            return false;
        }
        left = behind;
    }
    true
}

// Whether no number in an instruction is out of range, and it has a result only where it gives a value.
fn head_fits(inst: &Inst) -> bool
    ensures { result ≡ (not inst.now.wide && (is_none inst.now.result || is_valued inst.now.ty)) }
{
    !inst.wide && (inst.result.is_none() || is_valued(inst.ty))
}

// Whether its labels, its operands and its types fit.
fn body_fits(x: &Around<'_>, inst: &Inst) -> bool
    requires { IsInstHere (length x.now.part.names) inst.now }
    ensures { result ≡ (list_all (is_label (locals_at x.now))
        (map (name_in x.now.part.names) inst.now.labels)
        && (operands_fit (around_at x.now) (kind_at x.now inst.now.kind) inst.now.ty
        (operands_at x.now inst.now.args)
        && kind_fits (around_at x.now) (kind_at x.now inst.now.kind) inst.now.ty
        (operands_at x.now inst.now.args))) }
{
    let args = inst.args.as_slice();
    labels_fit(x, inst.labels.as_slice())
        && operands_fit(x, &inst.kind, inst.ty, args)
        && kind_fits(x, &inst.kind, inst.ty, args)
}

/// Whether an instruction fits.
#[tactic(auto, using(crate::proofs::Insts::inst_right))]
pub fn inst_fits(x: &Around<'_>, inst: &Inst) -> bool
    requires { IsInstHere (length x.now.part.names) inst.now }
    ensures { result ≡ inst_fits (around_at x.now) (inst_at x.now inst.now) }
{
    head_fits(inst) && body_fits(x, inst)
}
