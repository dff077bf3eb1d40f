// Alignments, and operands that have to be written.
ghost use Rattle.std.specs.Prelude.{◌≡◌, not, List, map, drop};
ghost use Rattle.std.specs.List.{list_all};
ghost use Rattle.ir_types.specs.declared.name.Name.{Name};
ghost use Rattle.ir_types.specs.Denotes.{Tables, operand_in};
ghost use Rattle.ir_rules.specs.Mismatch.{is_alignment, is_written_alignment, is_constant};

use ir_types::Operand;

/// Whether a number is an alignment: a power of two from 1 to 2^32.
#[tactic(auto, using(crate::proofs::Powers::power_among, crate::proofs::Powers::power_more))]
pub fn is_alignment(number: u64) -> bool
    ensures { result ≡ is_alignment number }
{
    for shift in 0..33u32 {
        if number == 1 << shift {
            return true;
        }
    }
    false
}

/// Whether an operand is a written alignment.
pub fn is_written_alignment(operand: &Operand) -> bool
    ensures { (t : Tables) (names : List Name)
        → result ≡ is_written_alignment (operand_in t names operand.now) }
{
    match operand {
        Operand::Int(number) => is_alignment(*number),
        _ => false,
    }
}

// Whether an operand is no local.
fn is_constant(operand: &Operand) -> bool
    ensures { (t : Tables) (names : List Name)
        → result ≡ is_constant (operand_in t names operand.now) }
{
    !matches!(operand, Operand::Local(_))
}

// Whether operands are no locals.
fn are_constant(operands: &[Operand]) -> bool
    ensures { (t : Tables) (names : List Name)
        → result ≡ list_all is_constant (map (operand_in t names) operands.now) }
{
    let mut left = operands;
    'more: while let Some((operand, behind)) = left.split_first() {
        if !is_constant(operand) {
            return false;
        }
        left = behind;
    }
    true
}

/// Whether the operands behind the first two are no locals.
pub fn is_mask_constant(operands: &[Operand]) -> bool
    ensures { (t : Tables) (names : List Name)
        → result ≡ list_all is_constant (drop 2 (map (operand_in t names) operands.now)) }
{
    let Some((_, behind)) = operands.split_first() else {
        return true;
    };
    match behind.split_first() {
        Some((_, masks)) => are_constant(masks),
        None => true,
    }
}
