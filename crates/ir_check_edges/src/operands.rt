// Whether two operands are one.

ghost use Rattle.std.specs.Prelude.{◌≡◌, map, IfOk};
ghost use Rattle.ir_types.specs.declared.module.Symbol.{Symbol};
ghost use Rattle.ir_types.specs.Names.{name_at, same_name};
ghost use Rattle.ir_types.specs.Denotes.{tables_of, operand_in};
ghost use Rattle.ir_rules.specs.Edges as edges;

use crate::labels::is_one;
use ir_types::{Module, Name, Names, Operand};
use std::alloc::AllocError;

// The name of the symbol at a place.
#[tactic(auto, using(crate::proofs::Places::symbol_at))]
fn symbol_name(m: &Module, place: u32) -> Result<&Name, AllocError>
    ensures { IfOk result (λ n. n.now ≡ name_at (map (λ (s : Symbol). s.name) m.now.symbols) place) }
{
    let place = place as usize;
    if place < m.symbols.len() {
        Ok(&m.symbols.at(place).name)
    } else {
        Err(AllocError)
    }
}

// Whether the symbols at two places have one name.
fn same_symbol(m: &Module, one: u32, other: u32) -> Result<bool, AllocError>
    ensures { IfOk result (λ b. b ≡ same_name (name_at (map (λ (s : Symbol). s.name) m.now.symbols) one) (name_at (map (λ (s : Symbol). s.name) m.now.symbols) other)) }
{
    Ok(symbol_name(m, one)? == symbol_name(m, other)?)
}

// Whether two lists of lanes are one.
fn same_lanes(some: &[Option<u64>], others: &[Option<u64>]) -> bool
    ensures { result ≡ edges.same_lanes some.now others.now }
{
    some == others
}

/// Whether two operands are one; none that is out of range is any other.
///
/// # Errors
///
/// Where a table lacks the place of one of them.
pub fn same_operand(
    m: &Module,
    names: &Names,
    one: &Operand,
    other: &Operand,
) -> Result<bool, AllocError>
    ensures { IfOk result (λ b. b ≡ edges.same_operand (operand_in (tables_of m.now) names.now one.now) (operand_in (tables_of m.now) names.now other.now)) }
{
    match (one, other) {
        (Operand::Local(a), Operand::Local(b)) => is_one(names, *a, *b),
        (Operand::Int(a), Operand::Int(b)) => Ok(*a == *b),
        (Operand::Null, Operand::Null) | (Operand::Poison, Operand::Poison) => Ok(true),
        (Operand::Lanes(some), Operand::Lanes(others)) => {
            Ok(same_lanes(some.as_slice(), others.as_slice()))
        }
        (Operand::Global(a, bytes), Operand::Global(b, other_bytes)) => {
            Ok(same_symbol(m, *a, *b)? && *bytes == *other_bytes)
        }
        _ => Ok(false),
    }
}
