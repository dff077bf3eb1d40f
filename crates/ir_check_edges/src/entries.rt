// Whether the entries of a phi agree.

ghost use Rattle.std.specs.Prelude.{◌≡◌, [], ◌∷◌, map, zip, IfOk};
ghost use Rattle.ir_types.specs.Names.{IsTable};
ghost use Rattle.ir_types.specs.Denotes.{tables_of, name_in, operand_in};
ghost use Rattle.ir_rules.specs.Edges as edges;
ghost use Rattle.ir_check_edges.specs.Agreeing.{AreEntries, seen_in, agree_behind, runs_agree};

use crate::operands::same_operand;
use ir_types::{Module, Names, Operand, ValueId};
use std::alloc::{AllocError, Global};

/// An entry of a phi.
#[derive(Clone, Copy)]
pub struct Entry<'a> {
    /// The place of the label.
    pub label: u32,
    /// The operand.
    pub arg: &'a Operand,
}

// The entries of operands and labels.
#[tactic(auto, using(crate::proofs::Agreements::entries_rest, crate::proofs::Agreements::entries_within, crate::proofs::Agreements::entries_end))]
fn entries_of<'a>(
    alloc: Global,
    names: &Names,
    args: &'a [Operand],
    labels: &[ValueId],
) -> Result<Vec<Entry<'a>>, AllocError>
    ensures entries { IfOk result (λ entries. AreEntries names.now args.now labels.now entries.items) }
    ensures table { IsTable names.now }
{
    let count = names.len();
    let mut entries = Vec::new(alloc);
    for place in 0..args.len().min(labels.len()) {
        let label = labels[place].0;
        if (label as usize) >= count {
            return Err(AllocError);
        }
        entries.push(Entry {
            label,
            arg: &args[place],
        })?;
    }
    Ok(entries)
}

// Whether entries behind another one agree, each with the one before it.
fn agree_behind<'a>(
    m: &Module,
    names: &Names,
    first: &Entry<'a>,
    rest: &[Entry<'a>],
) -> Result<bool, AllocError>
    ensures { IfOk result (λ b. b ≡ agree_behind (seen_in (tables_of m.now) names.now first.now) (map (seen_in (tables_of m.now) names.now) rest.now)) }
{
    let mut before = *first;
    for entry in rest {
        let other = if before.label == entry.label {
            before.arg
        } else {
            entry.arg
        };
        if !same_operand(m, names, other, entry.arg)? {
            return Ok(false);
        }
        before = *entry;
    }
    Ok(true)
}

// Whether entries that stand by their labels agree.
fn runs_agree(m: &Module, names: &Names, entries: &[Entry]) -> Result<bool, AllocError>
    ensures { IfOk result (λ b. b ≡ runs_agree (map (seen_in (tables_of m.now) names.now) entries.now)) }
{
    let Some((first, rest)) = entries.split_first() else {
        return Ok(true);
    };
    Ok(same_operand(m, names, first.arg, first.arg)? && agree_behind(m, names, first, rest)?)
}

/// Whether the entries of a phi agree: those of one predecessor are equal.
///
/// # Errors
///
/// Where memory is short, and where a table lacks the place of a name.
pub fn entries_agree(
    alloc: Global,
    m: &Module,
    names: &Names,
    args: &[Operand],
    labels: &[ValueId],
) -> Result<bool, AllocError>
    ensures { IfOk result (λ b. b ≡ edges.entries_agree (zip (map (operand_in (tables_of m.now) names.now) args.now) (map (name_in names.now) labels.now))) }
{
    let mut entries = entries_of(alloc, names, args, labels)?;
    entries.sort_by_key(|entry| entry.label)?;
    runs_agree(m, names, entries.as_slice())
}
