// Phis and the edges into their blocks.

ghost use Rattle.std.specs.Prelude.{◌≡◌, ◌+◌, true, length, map, IfOk};
ghost use Rattle.ir_types.specs.Denotes.{tables_of, tree_of, name_in, inst_in, block_in, function_in};
ghost use Rattle.ir_rules.specs.Breaches as breaches;
ghost use Rattle.ir_rules.specs.Edges.{wrong_edges};
ghost use Rattle.ir_check_edges.specs.Targets.{first_of};
ghost use Rattle.ir_check_edges.specs.Incoming.{AreIncoming};
ghost use Rattle.ir_check_edges.specs.Phis as phis;

use crate::counted::same_counts;
use crate::entries::entries_agree;
use crate::incoming::edges_into;
use crate::labels::name_of;
use ir_rules::{Breach, Subject};
use ir_types::{Block, Function, Inst, InstKind, Module, Names, ValueId};
use lists::Copies;
use std::alloc::{AllocError, Global};

// Whether a phi has an entry for each edge into its block from these labels, and equal ones for equal predecessors.
fn edges_fit(
    alloc: Global,
    m: &Module,
    names: &Names,
    preds: &[ValueId],
    phi: &Inst,
) -> Result<bool, AllocError>
    ensures { IfOk result (λ b. b ≡ phis.edges_fit (map (name_in names.now) preds.now) (inst_in (tables_of m.now) names.now phi.now)) }
{
    let labels = phi.labels.as_slice();
    Ok(
        same_counts(alloc, names, labels, preds)?
            && entries_agree(alloc, m, names, phi.args.as_slice(), labels)?,
    )
}

// The result of an instruction.
fn result_of(m: &Module, names: &Names, inst: &Inst) -> Result<Subject, AllocError>
    ensures { IfOk result (λ s. s ≡ breaches.result_of (inst_in (tables_of m.now) names.now inst.now)) }
{
    match inst.result {
        Some(id) => Ok(Subject::Local(name_of(names, id)?.copy()?)),
        None => Ok(Subject::Nothing),
    }
}

// The first phi of a block that doesn't fit the edges from these labels, or before which stands what is no phi. The block's first instruction has
// this number.
fn wrong_in_block(
    alloc: Global,
    m: &Module,
    names: &Names,
    preds: &[ValueId],
    insts: &[Inst],
    start: u32,
) -> Result<Option<(Subject, u32)>, AllocError>
    ensures { IfOk result (λ s. s ≡ phis.wrong_behind (map (name_in names.now) preds.now) true start (map (inst_in (tables_of m.now) names.now) insts.now)) }
{
    let mut place = start;
    let mut left = insts;
    let mut phis = true;
    'more: while let Some((inst, rest)) = left.split_first() {
        if let InstKind::Phi = inst.kind {
            if !(phis && edges_fit(alloc, m, names, preds, inst)?) {
                return Ok(Some((result_of(m, names, inst)?, place)));
            }
        } else {
            phis = false;
        }
        place = place.checked_add(1).ok_or(AllocError)?;
        left = rest;
    }
    Ok(None)
}

// The number behind so many instructions.
fn number_behind(place: u32, insts: &[Inst]) -> Result<u32, AllocError>
    ensures { IfOk result (λ n. n ≡ place + length insts.now) }
{
    let count = u32::try_from(insts.len()).map_err(|_| AllocError)?;
    place.checked_add(count).ok_or(AllocError)
}

// The first phi of blocks that stand behind one another.
fn wrong_in_blocks(
    alloc: Global,
    m: &Module,
    function: &Function,
    incoming: &[Vec<ValueId>],
) -> Result<Option<(Subject, u32)>, AllocError>
    requires { AreIncoming function.now incoming.now }
    ensures { IfOk result (λ s. s ≡ phis.wrong_among (function_in (tables_of m.now) function.now) 0 (map (block_in (tables_of m.now) function.now.names) function.now.body)) }
{
    let mut place = 0u32;
    let mut left = function.body.as_slice();
    'more: while let Some((block, rest)) = left.split_first() {
        let preds = incoming.get(block.name.0 as usize).ok_or(AllocError)?;
        let insts = block.insts.as_slice();
        let found = wrong_in_block(alloc, m, &function.names, preds.as_slice(), insts, place)?;
        if let Some(found) = found {
            return Ok(Some(found));
        }
        place = number_behind(place, insts)?;
        left = rest;
    }
    Ok(None)
}

// The first phi of a function that doesn't fit.
fn wrong_in(alloc: Global, m: &Module, function: &Function) -> Result<Option<Breach>, AllocError>
    ensures { IfOk result (λ found. found ≡ phis.wrong_in m.now function.now) }
{
    let incoming = edges_into(alloc, function)?;
    match wrong_in_blocks(alloc, m, function, incoming.as_slice())? {
        Some((subject, place)) => Ok(Some(Breach {
            function: Some(function.name.copy()?),
            subject,
            place,
        })),
        None => Ok(None),
    }
}

fn first_wrong(
    alloc: Global,
    m: &Module,
    functions: &[Function],
) -> Result<Option<Breach>, AllocError>
    ensures { IfOk result (λ found. found ≡ first_of (phis.wrong_in m.now) functions.now) }
{
    for function in functions {
        if let Some(breach) = wrong_in(alloc, m, function)? {
            return Ok(Some(breach));
        }
    }
    Ok(None)
}

/// Where a phi stands behind what is no phi, or doesn't have an entry for each edge into its block, an equal one for equal predecessors, first.
///
/// # Errors
///
/// Where memory is short, and where a function has 2^32 instructions or more.
pub fn wrong_phi(alloc: Global, m: &Module) -> Result<Option<Breach>, AllocError>
    ensures { IfOk result (λ found. found ≡ breaches.first (wrong_edges (tree_of m.now))) }
{
    first_wrong(alloc, m, m.functions.as_slice())
}
