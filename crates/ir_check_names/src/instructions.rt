// The first use in instructions of what is neither defined nor declared.

ghost use Rattle.std.specs.Prelude.{◌≡◌, IfOk};
ghost use Rattle.ir_check_names.specs.Choice.{or_else, first_of};
ghost use Rattle.ir_check_names.specs.Uses.{unknown_local, unknown_symbol, unknown_operand, unknown_entries, unknown_kind, unknown_inst, unknown_insts, unknown_blocks};

use crate::definitions::behind;
use crate::marks::is_marked;
use crate::missing::missing_at;
use ir_types::{Block, Inst, InstKind, Operand, ValueId};
use std::alloc::AllocError;

/// A name that is used, by its place: in the names of a function, or among the symbols or the names of types of a module.
#[derive(Clone, Copy, Debug, PartialEq, Eq)]
pub(crate) enum Used {
    Local(ValueId),
    Symbol(u32),
    TypeName(u32),
}

/// What is known in a function: which of its names are defined, which symbols are defined or declared, and in each type the place of the
/// first name that isn't defined.
#[derive(Clone, Copy, Debug)]
pub(crate) struct Known<'k> {
    pub(crate) locals: &'k [bool],
    pub(crate) symbols: &'k [bool],
    pub(crate) missing: &'k [Option<u32>],
}

fn unknown_local(known: &Known<'_>, id: ValueId) -> Option<Used>
    ensures { result ≡ unknown_local known.now.locals.now id }
{
    if is_marked(known.locals, id.0) {
        None
    } else {
        Some(Used::Local(id))
    }
}

fn unknown_symbol(known: &Known<'_>, place: u32) -> Option<Used>
    ensures { result ≡ unknown_symbol known.now.symbols.now place }
{
    if is_marked(known.symbols, place) {
        None
    } else {
        Some(Used::Symbol(place))
    }
}

fn unknown_operand(known: &Known<'_>, operand: &Operand) -> Option<Used>
    ensures { result ≡ unknown_operand known.now.locals.now known.now.symbols.now operand.now }
{
    match operand {
        Operand::Local(id) => unknown_local(known, *id),
        Operand::Global(place, _) | Operand::OutOfRange(Some(place)) => {
            unknown_symbol(known, *place)
        }
        _ => None,
    }
}

fn unknown_operands(known: &Known<'_>, operands: &[Operand]) -> Option<Used>
    ensures { result ≡ first_of (unknown_operand known.now.locals.now known.now.symbols.now)
        operands.now }
{
    for operand in operands {
        if let Some(used) = unknown_operand(known, operand) {
            return Some(used);
        }
    }
    None
}

fn unknown_labels(known: &Known<'_>, labels: &[ValueId]) -> Option<Used>
    ensures { result ≡ first_of (unknown_local known.now.locals.now) labels.now }
{
    for label in labels {
        if let Some(used) = unknown_local(known, *label) {
            return Some(used);
        }
    }
    None
}

// What is found first.
fn either(first: Option<Used>, second: Option<Used>) -> Option<Used>
    ensures { result ≡ or_else first second }
{
    match first {
        Some(used) => Some(used),
        None => second,
    }
}

// Of the entries of a phi: each operand before its label.
fn unknown_entries(known: &Known<'_>, operands: &[Operand], labels: &[ValueId]) -> Option<Used>
    ensures { result ≡ unknown_entries known.now.locals.now known.now.symbols.now operands.now
        labels.now }
{
    let mut operands_left = operands;
    let mut labels_left = labels;
    'more: while let Some((operand, operands_behind)) = operands_left.split_first() {
        let Some((label, labels_behind)) = labels_left.split_first() else {
            return unknown_operands(known, operands_left);
        };
        let entry = either(
            unknown_operand(known, operand),
            unknown_local(known, *label),
        );
        if let Some(used) = entry {
            return Some(used);
        }
        operands_left = operands_behind;
        labels_left = labels_behind;
    }
    unknown_labels(known, labels_left)
}

// In the memory type of an instruction.
fn unknown_kind(known: &Known<'_>, kind: &InstKind) -> Option<Used>
    ensures { result ≡ unknown_kind known.now.missing.now kind.now }
{
    match kind {
        InstKind::Offset(id, _, _, _, _) => match missing_at(known.missing, *id) {
            Some(place) => Some(Used::TypeName(place)),
            None => None,
        },
        _ => None,
    }
}

fn unknown_inst(known: &Known<'_>, inst: &Inst) -> Option<Used>
    ensures { result ≡ unknown_inst known.now.locals.now known.now.symbols.now known.now.missing.now
        inst.now }
{
    let operands = inst.args.as_slice();
    let labels = inst.labels.as_slice();
    match &inst.kind {
        InstKind::Phi => unknown_entries(known, operands, labels),
        kind => either(
            unknown_kind(known, kind),
            either(
                unknown_operands(known, operands),
                unknown_labels(known, labels),
            ),
        ),
    }
}

// In instructions the first of which has this number: what is used, and in which.
fn unknown_insts(
    known: &Known<'_>,
    first: u32,
    insts: &[Inst],
) -> Result<Option<(Used, u32)>, AllocError>
    ensures { IfOk result (λ found. found ≡ unknown_insts known.now.locals.now known.now.symbols.now
        known.now.missing.now first insts.now) }
{
    let mut place = first;
    for inst in insts {
        if let Some(used) = unknown_inst(known, inst) {
            return Ok(Some((used, place)));
        }
        place = behind(place, 1)?;
    }
    Ok(None)
}

/// In the blocks of a function: what is used, and the number of the instruction.
///
/// # Errors
///
/// Where the function has 2^32 instructions or more.
pub(crate) fn unknown_blocks(
    known: &Known<'_>,
    blocks: &[Block],
) -> Result<Option<(Used, u32)>, AllocError>
    ensures { IfOk result (λ found. found ≡ unknown_blocks known.now.locals.now
        known.now.symbols.now known.now.missing.now 0 blocks.now) }
{
    let mut place = 0;
    for block in blocks {
        if let Some(found) = unknown_insts(known, place, block.insts.as_slice())? {
            return Ok(Some(found));
        }
        place = behind(place, block.insts.len())?;
    }
    Ok(None)
}
