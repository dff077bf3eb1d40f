// The first name of a function that has too many bytes.

ghost use Rattle.std.specs.Prelude.{◌≡◌, map, None};
ghost use Rattle.ir_types.specs.Denotes.{name_in, operand_in, kind_in, inst_in, block_in, function_in};
ghost use Rattle.ir_limits.specs.Mentioned.{in_operand, before_operands, of_result, in_inst, in_block, in_function};
ghost use Rattle.ir_limits.specs.Limits.{long_name, or_else, first_long};
ghost use Rattle.ir_limits.specs.Placed.{in_operands_at, in_entries_at, in_insts_at, in_blocks_at, params_at};
ghost use Rattle.std.specs.Option.{option_map};

use crate::longs::LongNames;
use ir_types::{Block, Function, Inst, InstKind, Name, Names, Operand, Param, ValueId};

/// The bytes of a name that is no number, where these are more than 255.
pub fn long_name(name: &Name) -> Option<u64>
    ensures { result ≡ long_name name.now }
{
    match name {
        Name::Text(text) if text.len() > 255 => Some(text.len() as u64),
        _ => None,
    }
}

// The same of the name at a place; a place that the table lacks has no such name.
#[tactic(auto, using(crate::proofs::Firsts::none_behind))]
fn long_at(names: &Names, id: ValueId) -> Option<u64>
    ensures { result ≡ long_name (name_in names.now id) }
{
    if (id.0 as usize) < names.len() {
        long_name(names.get(id))
    } else {
        None
    }
}

fn long_result(names: &Names, result_name: Option<ValueId>) -> Option<u64>
    ensures { result ≡ first_long (of_result (option_map (name_in names.now) result_name)) }
{
    match result_name {
        Some(id) => long_at(names, id),
        None => None,
    }
}

fn long_operand(tables: &LongNames<'_>, names: &Names, operand: &Operand) -> Option<u64>
    ensures { result ≡ first_long (in_operand (operand_in tables.now names.now operand.now)) }
{
    match operand {
        Operand::Local(id) => long_at(names, *id),
        Operand::Global(place, _) | Operand::OutOfRange(Some(place)) => tables.of_symbol(*place),
        Operand::Int(_)
        | Operand::Null
        | Operand::Poison
        | Operand::Lanes(_)
        | Operand::OutOfRange(None) => None,
    }
}

fn long_operands(tables: &LongNames<'_>, names: &Names, operands: &[Operand]) -> Option<u64>
    ensures { result ≡ first_long (in_operands_at tables.now names.now operands.now) }
{
    for operand in operands {
        if let Some(count) = long_operand(tables, names, operand) {
            return Some(count);
        }
    }
    None
}

fn long_labels(names: &Names, labels: &[ValueId]) -> Option<u64>
    ensures { result ≡ first_long (map (name_in names.now) labels.now) }
{
    for label in labels {
        if let Some(count) = long_at(names, *label) {
            return Some(count);
        }
    }
    None
}

// What is found first.
fn either(first: Option<u64>, second: Option<u64>) -> Option<u64>
    ensures { result ≡ or_else first second }
{
    match first {
        Some(count) => Some(count),
        None => second,
    }
}

// Of the entries of a phi: each operand stands before its label.
fn long_entries(
    tables: &LongNames<'_>,
    names: &Names,
    operands: &[Operand],
    labels: &[ValueId],
) -> Option<u64>
    ensures { result ≡ first_long (in_entries_at tables.now names.now operands.now labels.now) }
{
    let mut labels_left = labels;
    let mut operands_left = operands;
    'more: while let Some((operand, operands_behind)) = operands_left.split_first() {
        let Some((label, labels_behind)) = labels_left.split_first() else {
            return long_operands(tables, names, operands_left);
        };
        if let Some(count) = either(long_operand(tables, names, operand), long_at(names, *label)) {
            return Some(count);
        }
        operands_left = operands_behind;
        labels_left = labels_behind;
    }
    long_labels(names, labels_left)
}

// Of what stands before the operands: the name that is called, or a memory type.
fn long_in_kind(tables: &LongNames<'_>, kind: &InstKind) -> Option<u64>
    ensures { result ≡ first_long (before_operands (kind_in tables.now kind.now)) }
{
    match kind {
        InstKind::Call(callee) => long_name(&callee.name),
        InstKind::Offset(id, _, _, _, _) => tables.of_type(*id),
        _ => None,
    }
}

#[tactic(auto, using(crate::proofs::Firsts::first_of_both))]
fn long_inst(tables: &LongNames<'_>, names: &Names, inst: &Inst) -> Option<u64>
    ensures { result ≡ first_long (in_inst (inst_in tables.now names.now inst.now)) }
{
    let operands = inst.args.as_slice();
    let labels = inst.labels.as_slice();
    let parts = match &inst.kind {
        InstKind::Phi => long_entries(tables, names, operands, labels),
        kind => either(
            long_in_kind(tables, kind),
            either(
                long_operands(tables, names, operands),
                long_labels(names, labels),
            ),
        ),
    };
    either(long_result(names, inst.result), parts)
}

fn long_insts(tables: &LongNames<'_>, names: &Names, insts: &[Inst]) -> Option<u64>
    ensures { result ≡ first_long (in_insts_at tables.now names.now insts.now) }
{
    for inst in insts {
        if let Some(count) = long_inst(tables, names, inst) {
            return Some(count);
        }
    }
    None
}

fn long_block(tables: &LongNames<'_>, names: &Names, block: &Block) -> Option<u64>
    ensures { result ≡ first_long (in_block (block_in tables.now names.now block.now)) }
{
    either(
        long_at(names, block.name),
        long_insts(tables, names, block.insts.as_slice()),
    )
}

fn long_blocks(tables: &LongNames<'_>, names: &Names, blocks: &[Block]) -> Option<u64>
    ensures { result ≡ first_long (in_blocks_at tables.now names.now blocks.now) }
{
    for block in blocks {
        if let Some(count) = long_block(tables, names, block) {
            return Some(count);
        }
    }
    None
}

fn long_params(names: &Names, params: &[Param]) -> Option<u64>
    ensures { result ≡ first_long (params_at names.now params.now) }
{
    for param in params {
        if let Some(count) = long_at(names, param.name) {
            return Some(count);
        }
    }
    None
}

/// The bytes of the first name in a function that is no number and has more than 255: its own, its parameters', and then those in
/// its blocks, in the text's order.
#[tactic(auto, using(crate::proofs::Firsts::first_of_both))]
pub fn long_name_of_function(tables: &LongNames<'_>, function: &Function) -> Option<u64>
    ensures { result ≡ first_long (in_function (function_in tables.now function.now)) }
{
    let params = long_params(&function.names, function.params.as_slice());
    let blocks = long_blocks(tables, &function.names, function.body.as_slice());
    either(long_name(&function.name), either(params, blocks))
}
