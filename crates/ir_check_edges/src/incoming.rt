// The edges into the blocks of a function.

ghost use Rattle.std.specs.Prelude.{◌≡◌, ◌<◌, length, replicate, [], IfOk, OnOk};
ghost use Rattle.std.specs.List.{AllByRecursion};
ghost use Rattle.ir_types.specs.declared.name.ValueId.{ValueId};
ghost use Rattle.ir_check_edges.specs.Incoming.{rows_of, put_all, labels_by, AreIncoming};

use ir_graph::goes_to;
use ir_types::{Function, Inst, ValueId};
use std::alloc::{AllocError, Global};

// So many lists without an item.
#[tactic(auto, using(crate::proofs::Rows::empty_next))]
fn empty_rows(alloc: Global, count: usize) -> Result<Vec<Vec<ValueId>>, AllocError>
    ensures { IfOk result (λ rows. rows_of rows.items ≡ replicate count []) }
{
    let mut rows = Vec::new(alloc);
    for _ in 0..count {
        rows.push(Vec::new(alloc))?;
    }
    Ok(rows)
}

// Puts a label behind the lists of those that an instruction goes to.
#[tactic(auto, using(crate::proofs::Rows::put_is))]
fn put_labels(
    rows: &mut Vec<Vec<ValueId>>,
    from: ValueId,
    labels: &[ValueId],
) -> Result<(), AllocError>
    ensures put { OnOk result (rows_of rows.new.items ≡ put_all from (rows_of rows.old.items) labels.now) }
    ensures within { OnOk result (AllByRecursion (λ (l : ValueId). l.0 < length rows.old.items) labels.now) }
    ensures size { length rows.new.items ≡ length rows.old.items }
{
    for label in labels {
        let place = label.0 as usize;
        if place >= rows.len() {
            return Err(AllocError);
        }
        rows[place].push(from)?;
    }
    Ok(())
}

// Puts the label of a block behind the lists of those that its instructions go to.
#[tactic(auto, using(crate::proofs::Rows::put_all_both))]
fn put_insts(rows: &mut Vec<Vec<ValueId>>, from: ValueId, insts: &[Inst]) -> Result<(), AllocError>
    ensures put { OnOk result (rows_of rows.new.items ≡ put_all from (rows_of rows.old.items) (labels_by insts.now)) }
    ensures within { OnOk result (AllByRecursion (λ (l : ValueId). l.0 < length rows.old.items) (labels_by insts.now)) }
    ensures size { length rows.new.items ≡ length rows.old.items }
{
    for inst in insts {
        put_labels(rows, from, goes_to(inst))?;
    }
    Ok(())
}

/// For each name of a function the labels of the blocks from which edges lead to the block of that name, one for each edge.
///
/// # Errors
///
/// Where memory is short, and where the function's table lacks a label.
pub fn edges_into(alloc: Global, function: &Function) -> Result<Vec<Vec<ValueId>>, AllocError>
    ensures { IfOk result (λ rows. AreIncoming function.now rows.items) }
{
    let mut rows = empty_rows(alloc, function.names.len())?;
    for block in function.body.as_slice() {
        put_insts(&mut rows, block.name, block.insts.as_slice())?;
    }
    Ok(rows)
}
