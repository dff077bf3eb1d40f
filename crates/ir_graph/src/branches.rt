// The branches of a function as edges.
ghost use Rattle.std.specs.Prelude.{◌≡◌, ◌++◌, IfOk, OnOk};
ghost use Rattle.ir_graph.specs.EdgeLists.{goes_to, edges_to, edges_by, edges_from};

use crate::edges::Edge;
use ir_types::{Block, Inst, InstKind, ValueId};
use std::alloc::{AllocError, Global};

/// The labels that an instruction goes to.
pub fn goes_to(inst: &Inst) -> &[ValueId]
    ensures { result.now ≡ goes_to inst.now }
{
    match inst.kind {
        InstKind::Jump | InstKind::Branch | InstKind::Switch(..) => inst.labels.as_slice(),
        _ => &[],
    }
}

/// The edges from blocks, by the places of all blocks.
pub fn edges_from(
    alloc: Global,
    places: &[Option<usize>],
    body: &[Block],
) -> Result<Vec<Edge>, AllocError>
    ensures { IfOk result (λ edges. edges.items ≡ edges_from places.now 0 body.now) }
{
    let mut edges = Vec::new(alloc);
    for (from, block) in body.iter().enumerate() {
        push_by(&mut edges, places, from, block.insts.as_slice())?;
    }
    Ok(edges)
}

/// Adds the edges from a block by its instructions.
fn push_by(
    edges: &mut Vec<Edge>,
    places: &[Option<usize>],
    from: usize,
    insts: &[Inst],
) -> Result<(), AllocError>
    ensures { OnOk result (edges.new.items ≡ edges.old.items ++ edges_by places.now from insts.now) }
{
    for inst in insts {
        push_to(edges, places, from, goes_to(inst))?;
    }
    Ok(())
}

/// Adds the edges from a block to those of labels.
fn push_to(
    edges: &mut Vec<Edge>,
    places: &[Option<usize>],
    from: usize,
    labels: &[ValueId],
) -> Result<(), AllocError>
    ensures { OnOk result (edges.new.items ≡ edges.old.items ++ edges_to places.now from labels.now) }
{
    for label in labels {
        if let Some(Some(to)) = places.get(label.0 as usize) {
            edges.push(Edge { from, to: *to })?;
        }
    }
    Ok(())
}
