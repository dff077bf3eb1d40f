// The locals of a function where they are defined.

ghost use Rattle.std.specs.Prelude.{◌≡◌, ◌+◌, ◌++◌, ◌≤◌, length, slice_get, IfOk, OnOk, MatchOption, Some};
ghost use Rattle.ir_check_names.specs.Definitions.{of_params, of_results, of_blocks, of_function};

use ir_types::{Block, Function, Inst, Name, Names, Param, ValueId};
use std::alloc::{AllocError, Global};

/// A local where it is defined: its place in the names of its function, and the number of the instruction, 0 in the head.
#[derive(Clone, Copy, Debug, PartialEq, Eq)]
pub(crate) struct Definition {
    pub(crate) name: ValueId,
    pub(crate) place: u32,
}

// The name at a place, where there is one.
pub(crate) fn name_at(names: &Names, id: ValueId) -> Option<&Name>
    ensures { MatchOption result (length names.now ≤ id.0)
        (λ n. slice_get names.now id.0 ≡ Some n.now) }
{
    if (id.0 as usize) < names.len() {
        Some(names.get(id))
    } else {
        None
    }
}

// The number of the instruction so many behind one. Where it has more than 32 bits, the answer is that there is no memory.
pub(crate) fn behind(place: u32, count: usize) -> Result<u32, AllocError>
    ensures { IfOk result (λ n. n ≡ place + count) }
{
    let count = u32::try_from(count).ok().ok_or(AllocError)?;
    place.checked_add(count).ok_or(AllocError)
}

fn push_params(definitions: &mut Vec<Definition>, params: &[Param]) -> Result<(), AllocError>
    ensures { OnOk result (definitions.new.items ≡ definitions.old.items ++ of_params params.now) }
{
    for param in params {
        definitions.push(Definition {
            name: param.name,
            place: 0,
        })?;
    }
    Ok(())
}

// Of instructions the first of which has this number.
fn push_results(
    definitions: &mut Vec<Definition>,
    first: u32,
    insts: &[Inst],
) -> Result<(), AllocError>
    ensures { OnOk result (definitions.new.items ≡ definitions.old.items
        ++ of_results first insts.now) }
{
    let mut place = first;
    for inst in insts {
        if let Some(name) = inst.result {
            definitions.push(Definition { name, place })?;
        }
        place = behind(place, 1)?;
    }
    Ok(())
}

fn push_blocks(definitions: &mut Vec<Definition>, blocks: &[Block]) -> Result<(), AllocError>
    ensures { OnOk result (definitions.new.items ≡ definitions.old.items
        ++ of_blocks 0 blocks.now) }
{
    let mut place = 0;
    for block in blocks {
        definitions.push(Definition {
            name: block.name,
            place,
        })?;
        push_results(definitions, place, block.insts.as_slice())?;
        place = behind(place, block.insts.len())?;
    }
    Ok(())
}

/// Parameters, blocks and results, in the text's order.
///
/// # Errors
///
/// Where there is no memory; so it is said of a function of 2^32 instructions or more, too.
pub(crate) fn definitions_of(
    alloc: Global,
    function: &Function,
) -> Result<Vec<Definition>, AllocError>
    ensures { IfOk result (λ definitions. definitions.items ≡ of_function function.now) }
{
    let mut definitions = Vec::new(alloc);
    push_params(&mut definitions, function.params.as_slice())?;
    push_blocks(&mut definitions, function.body.as_slice())?;
    Ok(definitions)
}
