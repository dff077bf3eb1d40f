// Counts of what functions have, and the first limit that is passed.

ghost use Rattle.std.specs.Prelude.{◌≡◌, sum_by, length, IfOk, IfSome};
ghost use Rattle.ir_types.specs.declared.module.Block.{Block};
ghost use Rattle.ir_types.specs.declared.module.Function.{Function};
ghost use Rattle.ir_limits.specs.Placed.{instructions_among, above_limits, IsPassedBy};

use ir_types::{Block, Function};
use std::alloc::AllocError;
use text_lex::Count;

/// The most functions that a module may have, defined and declared.
const FUNCTION_LIMIT: u64 = 4096;
/// The most blocks of all functions.
const BLOCK_LIMIT: u64 = 65_536;
/// The most instructions of all functions.
const INSTRUCTION_LIMIT: u64 = 1_000_000;

// The blocks of functions; none where they are 2^64 or more.
fn block_count(functions: &[Function]) -> Option<u64>
    ensures { IfSome result (λ n. n ≡ sum_by (λ (f : Function). length f.body) functions.now) }
{
    let mut count: u64 = 0;
    for function in functions {
        count = count.checked_add(function.body.len() as u64)?;
    }
    Some(count)
}

// The instructions of blocks.
fn instructions_in(blocks: &[Block]) -> Option<u64>
    ensures { IfSome result (λ n. n ≡ sum_by (λ (b : Block). length b.insts) blocks.now) }
{
    let mut count: u64 = 0;
    for block in blocks {
        count = count.checked_add(block.insts.len() as u64)?;
    }
    Some(count)
}

// The instructions of functions.
fn instruction_count(functions: &[Function]) -> Option<u64>
    ensures { IfSome result (λ n. n ≡ instructions_among functions.now) }
{
    let mut count: u64 = 0;
    for function in functions {
        count = count.checked_add(instructions_in(function.body.as_slice())?)?;
    }
    Some(count)
}

// The first of the limits that is passed, and what was counted.
fn first_passed(
    functions: u64,
    blocks: u64,
    instructions: u64,
    long: Option<u64>,
) -> Option<(Count, u64)>
    ensures { result ≡ above_limits functions blocks instructions long }
{
    if functions > FUNCTION_LIMIT {
        return Some((Count::Functions, functions));
    }
    if blocks > BLOCK_LIMIT {
        return Some((Count::Blocks, blocks));
    }
    if instructions > INSTRUCTION_LIMIT {
        return Some((Count::Instructions, instructions));
    }
    long.map(|bytes| (Count::Name, bytes))
}

/// The first limit that these functions, or a name of so many bytes, pass, and what was counted.
///
/// # Errors
///
/// Where a count is 2^64 or more: no memory holds so much.
pub fn passed(functions: &[Function], long: Option<u64>) -> Result<Option<(Count, u64)>, AllocError>
    ensures { IfOk result (IsPassedBy functions.now long) }
{
    let blocks = block_count(functions).ok_or(AllocError)?;
    let instructions = instruction_count(functions).ok_or(AllocError)?;
    Ok(first_passed(functions.len() as u64, blocks, instructions, long))
}
