// Blocks and functions.

ghost use Rattle.std.specs.Prelude.{◌≡◌, ◌∷◌, [], map, if◌then◌else◌};
ghost use Rattle.std.specs.List.{AllByRecursion};
ghost use Rattle.ir_types.specs.Types.{AreTypes};
ghost use Rattle.ir_types.specs.Denotes.{Tables, type_names_of, param_in, function_in};
ghost use Rattle.ir_shape.specs.Shape.{IsInst, IsBlock, IsParam, IsFunction};
ghost use Rattle.ir_printer_types.specs.Appends.{Prints};
ghost use Rattle.ir_printer_types.specs.Pieces.{line_feed, indent, each_behind, separated, with_commas};
ghost use Rattle.ir_printer.specs.Trees.{insts_of, block_of, blocks_of, params_of, function_of, functions_of};
ghost use Rattle.ir_printer.specs.Print.{inst_pieces, block_pieces, param_pieces, params_pieces, function_word, head_pieces, body_pieces, function_pieces, parting, functions_behind};

use crate::call::put_dots;
use crate::kept::{put_blank_then_kept, put_kept_then_blank};
use crate::line::put_inst;
use ir_printer_types::name::put_name;
use ir_printer_types::types::{put_local, put_type};
use ir_types::{Block, Function, Inst, Module, Names, Param};
use std::alloc::{AllocError, Global};

fn put_insts(
    alloc: Global,
    out: &mut Vec<u8>,
    m: &Module,
    names: &Names,
    insts: &[Inst],
) -> Result<(), AllocError>
    requires types { AreTypes (type_names_of m.now) 0 m.now.types }
    requires known { AllByRecursion IsInst (insts_of m.now names.now insts.now) }
    ensures { Prints out.old out.new result
        (each_behind (indent ∷ []) (map inst_pieces (insts_of m.now names.now insts.now))) }
{
    for inst in insts {
        out.extend_from_slice(b"  ")?;
        put_inst(alloc, out, m, names, inst)?;
    }
    Ok(())
}

#[tactic(auto, unfolding(crate::specs::Print::block_pieces))]
fn put_block(
    alloc: Global,
    out: &mut Vec<u8>,
    m: &Module,
    names: &Names,
    block: &Block,
) -> Result<(), AllocError>
    requires types { AreTypes (type_names_of m.now) 0 m.now.types }
    requires known { IsBlock (block_of m.now names.now block.now) }
    ensures { Prints out.old out.new result (block_pieces (block_of m.now names.now block.now)) }
{
    put_name(out, names.get(block.name))?;
    out.extend_from_slice(b":\n")?;
    put_insts(alloc, out, m, names, block.insts.as_slice())
}

fn put_blocks(
    alloc: Global,
    out: &mut Vec<u8>,
    m: &Module,
    names: &Names,
    blocks: &[Block],
) -> Result<(), AllocError>
    requires types { AreTypes (type_names_of m.now) 0 m.now.types }
    requires known { AllByRecursion IsBlock (blocks_of m.now names.now blocks.now) }
    ensures { Prints out.old out.new result
        (separated (line_feed ∷ []) (map block_pieces (blocks_of m.now names.now blocks.now))) }
{
    let [first, rest @ ..] = blocks else {
        return Ok(());
    };
    put_block(alloc, out, m, names, first)?;
    for block in rest {
        out.push(b'\n')?;
        put_block(alloc, out, m, names, block)?;
    }
    Ok(())
}

#[tactic(auto, unfolding(crate::specs::Print::param_pieces), using(ir_printer_types::proofs::Appended::text_of_both, std::proofs::lemmas::Grind::common_steps))]
fn put_param(out: &mut Vec<u8>, names: &Names, param: &Param) -> Result<(), AllocError>
    requires { IsParam (param_in names.now param.now) }
    ensures { Prints out.old out.new result (param_pieces (param_in names.now param.now)) }
{
    put_type(out, param.ty)?;
    put_blank_then_kept(out, &param.kept)?;
    out.push(b' ')?;
    put_local(out, names, param.name)
}

fn put_params(out: &mut Vec<u8>, names: &Names, params: &[Param]) -> Result<(), AllocError>
    requires { AllByRecursion IsParam (params_of names.now params.now) }
    ensures { Prints out.old out.new result
        (with_commas (map param_pieces (params_of names.now params.now))) }
{
    let [first, rest @ ..] = params else {
        return Ok(());
    };
    put_param(out, names, first)?;
    for param in rest {
        out.extend_from_slice(b", ")?;
        put_param(out, names, param)?;
    }
    Ok(())
}

// Appends what stands between the parentheses behind a function's name.
fn put_all_params(out: &mut Vec<u8>, function: &Function) -> Result<(), AllocError>
    requires { AllByRecursion IsParam
        (params_of function.now.names function.now.params) }
    ensures { Prints out.old out.new result
        (params_pieces (params_of function.now.names function.now.params) function.now.varargs) }
{
    put_params(out, &function.names, function.params.as_slice())?;
    if function.varargs {
        put_dots(out, function.params.len())?;
    }
    Ok(())
}

fn word_of_function(function: &Function) -> &'static [u8]
    ensures { result.now ≡ function_word function.now.body }
{
    if function.body.is_empty() {
        b"declare"
    } else {
        b"define"
    }
}

// Appends what stands before the blocks.
fn put_head(out: &mut Vec<u8>, function: &Function) -> Result<(), AllocError>
    requires { AllByRecursion IsParam
        (params_of function.now.names function.now.params) }
    ensures { (tables : Tables) → Prints out.old out.new result
        (head_pieces (function_in tables function.now)) }
{
    out.extend_from_slice(word_of_function(function))?;
    out.push(b' ')?;
    put_kept_then_blank(out, &function.before)?;
    put_type(out, function.ret)?;
    out.extend_from_slice(b" @")?;
    put_name(out, &function.name)?;
    out.push(b'(')?;
    put_all_params(out, function)?;
    out.push(b')')?;
    put_blank_then_kept(out, &function.after)?;
    Ok(())
}

// Appends the blocks in braces, or the end of a declaration's line.
fn put_body(
    alloc: Global,
    out: &mut Vec<u8>,
    m: &Module,
    names: &Names,
    blocks: &[Block],
) -> Result<(), AllocError>
    requires types { AreTypes (type_names_of m.now) 0 m.now.types }
    requires known { AllByRecursion IsBlock (blocks_of m.now names.now blocks.now) }
    ensures { Prints out.old out.new result (body_pieces (blocks_of m.now names.now blocks.now)) }
{
    if blocks.is_empty() {
        return out.extend_from_slice(b"\n");
    }
    out.extend_from_slice(b" {\n")?;
    put_blocks(alloc, out, m, names, blocks)?;
    out.extend_from_slice(b"}\n")?;
    Ok(())
}

fn put_function(
    alloc: Global,
    out: &mut Vec<u8>,
    m: &Module,
    function: &Function,
) -> Result<(), AllocError>
    requires types { AreTypes (type_names_of m.now) 0 m.now.types }
    requires known { IsFunction (function_of m.now function.now) }
    ensures { Prints out.old out.new result (function_pieces (function_of m.now function.now)) }
{
    put_head(out, function)?;
    put_body(alloc, out, m, &function.names, function.body.as_slice())
}

// Appends an empty line where something is printed already.
fn part_from(out: &mut Vec<u8>) -> Result<(), AllocError>
    ensures { Prints out.old out.new result (parting out.old.items) }
{
    if !out.is_empty() {
        out.push(b'\n')?;
    }
    Ok(())
}

/// Appends functions of a module, each behind an empty line, but for the first where nothing is printed before it.
pub(crate) fn put_functions(
    alloc: Global,
    out: &mut Vec<u8>,
    m: &Module,
    functions: &[Function],
) -> Result<(), AllocError>
    requires types { AreTypes (type_names_of m.now) 0 m.now.types }
    requires known { AllByRecursion IsFunction
        (functions_of m.now functions.now) }
    ensures { Prints out.old out.new result
        (functions_behind out.old.items (map function_pieces (functions_of m.now functions.now))) }
{
    let [first, rest @ ..] = functions else {
        return Ok(());
    };
    part_from(out)?;
    put_function(alloc, out, m, first)?;
    for function in rest {
        out.push(b'\n')?;
        put_function(alloc, out, m, function)?;
    }
    Ok(())
}
