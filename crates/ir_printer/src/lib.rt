//! Prints modules.
#![tactic(auto)]

ghost use Rattle.std.specs.Prelude.{◌≡◌, OnOk, OnErr};
ghost use Rattle.text_lex.specs.Layout.{text_of};
ghost use Rattle.ir_types.specs.Tree.{ModuleTree};
ghost use Rattle.ir_types.specs.Denotes.{tree_of};
ghost use Rattle.ir_types.specs.Reads.{Reads};
ghost use Rattle.ir_shape.specs.Shape.{IsPrintable};
ghost use Rattle.ir_shape.specs.Modules.{IsModule};
ghost use Rattle.ir_shape.specs.Narrow.{IsNarrow};
ghost use Rattle.ir_printer_types.specs.Appends.{Prints};
ghost use Rattle.ir_printer.specs.Print.{front_pieces, module_pieces};

mod branching;
mod call;
mod function;
mod item;
mod kept;
mod line;
mod opening;
mod symbol;
mod value;

use crate::function::put_functions;
use crate::item::{put_comdats, put_head_lines, put_lines, put_type_names, put_variables};
use ir_types::Module;
use std::alloc::{AllocError, Global};

// Appends what stands before the functions.
#[tactic(auto, unfolding(crate::specs::Print::front_pieces), using(ir_printer_types::proofs::Appended::text_of_both, std::proofs::lemmas::Grind::common_steps))]
fn put_front(alloc: Global, m: &Module, out: &mut Vec<u8>) -> Result<(), AllocError>
    requires { IsModule m.now }
    ensures { Prints out.old out.new result (front_pieces (tree_of m.now)) }
{
    put_head_lines(out, m.head.as_slice())?;
    put_type_names(alloc, out, m)?;
    put_comdats(out, m.head.as_slice())?;
    put_variables(alloc, out, m)
}

/// Appends the text of a module in which no number is out of its type's range, which is first made in memory of its own.
///
/// # Errors
///
/// Where there is no room for the text; then nothing is appended.
#[tactic(auto, unfolding(crate::specs::Print::module_pieces), using(crate::proofs::Printed::module_functions, crate::proofs::Printed::module_types, crate::proofs::Printed::module_reads, ir_printer_types::proofs::Appended::text_of_both, std::proofs::lemmas::Grind::common_steps))]
pub fn print_module(alloc: Global, m: &Module, out: &mut Vec<u8>) -> Result<(), AllocError>
    requires known { IsModule m.now }
    requires narrow { IsNarrow (tree_of m.now) }
    ensures text { Prints out.old out.new result (module_pieces (tree_of m.now)) }
    ensures reads { OnOk result (Reads (text_of (module_pieces (tree_of m.now))) (tree_of m.now)) }
    ensures err { OnErr result (out.new.items ≡ out.old.items) }
{
    let mut text = Vec::new(alloc);
    put_front(alloc, m, &mut text)?;
    put_functions(alloc, &mut text, m, m.functions.as_slice())?;
    put_lines(&mut text, m.tail.as_slice())?;
    out.extend_from_slice(&text)
}

/// What is printed of a tree that can be printed reads as it.
pub fn what_is_printed_reads_as_its_tree()
    ensures { (tree : ModuleTree) → IsPrintable tree
        → Reads (text_of (module_pieces tree)) tree }
{}
