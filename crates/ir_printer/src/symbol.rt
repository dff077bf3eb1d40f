// Symbols as operands.

ghost use Rattle.ir_types.specs.Names.{name_at};
ghost use Rattle.ir_types.specs.Denotes.{tables_of};
ghost use Rattle.ir_shape.specs.Shape.{IsName};
ghost use Rattle.ir_printer_types.specs.Appends.{Appends, Prints};
ghost use Rattle.ir_printer_types.specs.Pieces.{global_token};
ghost use Rattle.ir_printer.specs.Print.{global_pieces};

use crate::value::put_signed;
use ir_printer_types::name::put_name;
use ir_types::Module;
use std::alloc::AllocError;

// Appends `@name` for a place in the list of symbols.
fn put_symbol(out: &mut Vec<u8>, m: &Module, symbol: u32) -> Result<(), AllocError>
    requires { IsName (name_at (tables_of m.now).symbols symbol) }
    ensures { Appends out.old out.new result
        ((global_token (name_at (tables_of m.now).symbols symbol)).text) }
{
    out.push(b'@')?;
    put_name(out, &m.symbols.at(symbol as usize).name)
}

/// Appends a symbol, and how many bytes behind it where these aren't 0.
#[tactic(auto, unfolding(crate::specs::Print::global_pieces), using(ir_printer_types::proofs::Appended::text_of_both, std::proofs::lemmas::Grind::common_steps))]
pub(crate) fn put_global(
    out: &mut Vec<u8>,
    m: &Module,
    symbol: u32,
    bytes: u64,
) -> Result<(), AllocError>
    requires { IsName (name_at (tables_of m.now).symbols symbol) }
    ensures { Prints out.old out.new result
        (global_pieces (name_at (tables_of m.now).symbols symbol) bytes) }
{
    if bytes == 0 {
        return put_symbol(out, m, symbol);
    }
    out.extend_from_slice(b"getelementptr (i8, ptr ")?;
    put_symbol(out, m, symbol)?;
    out.extend_from_slice(b", i64 ")?;
    put_signed(out, 64, bytes)?;
    out.extend_from_slice(b")")
}
