// Local names and the types of values.

ghost use Rattle.std.specs.Prelude.{[]};
ghost use Rattle.ir_types.specs.Denotes.{name_in};
ghost use Rattle.ir_shape.specs.Shape.{IsName};
ghost use Rattle.ir_printer_types.specs.Appends.{Appends, Prints};
ghost use Rattle.ir_printer_types.specs.Pieces.{local_token, width_word, type_pieces};

use crate::name::{put_digits, put_name};
use ir_types::{Names, Ty, ValueId};
use std::alloc::AllocError;

/// Appends `%name`.
#[tactic(auto, using(ir_shape::proofs::Names::within_names))]
pub fn put_local(out: &mut Vec<u8>, names: &Names, name: ValueId) -> Result<(), AllocError>
    requires { IsName (name_in names.now name) }
    ensures { Appends out.old out.new result ((local_token (name_in names.now name)).text) }
{
    out.push(b'%')?;
    put_name(out, names.get(name))
}

/// Appends the type of an integer of so many bits.
#[tactic(auto, unfolding(crate::specs::Pieces::width_word))]
pub fn put_width(out: &mut Vec<u8>, width: u32) -> Result<(), AllocError>
    ensures { Appends out.old out.new result (width_word width) }
{
    out.push(b'i')?;
    put_digits(out, u64::from(width))
}

/// Appends a type.
#[tactic(auto, unfolding(crate::specs::Pieces::type_pieces))]
pub fn put_type(out: &mut Vec<u8>, ty: Ty) -> Result<(), AllocError>
    ensures { Prints out.old out.new result (type_pieces ty) }
{
    match ty {
        Ty::Int(width) => put_width(out, width),
        Ty::Ptr => out.extend_from_slice(b"ptr"),
        Ty::Vector(lanes, width) => {
            out.push(b'<')?;
            put_digits(out, u64::from(lanes))?;
            out.extend_from_slice(b" x ")?;
            put_width(out, width)?;
            out.extend_from_slice(b">")
        }
        Ty::Void => out.extend_from_slice(b"void"),
    }
}
