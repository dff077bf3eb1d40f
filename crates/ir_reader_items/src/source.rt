// What is left to be read again.

ghost use Rattle.std.specs.Prelude.{◌≡◌, true, is_some};
ghost use Rattle.text_forms.specs.Gives.{left};
ghost use Rattle.ir_types.specs.TypeNodes.{names_used};
ghost use Rattle.ir_limits.specs.Limits.{first_long};
ghost use Rattle.ir_reader_items.specs.Sources.{type_read, nodes_read, outline_there, outline_read};

use ir_types::Name;
use text_forms::Cursor;

/// A place where a memory type stands.
#[derive(Clone, Copy, Debug)]
pub struct TypeSource<'t> {
    /// The tokens from there on.
    pub tokens: Cursor<'t>,
    /// The bytes of the first name in the type that has too many.
    pub long: Option<u64>,
    pub ghost stands: { is_some (type_read (left tokens)) ≡ true },
    pub ghost first: { long ≡ first_long (names_used (nodes_read (left tokens))) },
}

/// A function whose parameters and body are left to be read again.
#[derive(Debug, Drop)]
pub struct FunctionSource<'t> {
    /// Its name.
    pub name: Name,
    /// Whether it is defined, and not only declared.
    pub defined: bool,
    /// The tokens behind the word `define` or `declare`.
    pub tokens: Cursor<'t>,
    pub ghost stands: { is_some (outline_there defined (left tokens)) ≡ true },
    pub ghost named: { name ≡ (outline_read defined (left tokens)).name },
}
