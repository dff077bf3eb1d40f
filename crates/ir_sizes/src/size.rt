// The size of a type that is made of those of a module.
ghost use Rattle.std.specs.Prelude.{◌≡◌, MatchOption};
ghost use Rattle.ir_types.specs.Sizes.{AreExtents};
ghost use Rattle.ir_sizes.specs.Small.{HasSize, IsBeyond};

use crate::single::{SIZE_CAP, extent_of};
use ir_types::{Extent, MemTy, Module};

/// The size in bytes of a type whose parts are types of the module, where it is at most 2^61 - 1.
pub fn size_of(m: &Module, ty: &MemTy) -> Option<u64>
    requires { AreExtents m.now.types m.now.type_names m.now.extents }
    ensures { MatchOption result (IsBeyond m.now.types m.now.type_names ty.now) (HasSize m.now.types m.now.type_names ty.now) }
{
    match extent_of(m.type_names.as_slice(), m.extents.as_slice(), ty) {
        Extent::Size(size, _) if size < SIZE_CAP => Some(size),
        _ => None,
    }
}
