// The extents of all types of a module.
ghost use Rattle.std.specs.Prelude.{◌≡◌, ◌<◌, ℕ, false, IfOk, IsTrue};
ghost use Rattle.ir_types.specs.Sizes.{AreExtents};
ghost use Rattle.ir_sizes.specs.Known.{AreRight, IsSettledAt, unset};

use crate::order::set_in_order;
use crate::place::set_at;
use ir_types::{Extent, MemTy, TypeName};
use lists::Items;
use std::alloc::{AllocError, Global};

/// The extents of the types of a module.
///
/// # Errors
///
/// Where there is no memory.
pub fn extents_of(
    alloc: Global,
    types: &[MemTy],
    names: &[TypeName],
) -> Result<Items<Extent>, AllocError>
    ensures { IfOk result (λ extents. AreExtents types.now names.now extents) }
{
    let mut extents = vec![in alloc; Extent::NoSize; types.len()]?;
    set_in_order(alloc, types, names, &mut extents)?;
    while set_all(types, names, &mut extents) {}
    Ok(Items::from_vec(extents))
}

/// Sets each extent that isn't set and whose parts are, from left to right; whether there was one.
fn set_all(types: &[MemTy], names: &[TypeName], extents: &mut [Extent]) -> bool
    requires { AreRight types.now names.now extents.old }
    ensures right { AreRight types.now names.now extents.new }
    ensures set { IsTrue result → unset extents.new < unset extents.old }
    ensures settled { result ≡ false → (place : ℕ) → IsSettledAt types.now names.now extents.new place }
{
    let mut any = false;
    for place in 0..types.len() {
        if set_at(types, names, extents, place) {
            any = true;
        }
    }
    any
}
