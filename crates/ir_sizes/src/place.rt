// Setting the extent at a place.
ghost use Rattle.std.specs.Prelude.{◌≡◌, ◌<◌, false, IsTrue, length};
ghost use Rattle.ir_sizes.specs.Known.{AreRight, IsSettledAt, unset};

use crate::single::{extent_of, is_sized};
use ir_types::{Extent, MemTy, TypeName};

/// Sets the extent at a place where it isn't set and those of its parts are; whether it was set.
pub fn set_at(types: &[MemTy], names: &[TypeName], extents: &mut [Extent], place: usize) -> bool
    requires place { place < length types.now }
    requires right { AreRight types.now names.now extents.old }
    ensures right { AreRight types.now names.now extents.new }
    ensures set { IsTrue result → unset extents.new < unset extents.old }
    ensures stays { result ≡ false → extents.new ≡ extents.old }
    ensures settled { result ≡ false → IsSettledAt types.now names.now extents.new place }
{
    if is_sized(extents[place]) {
        return false;
    }
    let extent = extent_of(names, extents, &types[place]);
    if !is_sized(extent) {
        return false;
    }
    extents[place] = extent;
    true
}
