// The extents of types that were added behind others.
ghost use Rattle.std.specs.Prelude.{OnOk};
ghost use Rattle.text_forms.specs.View.{Extends};
ghost use Rattle.ir_types.specs.Types.{AreTypes};
ghost use Rattle.ir_types.specs.Sizes.{AreExtents};
ghost use Rattle.ir_sizes.specs.Known.{AreFirstExtents};
ghost use Rattle.ir_sizes.specs.Definitions.{names_in};

use crate::single::extent_of;
use ir_types::{Extent, MemTy, TypeName};
use std::alloc::AllocError;

/// Puts the extents of the types behind the first ones, among which all definitions stand, behind the extents of those.
///
/// # Errors
///
/// Where there is no memory.
pub fn extents_behind(
    types: &[MemTy],
    names: &[TypeName],
    extents: &mut Vec<Extent>,
) -> Result<(), AllocError>
    requires types { AreTypes (names_in names.now) 0 types.now }
    requires first { AreFirstExtents types.now names.now extents.old.items }
    ensures are { OnOk result (AreExtents types.now names.now extents.new.items) }
    ensures grows { Extends extents.old.items extents.new.items }
{
    for place in extents.len()..types.len() {
        let extent = extent_of(names, extents.as_slice(), &types[place]);
        extents.push(extent)?;
    }
    Ok(())
}
