// How many bytes a constant `getelementptr` leads on.
ghost use Rattle.std.specs.Prelude.{◌≡◌, ◌*◌, ◌%◌, ◌^◌, ℕ, List, map, All};
ghost use Rattle.ir_types.specs.declared.memory_type.TypeName.{TypeName};
ghost use Rattle.ir_types.specs.Offsets.{Definitions, scaled, path_offset, offset_of};
ghost use Rattle.ir_sizes.specs.Known.{extent_at};
ghost use Rattle.ir_sizes.specs.Definitions.{nodes_in, AreDefinitions};
ghost use Rattle.ir_sizes.specs.Stepping.{index_pair, IsIndex, IsSteppable};
ghost use Rattle.ir_sizes.specs.Prepared.{ArePrepared};

use crate::prepare::Steps;
use crate::single::small_size;
use crate::step::step_into;
use ir_types::{Extent, MemTy, TypeId};

/// An index of a constant `getelementptr`: a number of so many bits, which is read as signed where it leads over elements.
#[derive(Clone, Copy, PartialEq, Eq, Debug)]
pub struct Index {
    /// The width in bits, from 1 to 64.
    pub width: u32,
    /// The number, modulo 2^width.
    pub number: u64,
}

/// How many bytes a constant `getelementptr` through the type at a place leads on, modulo 2^64; none where it steps over a type without a
/// size, or of 2^61 bytes or more, or into what has no parts.
pub fn offset(
    types: &[MemTy],
    steps: &Steps,
    extents: &[Extent],
    id: TypeId,
    indexes: &[Index],
) -> Option<u64>
    requires { All IsIndex indexes.now }
    ensures { (names : List TypeName) (defs : Definitions) → ArePrepared types.now names extents.now steps.now → AreDefinitions types.now names defs → result ≡ offset_of defs (nodes_in types.now names id) (map index_pair indexes.now) }
{
    let (first, more) = indexes.split_first()?;
    let size = small_size(extents, id)?;
    let behind = offset_into(types, steps, extents, id, more)?;
    Some(scaled(size, *first).wrapping_add(behind))
}

/// How many bytes indexes into the type at a place lead on.
fn offset_into(
    types: &[MemTy],
    steps: &Steps,
    extents: &[Extent],
    id: TypeId,
    indexes: &[Index],
) -> Option<u64>
    requires { All IsIndex indexes.now }
    ensures { (names : List TypeName) (defs : Definitions) → ArePrepared types.now names extents.now steps.now → AreDefinitions types.now names defs → IsSteppable (extent_at extents.now id.0) → result ≡ path_offset defs (nodes_in types.now names id) (map index_pair indexes.now) }
{
    let mut bytes: u64 = 0;
    let mut place = id;
    for index in indexes {
        let step = step_into(types, steps, extents, place, *index)?;
        bytes = bytes.wrapping_add(step.bytes);
        place = step.place;
    }
    Some(bytes)
}

/// So many bytes for each of an index, modulo 2^64.
pub fn scaled(size: u64, index: Index) -> u64
    requires { IsIndex index }
    ensures { result ≡ scaled size (index_pair index) }
{
    let half = 1 << (index.width - 1);
    let number = if index.number < half {
        index.number
    } else {
        (index.number - half).wrapping_sub(half)
    };
    size.wrapping_mul(number)
}
