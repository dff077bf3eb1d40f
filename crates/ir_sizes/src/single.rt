// The extent of a type, from the extents of its parts.
ghost use Rattle.std.specs.Prelude.{◌≡◌, ◌*◌, ◌≤◌, ◌↔◌, ◌^◌, ℕ, List, IsTrue, All, MatchOption, IfSome, IsSome};
ghost use Rattle.ir_types.specs.declared.memory_type.TypeId.{TypeId};
ghost use Rattle.ir_types.specs.declared.memory_type.MemTy.{MemTy};
ghost use Rattle.ir_types.specs.declared.memory_type.MemTy.TheVariants.{Struct};
ghost use Rattle.ir_types.specs.declared.memory_type.TypeName.{TypeName};
ghost use Rattle.ir_types.specs.Types.{IsOneOf, IsType, widths, lane_counts};
ghost use Rattle.ir_types.specs.Sizes.{Layout, value_size, aligned};
ghost use Rattle.ir_sizes.specs.Known.{extent_at, IsSized, IsSizedAt, IsExtentOf, IsSmall, IsRight, EachIsRight, AreSized, AreSmall, IsDefined};
ghost use Rattle.ir_sizes.specs.Put.{put_at, EndAt};
ghost use Rattle.ir_sizes.specs.Stepping.{small_extent};

use ir_types::{Extent, MemTy, NamedType, Ty, TypeId, TypeName};

/// Sizes from here on are not told apart.
pub const SIZE_CAP: u64 = 1 << 61;

/// The extent of a type, and `NoSize` where a part of it has none.
pub fn extent_of(names: &[TypeName], extents: &[Extent], ty: &MemTy) -> Extent
    requires { AreSmall extents.now }
    ensures right { (types : List MemTy) → EachIsRight types names.now extents.now → IsRight types names.now ty.now result }
    ensures sized { AreSized names.now extents.now ty.now → IsSized result }
{
    match ty {
        MemTy::One(ty) => of_value(*ty),
        MemTy::Array(count, element) => of_array(*count, extent_of_part(extents, *element)),
        MemTy::Struct(packed, members) => of_struct(*packed, members.as_slice(), extents),
        MemTy::Named(name) => match definition(names, *name) {
            Some(id) => extent_of_part(extents, id),
            None => Extent::NoSize,
        },
    }
}

/// The extent at a place, and `NoSize` where there is none.
pub fn extent_of_part(extents: &[Extent], id: TypeId) -> Extent
    ensures { result ≡ extent_at extents.now id.0 }
{
    match extents.get(id.0 as usize) {
        Some(extent) => *extent,
        None => Extent::NoSize,
    }
}

/// The size of the type at a place, where it is below 2^61.
pub fn small_size(extents: &[Extent], id: TypeId) -> Option<u64>
    ensures { result ≡ small_extent (extent_at extents.now id.0) }
{
    match extent_of_part(extents, id) {
        Extent::Size(size, _) if size < SIZE_CAP => Some(size),
        _ => None,
    }
}

/// The type that the name at a place stands for.
pub fn definition(names: &[TypeName], place: u32) -> Option<TypeId>
    ensures { MatchOption result ((id : TypeId) → IsDefined names.now place id → ⊥) (IsDefined names.now place) }
{
    match names.get(place as usize) {
        Some(
            TypeName {
                ty: NamedType::Defined(id),
                ..
            },
        ) => Some(*id),
        _ => None,
    }
}

/// Whether the extent has a size.
pub fn is_sized(extent: Extent) -> bool
    ensures { IsTrue result ↔ IsSized extent }
{
    matches!(extent, Extent::Size(_, _))
}

/// Whether a width is one that is written.
fn is_width(width: u32) -> bool
    ensures { IsTrue result ↔ IsOneOf widths width }
{
    matches!(width, 1 | 8 | 16 | 32 | 64)
}

/// Whether a number of lanes is one that is written.
fn is_lane_count(lanes: u32) -> bool
    ensures { IsTrue result ↔ IsOneOf lane_counts lanes }
{
    matches!(lanes, 2 | 4 | 8 | 16 | 32 | 64 | 128 | 256 | 512)
}

/// The extent of a type of values: its bits in bytes, rounded up.
fn of_value(ty: Ty) -> Extent
    ensures right { IsSized result → IsType ty × IsExtentOf (record { size = value_size ty; align = value_size ty }) result }
    ensures sized { IsType ty → IsSized result }
{
    let bits = match ty {
        Ty::Int(width) if is_width(width) => width,
        Ty::Ptr => 64,
        Ty::Vector(lanes, width) if is_lane_count(lanes) && is_width(width) => lanes * width,
        _ => return Extent::NoSize,
    };
    let bytes = u64::from((bits + 7) / 8);
    Extent::Size(bytes, bytes)
}

/// The extent of an array of so many elements.
fn of_array(count: u64, element: Extent) -> Extent
    ensures right { (l : Layout) → IsExtentOf l element → IsExtentOf (record { size = count * l.size; align = l.align }) result }
    ensures sized { IsSized element ↔ IsSized result }
{
    match element {
        Extent::Size(size, align) => Extent::Size(count.saturating_mul(size).min(SIZE_CAP), align),
        Extent::NoSize => Extent::NoSize,
    }
}

/// The first multiple of an alignment that is at least so many bytes.
pub fn aligned_up(align: u64, bytes: u64) -> u64
    requires align { (1 ≤ align) × (align ≤ 4096) }
    requires bytes { bytes ≤ 2 ^ 61 }
    ensures { result ≡ aligned align bytes }
{
    (bytes + (align - 1)) / align * align
}

/// The alignment at which a member is put, where its own is this.
pub fn member_align(packed: bool, natural: u64) -> u64
    ensures { result ≡ put_at packed natural }
{
    if packed { 1 } else { natural }
}

/// Where members end, and the greatest alignment at which they are put.
#[derive(Clone, Copy)]
pub struct End {
    pub bytes: u64,
    pub align: u64,
}

/// Where these members end, each put behind the one before; none where a member has no size.
pub fn end_of(packed: bool, members: &[TypeId], extents: &[Extent]) -> Option<End>
    requires { AreSmall extents.now }
    ensures small { IfSome result (λ end. (end.bytes ≤ 2 ^ 61) × (1 ≤ end.align) × (end.align ≤ 4096)) }
    ensures right { IfSome result (λ end. (types : List MemTy) (names : List TypeName) → EachIsRight types names extents.now → EndAt types names packed members.now end.bytes end.align) }
    ensures sized { All (IsSizedAt extents.now) members.now → IsSome result }
{
    let mut bytes = 0;
    let mut align = 1;
    for id in members {
        let Extent::Size(size, natural) = extent_of_part(extents, *id) else {
            return None;
        };
        let put_at = member_align(packed, natural);
        bytes = (aligned_up(put_at, bytes) + size).min(SIZE_CAP);
        align = put_at.max(align);
    }
    Some(End { bytes, align })
}

/// The extent of a struct of these members.
fn of_struct(packed: bool, members: &[TypeId], extents: &[Extent]) -> Extent
    requires { AreSmall extents.now }
    ensures right { (types : List MemTy) (names : List TypeName) → EachIsRight types names extents.now → IsRight types names (Struct packed members.now) result }
    ensures sized { All (IsSizedAt extents.now) members.now → IsSized result }
{
    match end_of(packed, members, extents) {
        Some(end) => Extent::Size(aligned_up(end.align, end.bytes).min(SIZE_CAP), end.align),
        None => Extent::NoSize,
    }
}
