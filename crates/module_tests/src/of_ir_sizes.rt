// Sizes of types, and the bytes that indexes lead on.

ghost use Rattle.std.specs.Prelude.{◌≡◌, IfOk};
ghost use Rattle.ir_types.specs.declared.memory_type.MemTy.TheVariants.{Struct};
ghost use Rattle.ir_types.specs.Types.{AreTypes};
ghost use Rattle.ir_sizes.specs.Definitions.{names_in};

use crate::shared::name;
use ir_sizes::{Index, extents_of, offset, size_of, steps_of};
use ir_types::{Extent, MemTy, Module, NamedType, Ty, TypeId, TypeName};
use lists::Items;
use std::alloc::{AllocError, Global};
use std::test::Fail;

const CAP: u64 = 2_305_843_009_213_693_952;

fn structure(alloc: Global, packed: bool, members: &[TypeId]) -> Result<MemTy, AllocError>
    ensures { IfOk result (λ t. t ≡ Struct packed members.now) }
{
    Ok(MemTy::Struct(packed, Items::from_vec(members.to_vec(alloc)?)))
}

fn named(alloc: Global, bytes: &[u8], ty: NamedType) -> Result<TypeName, AllocError> {
    Ok(TypeName {
        name: name(alloc, bytes)?,
        ty,
    })
}

fn names(alloc: Global) -> Result<Items<TypeName>, AllocError> {
    Ok(Items::from_vec(vec![in alloc;
        named(alloc, b"behind", NamedType::Defined(TypeId(12)))?,
        named(alloc, b"in_itself", NamedType::Defined(TypeId(14)))?,
        named(alloc, b"opaque", NamedType::Opaque)?,
        named(alloc, b"missing", NamedType::Missing)?,
    ]?))
}

fn types(alloc: Global) -> Result<Items<MemTy>, AllocError> {
    Ok(Items::from_vec(vec![in alloc;
        MemTy::One(Ty::Int(8)),
        MemTy::One(Ty::Int(32)),
        MemTy::One(Ty::Int(16)),
        structure(alloc, false, &[TypeId(0), TypeId(1), TypeId(2)])?,
        structure(alloc, true, &[TypeId(0), TypeId(1), TypeId(2)])?,
        MemTy::One(Ty::Int(64)),
        MemTy::Array(u64::MAX, TypeId(5)),
        MemTy::Array(0, TypeId(6)),
        MemTy::One(Ty::Vector(4, 1)),
        MemTy::Array(3, TypeId(8)),
        MemTy::Named(0),
        MemTy::Array(2, TypeId(10)),
        structure(alloc, false, &[TypeId(3), TypeId(2)])?,
        MemTy::Named(1),
        structure(alloc, false, &[TypeId(0), TypeId(13)])?,
        MemTy::Named(2),
        MemTy::Named(3),
        MemTy::Array(CAP - 1, TypeId(0)),
    ]?))
}

const EXTENTS: [Extent; 18] = [
    Extent::Size(1, 1),
    Extent::Size(4, 4),
    Extent::Size(2, 2),
    Extent::Size(12, 4),
    Extent::Size(7, 1),
    Extent::Size(8, 8),
    Extent::Size(CAP, 8),
    Extent::Size(0, 8),
    Extent::Size(1, 1),
    Extent::Size(3, 1),
    Extent::Size(16, 4),
    Extent::Size(32, 4),
    Extent::Size(16, 4),
    Extent::NoSize,
    Extent::NoSize,
    Extent::NoSize,
    Extent::NoSize,
    Extent::Size(CAP - 1, 1),
];

#[test]
fn each_type_has_its_extent(rt: HostRuntime) -> Result<(), Fail> {
    let alloc = rt.alloc();
    let types = types(alloc)?;
    let type_names = names(alloc)?;
    let extents = extents_of(alloc, types.as_slice(), type_names.as_slice())?;
    assert_eq!(rt; extents.as_slice(), EXTENTS.as_slice());
    let m = Module {
        head: Items::from_vec(Vec::new(alloc)),
        types,
        extents,
        type_names,
        symbols: Items::from_vec(Vec::new(alloc)),
        functions: Items::from_vec(Vec::new(alloc)),
        tail: Items::from_vec(Vec::new(alloc)),
    };
    let sizes = [
        (MemTy::Named(0), Some(16)),
        (structure(alloc, true, &[TypeId(17)])?, Some(CAP - 1)),
        (structure(alloc, true, &[TypeId(17), TypeId(0)])?, None),
        (MemTy::Array(2, TypeId(6)), None),
        (MemTy::Array(0, TypeId(14)), None),
    ];
    for (ty, size) in &sizes {
        assert_eq!(rt; size_of(&m, ty), *size);
    }
    Ok(())
}

#[derive(Drop)]
struct Stepped {
    types: Vec<MemTy>,
    names: Vec<TypeName>,
}

fn lists(alloc: Global) -> Result<Stepped, AllocError>
    ensures { IfOk result (λ s. AreTypes (names_in s.names.items) 0 s.types.items) }
{
    Ok(Stepped {
        types: vec![in alloc;
            MemTy::One(Ty::Int(8)),
            MemTy::One(Ty::Int(32)),
            MemTy::Array(3, TypeId(1)),
            structure(alloc, false, &[TypeId(0), TypeId(1), TypeId(2)])?,
            MemTy::Named(0),
            MemTy::Array(2, TypeId(4)),
        ]?,
        names: vec![in alloc; named(alloc, b"s", NamedType::Defined(TypeId(3)))?]?,
    })
}

fn index(width: u32, number: u64) -> Index
    ensures width { result.width ≡ width }
    ensures number { result.number ≡ number }
{
    Index { width, number }
}

#[test]
fn indexes_lead_into_types(rt: HostRuntime) -> Result<(), Fail> {
    let alloc = rt.alloc();
    let Stepped { types, names } = lists(alloc)?;
    let extents = extents_of(alloc, types.as_slice(), names.as_slice())?;
    let extents = extents.as_slice();
    let steps = steps_of(alloc, types.as_slice(), names.as_slice(), extents)?;
    let two_deep = [index(64, 1), index(64, 1), index(32, 2), index(64, 2)];
    let bytes = offset(&types, &steps, extents, TypeId(5), &two_deep);
    assert_eq!(rt; bytes, Some(76));
    Ok(())
}
