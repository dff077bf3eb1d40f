// Types of what lies in memory, by themselves and by names.

use crate::{Name, Ty};
use lists::Items;

/// The place of a memory type in its module's list of types.
#[derive(Clone, Copy, PartialEq, Eq, Debug, Default)]
pub struct TypeId(pub u32);

/// A type of what lies in memory. Types in it are places in its module's list of types.
#[derive(Debug, Drop)]
pub enum MemTy {
    /// A type of values.
    One(Ty),
    /// An array: the number of its elements, and their type.
    Array(u64, TypeId),
    /// A struct: whether it is packed, and the types of its members.
    Struct(bool, Items<TypeId>),
    /// The type of a name: a place in the module's list of type names.
    Named(u32),
}

/// What a name of a type stands for.
#[derive(Clone, Copy, PartialEq, Eq, Debug)]
pub enum NamedType {
    /// This type.
    Defined(TypeId),
    /// A type of which nothing is known.
    Opaque,
    /// Nothing: the name is used and not defined.
    Missing,
}

/// A name of a type.
#[derive(Debug, Drop)]
pub struct TypeName {
    /// The name.
    pub name: Name,
    /// What it stands for.
    pub ty: NamedType,
}

/// How much memory a type takes.
#[derive(Clone, Copy, PartialEq, Eq, Debug)]
pub enum Extent {
    /// It has no size, as it is opaque or missing, or has itself or such a type as a part.
    NoSize,
    /// Its size in bytes, or 2^61 where that is less, and its alignment in bytes.
    Size(u64, u64),
}
