// Items as they are read.

use crate::source::{FunctionSource, TypeSource};
use ir_types::{Kept, Name};

/// The definition of a name of a type.
#[derive(Debug, Drop)]
pub struct Definition<'t> {
    /// The name.
    pub name: Name,
    /// The type, where it isn't opaque.
    pub ty: Option<TypeSource<'t>>,
}

/// A variable.
#[derive(Debug, Drop)]
pub struct Variable<'t> {
    /// Its name.
    pub name: Name,
    /// The tokens that are kept before `global` or `constant`.
    pub before: Kept,
    /// Whether it may be written.
    pub writable: bool,
    /// Its type.
    pub ty: TypeSource<'t>,
    /// The tokens that are kept behind its type, the initialiser first.
    pub after: Kept,
}

/// An item of a module.
#[derive(Debug, Drop)]
pub enum Part<'t> {
    /// The name of the source, or a line about the target, as its tokens.
    Head(Kept),
    /// A comdat, as its tokens.
    Comdat(Kept),
    /// The definition of a name of a type.
    Type(Definition<'t>),
    /// A variable.
    Variable(Variable<'t>),
    /// A function, defined or declared.
    Function(FunctionSource<'t>),
    /// A group of attributes, as its tokens.
    Attributes(Kept),
    /// Metadata, as its tokens.
    Metadata(Kept),
}
