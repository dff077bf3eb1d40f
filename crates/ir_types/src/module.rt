// Modules, their functions and blocks.

use crate::{Extent, Inst, MemTy, Name, Names, Ty, TypeId, TypeName, ValueId};
use lists::{Items, Texts};

/// Tokens that are kept as they stand in the text, as their bytes.
pub type Kept = Texts;

/// The place of a function in its module's list of functions.
#[derive(Clone, Copy, PartialEq, Eq, Debug, Default)]
pub struct FuncId(pub u32);

/// A basic block, which ends with its one terminator.
#[derive(Debug, Drop)]
pub struct Block {
    /// Its label.
    pub name: ValueId,
    /// Its instructions, the terminator last.
    pub insts: Items<Inst>,
}

/// A parameter of a function.
#[derive(Debug, Drop)]
pub struct Param {
    /// Its type.
    pub ty: Ty,
    /// The tokens that are kept between its type and its name.
    pub kept: Kept,
    /// Its name.
    pub name: ValueId,
}

/// A function, declared where it has no block. A `ValueId` in it is a place in its names; parameters, blocks and values share
/// them.
#[derive(Debug, Drop)]
pub struct Function {
    /// Its global name.
    pub name: Name,
    /// The tokens that are kept before the type of what it returns.
    pub before: Kept,
    /// The type of what it returns.
    pub ret: Ty,
    /// The parameters, in the text's order.
    pub params: Items<Param>,
    /// Whether it takes further arguments behind its parameters'.
    pub varargs: bool,
    /// The tokens that are kept behind its parameters.
    pub after: Kept,
    /// The blocks, the entry first.
    pub body: Items<Block>,
    /// The names of parameters, blocks and values.
    pub names: Names,
}

/// What a symbol stands for.
#[derive(Clone, Copy, PartialEq, Eq, Debug)]
pub enum SymbolKind {
    /// A variable of this type: true where it may be written.
    Variable(TypeId, bool),
    /// A function of the module, defined or declared.
    Function(FuncId),
    /// Nothing: the symbol is used and neither defined nor declared.
    Missing,
}

/// A symbol: a global name.
#[derive(Debug, Drop)]
pub struct Symbol {
    /// The name.
    pub name: Name,
    /// What it stands for.
    pub kind: SymbolKind,
    /// Of a variable the tokens that are kept before `global` or `constant`; none of others.
    pub before: Kept,
    /// Of a variable the tokens that are kept behind its type, the initialiser first; none of others.
    pub after: Kept,
}

/// A module.
#[derive(Debug, Drop)]
pub struct Module {
    /// The lines at its head, and behind them its comdats, each as its tokens.
    pub head: Items<Kept>,
    /// Its memory types: each stands behind those that are parts of it.
    pub types: Items<MemTy>,
    /// How much memory each of these takes.
    pub extents: Items<Extent>,
    /// The names of types: those that are defined, in the text's order, and then those that are only used.
    pub type_names: Items<TypeName>,
    /// The symbols: variables and then functions, each in the text's order, and then those that are only used.
    pub symbols: Items<Symbol>,
    /// The functions, in the text's order.
    pub functions: Items<Function>,
    /// The attribute groups, and behind them the metadata, each as its tokens.
    pub tail: Items<Kept>,
}
