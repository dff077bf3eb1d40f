//! The types of a module of LLVM's textual IR, and in specs/ what a text says: the tree that it reads as, and the tree that a module
//! denotes.
#![tactic(auto)]

mod call;
mod copied;
mod inst;
mod memory_type;
mod module;
mod name;
mod opcode;

pub use call::{Actual, Callee, Signature, TailKind};
pub use inst::{BinOp, Flags, Inst, InstKind, Labels, Operand, Operands, Pred, Ty};
pub use memory_type::{Extent, MemTy, NamedType, TypeId, TypeName};
pub use module::{Block, FuncId, Function, Kept, Module, Param, Symbol, SymbolKind};
pub use name::{Name, Names, ValueId};
pub use opcode::{Extra, ItemWord, Operation, Terminator};
