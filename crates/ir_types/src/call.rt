// What a call writes beside its arguments' values. (LLVM's Language Reference, "'call' Instruction".)

use crate::{Kept, Name, Ty};
use lists::Items;

/// The word before `call`.
#[derive(Clone, Copy, Debug, PartialEq, Eq)]
pub enum TailKind {
    /// None.
    Unmarked,
    /// `tail`: it may be a tail call.
    Tail,
    /// `musttail`: it has to be one.
    MustTail,
    /// `notail`: it must not be one.
    NoTail,
}

/// The types of a function's parameters, as a call may write them before the function's name.
#[derive(Debug, Drop)]
pub struct Signature {
    /// The types.
    pub params: Items<Ty>,
    /// Whether dots stand behind them.
    pub varargs: bool,
}

/// What a call writes of an argument beside its value.
#[derive(Debug, Drop)]
pub struct Actual {
    /// Its type.
    pub ty: Ty,
    /// The tokens that are kept between its type and its value.
    pub kept: Kept,
}

/// What is called, and how.
#[derive(Debug, Drop)]
pub struct Callee {
    /// The word before `call`.
    pub tail: TailKind,
    /// The tokens that are kept before the type of what is returned.
    pub before: Kept,
    /// The types of the parameters, where they are written.
    pub signature: Option<Signature>,
    /// The function's global name.
    pub name: Name,
    /// The arguments, but for their values.
    pub actuals: Items<Actual>,
    /// The tokens that are kept behind the arguments.
    pub after: Kept,
}
