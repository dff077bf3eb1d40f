// The words with which instructions and items begin.

use crate::{BinOp, TailKind};

/// The words of instructions that don't end a block.
#[derive(Clone, Copy, Debug, PartialEq, Eq)]
pub enum Operation {
    /// `add`, `sub`, `mul` or `shl`, which may have `nuw` and `nsw`.
    Overflowing(BinOp),
    /// `udiv`, `sdiv`, `lshr` or `ashr`, which may have `exact`.
    PossiblyExact(BinOp),
    /// `urem`, `srem`, `and` or `xor`.
    Plain(BinOp),
    /// `or`, which may have `disjoint`.
    Or,
    /// `icmp`: a comparison of integers or pointers.
    Icmp,
    /// `select`: one of two values.
    Select,
    /// `freeze`: a value that isn't poison.
    Freeze,
    /// `trunc`: fewer bits.
    Trunc,
    /// `zext`: more bits, zeros.
    Zext,
    /// `sext`: more bits, the sign's.
    Sext,
    /// `ptrtoint`: a pointer's address.
    PtrToInt,
    /// `phi`: a value that depends on the block before.
    Phi,
    /// `getelementptr`: a pointer behind another.
    GetElementPtr,
    /// `load`: what lies in memory.
    Load,
    /// `store`: into memory.
    Store,
    /// `call`, or a word that stands before it.
    Call(TailKind),
    /// `extractelement`: a lane of a vector.
    ExtractElement,
    /// `insertelement`: a vector with another lane.
    InsertElement,
    /// `shufflevector`: lanes of two vectors.
    ShuffleVector,
}

/// The words of terminators behind which more stands.
#[derive(Clone, Copy, Debug, PartialEq, Eq)]
pub enum Terminator {
    /// `br`: on to a block, or to one of two.
    Br,
    /// `switch`: on to one of several blocks.
    Switch,
    /// `ret`: back to the caller.
    Ret,
}

/// The words of items.
#[derive(Clone, Copy, Debug, PartialEq, Eq)]
pub enum ItemWord {
    /// `source_filename`: the name of the source.
    SourceFilename,
    /// `target`: a line about the target.
    Target,
    /// `declare`: a function without its blocks.
    Declare,
    /// `define`: a function with its blocks.
    Define,
    /// `attributes`: a group of attributes.
    Attributes,
}

/// What may stand behind a variable's initialiser, each behind a comma.
#[derive(Clone, Copy, Debug, PartialEq, Eq)]
pub enum Extra {
    /// `section` and a string.
    Section,
    /// `comdat`, and a comdat's name in parentheses or none.
    Comdat,
    /// `align` and a number.
    Alignment,
    /// An attachment of metadata.
    Attachment,
}
