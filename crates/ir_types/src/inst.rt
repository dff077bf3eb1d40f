// Instructions, their types and their operands.

use crate::{Callee, Kept, TypeId, ValueId};
use lists::{Few, Items};

/// A first-class type, or `Void` where there is no value.
#[derive(Clone, Copy, Debug, PartialEq, Eq)]
pub enum Ty {
    /// An integer of so many bits: 1, 8, 16, 32 or 64.
    Int(u32),
    /// A pointer.
    Ptr,
    /// A vector: the number of its lanes, a power of two from 2 to 512, and their width in bits.
    Vector(u32, u32),
    /// No value.
    Void,
}

/// A binary operator of integers. (LLVM's Language Reference, "Binary Operations", "Bitwise Binary Operations" and "Standard C/C++ Library Intrinsics".)
#[derive(Clone, Copy, Debug, PartialEq, Eq)]
pub enum BinOp {
    /// `add`: the sum.
    Add,
    /// `sub`: the difference.
    Sub,
    /// `mul`: the product.
    Mul,
    /// `shl`: moved to the left, by so many bits.
    Shl,
    /// `udiv`: the quotient of unsigned numbers.
    UDiv,
    /// `sdiv`: the quotient of signed numbers.
    SDiv,
    /// `urem`: the remainder of unsigned numbers.
    URem,
    /// `srem`: the remainder of signed numbers.
    SRem,
    /// `lshr`: moved to the right, with zeros from the left.
    LShr,
    /// `ashr`: moved to the right, with the sign from the left.
    AShr,
    /// `and`: the bits that both have.
    And,
    /// `or`: the bits that one has.
    Or,
    /// `xor`: the bits that one alone has.
    Xor,
    /// The least of two signed numbers. This one and the three behind it are no words of instructions: calls of names such as `llvm.smin.i32` mean them.
    SMin,
    /// The greatest of two signed numbers.
    SMax,
    /// The least of two unsigned numbers.
    UMin,
    /// The greatest of two unsigned numbers.
    UMax,
}

/// The flags of a binary operator: where one of these is not kept to, the result is poison.
#[derive(Clone, Copy, Debug, PartialEq, Eq)]
pub struct Flags {
    /// `nuw`: no unsigned wrap.
    pub nuw: bool,
    /// `nsw`: no signed wrap.
    pub nsw: bool,
    /// `exact`: no remainder, and no one bit is moved out.
    pub exact: bool,
    /// `disjoint`: no bit is one in both operands.
    pub disjoint: bool,
}

/// A predicate of `icmp`, of the first operand against the second.
#[derive(Clone, Copy, Debug, PartialEq, Eq)]
pub enum Pred {
    /// `eq`: equal.
    Eq,
    /// `ne`: not equal.
    Ne,
    /// `ugt`: greater, as unsigned numbers.
    Ugt,
    /// `uge`: greater or equal, as unsigned numbers.
    Uge,
    /// `ult`: less, as unsigned numbers.
    Ult,
    /// `ule`: less or equal, as unsigned numbers.
    Ule,
    /// `sgt`: greater, as signed numbers.
    Sgt,
    /// `sge`: greater or equal, as signed numbers.
    Sge,
    /// `slt`: less, as signed numbers.
    Slt,
    /// `sle`: less or equal, as signed numbers.
    Sle,
}

/// What an instruction is applied to.
#[derive(Debug, Drop)]
pub enum Operand {
    /// The value of a local name.
    Local(ValueId),
    /// A number, modulo 2^w of its type's width w.
    Int(u64),
    /// The null pointer.
    Null,
    /// Poison, of a vector in each lane.
    Poison,
    /// A vector's constant lanes, each a number modulo 2^w of its element's width w, or none for poison.
    Lanes(Items<Option<u64>>),
    /// A symbol, by its place in the module's list, and so many bytes behind it, modulo 2^64.
    Global(u32, u64),
    /// A constant in which a number is written that is out of its type's range, so that no value is held: of a symbol that is stepped
    /// from by such a number, its place in the module's list. The instruction is `wide`, and no well-formed module has it.
    OutOfRange(Option<u32>),
}

impl Default for Operand {
    fn default() -> Operand {
        Operand::Poison
    }
}

/// The operands of an instruction, in the text's order.
pub type Operands = Few<Operand, 4>;

/// The labels of an instruction, in the text's order.
pub type Labels = Few<ValueId, 2>;

/// What an instruction does. Types that the grammar writes beside the result's type stand here. (LLVM's Language Reference,
/// "Instruction Reference".)
#[derive(Debug, Drop)]
pub enum InstKind {
    /// A binary operator: two operands of the result's type.
    Binary(BinOp, Flags),
    /// `icmp`: two operands of the type held here, and a result of one bit, or of one bit for each lane.
    Compare(Pred, Ty),
    /// `select`: the condition and two arms. The types of the condition and of the last arm; the first arm has the result's.
    Select(Ty, Ty),
    /// `freeze`: one operand of the result's type.
    Freeze,
    /// `trunc`: the operand's type, `nuw` and `nsw`.
    Trunc(Ty, bool, bool),
    /// `zext`: the operand's type and `nneg`.
    Zext(Ty, bool),
    /// `sext`: the operand's type.
    Sext(Ty),
    /// `ptrtoint`: one pointer.
    PtrToInt,
    /// `phi`: an operand and a label for each entry.
    Phi,
    /// `getelementptr`: the memory type that is stepped through, the widths of the indexes, `inbounds`, `nuw` and `nusw`. The operands are the
    /// pointer and the indexes.
    Offset(TypeId, Items<u32>, bool, bool, bool),
    /// `load`: the alignment in bytes. The operand is the pointer.
    Load(u64),
    /// `store`: the value's type and the alignment in bytes. The operands are the value and the pointer.
    Store(Ty, u64),
    /// `call`: what is called, and how. The operands are the arguments.
    Call(Callee),
    /// `extractelement`: the vector's type and the index's width. The operands are the vector and the index.
    Extract(Ty, u32),
    /// `insertelement`: the element's type and the index's width. The operands are the vector, the element and the index.
    Insert(Ty, u32),
    /// `shufflevector`: the types of both vectors and of the mask. The operands are these three.
    Shuffle(Ty, Ty, Ty),
    /// `br label`: one label.
    Jump,
    /// `br i1`: the condition, and the labels for true and for false.
    Branch,
    /// `switch`: the width of the value and the numbers of the cases, modulo 2^width. The labels are the default's and one for each case.
    Switch(u32, Items<u64>),
    /// `ret void`.
    ReturnVoid,
    /// `ret`: the value, of the type held here.
    Return(Ty),
    /// `unreachable`.
    Unreachable,
}

/// An instruction.
#[derive(Debug, Drop)]
pub struct Inst {
    /// What it does.
    pub kind: InstKind,
    /// The result's type, `Void` where there is no result.
    pub ty: Ty,
    /// Its operands.
    pub args: Operands,
    /// Its labels: those of a phi's entries, or where it goes.
    pub labels: Labels,
    /// The name of its result, where it has one.
    pub result: Option<ValueId>,
    /// Whether a number that is written in it is out of its type's range: an operand, a lane or an index in an operand, or a case of a
    /// `switch`. (An alignment of 2^64 or more is held as 2^64 - 1, which is no alignment either.)
    pub wide: bool,
    /// The attachments behind it, each behind its comma.
    pub kept: Kept,
}
