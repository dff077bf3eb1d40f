// The words of instructions.

ghost use Rattle.std.specs.Prelude.{◌≡◌};
ghost use Rattle.text_forms.specs.Form.{entry};
ghost use Rattle.ir_types.specs.Words.{operation_words, terminator_words};

use ir_types::{BinOp, Operation, TailKind, Terminator};
use text_forms::find;

static OPERATIONS: [(&[u8], Operation); 31] = [
    (b"add", Operation::Overflowing(BinOp::Add)),
    (b"sub", Operation::Overflowing(BinOp::Sub)),
    (b"mul", Operation::Overflowing(BinOp::Mul)),
    (b"shl", Operation::Overflowing(BinOp::Shl)),
    (b"udiv", Operation::PossiblyExact(BinOp::UDiv)),
    (b"sdiv", Operation::PossiblyExact(BinOp::SDiv)),
    (b"lshr", Operation::PossiblyExact(BinOp::LShr)),
    (b"ashr", Operation::PossiblyExact(BinOp::AShr)),
    (b"urem", Operation::Plain(BinOp::URem)),
    (b"srem", Operation::Plain(BinOp::SRem)),
    (b"and", Operation::Plain(BinOp::And)),
    (b"xor", Operation::Plain(BinOp::Xor)),
    (b"or", Operation::Or),
    (b"icmp", Operation::Icmp),
    (b"select", Operation::Select),
    (b"freeze", Operation::Freeze),
    (b"trunc", Operation::Trunc),
    (b"zext", Operation::Zext),
    (b"sext", Operation::Sext),
    (b"ptrtoint", Operation::PtrToInt),
    (b"phi", Operation::Phi),
    (b"getelementptr", Operation::GetElementPtr),
    (b"load", Operation::Load),
    (b"store", Operation::Store),
    (b"call", Operation::Call(TailKind::Unmarked)),
    (b"tail", Operation::Call(TailKind::Tail)),
    (b"musttail", Operation::Call(TailKind::MustTail)),
    (b"notail", Operation::Call(TailKind::NoTail)),
    (b"extractelement", Operation::ExtractElement),
    (b"insertelement", Operation::InsertElement),
    (b"shufflevector", Operation::ShuffleVector),
];

static TERMINATORS: [(&[u8], Terminator); 3] = [
    (b"br", Terminator::Br),
    (b"switch", Terminator::Switch),
    (b"ret", Terminator::Ret),
];

/// What the word begins, of the instructions that don't end a block.
#[tactic(auto, unfolding(ir_types::specs::Words::operation_words))]
pub fn operation_of(word: &[u8]) -> Option<Operation>
    ensures { result ≡ entry operation_words word.now }
{
    find(&OPERATIONS, word)
}

/// The terminator that the word begins, of those that have more behind their word.
#[tactic(auto, unfolding(ir_types::specs::Words::terminator_words))]
pub fn terminator_of(word: &[u8]) -> Option<Terminator>
    ensures { result ≡ entry terminator_words word.now }
{
    find(&TERMINATORS, word)
}
