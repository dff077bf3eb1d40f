// The words with which instructions begin, with their flags and predicates.

ghost use Rattle.std.specs.Prelude.{◌≡◌, []};
ghost use Rattle.ir_types.specs.Denotes.{Tables, kind_in};
ghost use Rattle.ir_printer_types.specs.Appends.{Prints};
ghost use Rattle.ir_printer.specs.Print.{operator_word, predicate_word, flag_pieces, wrap_pieces, flags_pieces, offset_flags, call_words, opening_pieces};

use ir_types::{BinOp, Flags, InstKind, Pred, TailKind};
use std::alloc::AllocError;

#[tactic(auto, unfolding(crate::specs::Print::operator_word))]
fn word_of_operator(operator: BinOp) -> &'static [u8]
    ensures { result.now ≡ operator_word operator }
{
    match operator {
        BinOp::Add => b"add",
        BinOp::Sub => b"sub",
        BinOp::Mul => b"mul",
        BinOp::Shl => b"shl",
        BinOp::UDiv => b"udiv",
        BinOp::SDiv => b"sdiv",
        BinOp::URem => b"urem",
        BinOp::SRem => b"srem",
        BinOp::LShr => b"lshr",
        BinOp::AShr => b"ashr",
        BinOp::And => b"and",
        BinOp::Or => b"or",
        BinOp::Xor => b"xor",
        BinOp::SMin => b"smin",
        BinOp::SMax => b"smax",
        BinOp::UMin => b"umin",
        BinOp::UMax => b"umax",
    }
}

#[tactic(auto, unfolding(crate::specs::Print::predicate_word))]
fn word_of_predicate(predicate: Pred) -> &'static [u8]
    ensures { result.now ≡ predicate_word predicate }
{
    match predicate {
        Pred::Eq => b"eq",
        Pred::Ne => b"ne",
        Pred::Ugt => b"ugt",
        Pred::Uge => b"uge",
        Pred::Ult => b"ult",
        Pred::Ule => b"ule",
        Pred::Sgt => b"sgt",
        Pred::Sge => b"sge",
        Pred::Slt => b"slt",
        Pred::Sle => b"sle",
    }
}

// Appends a flag behind a space, where it is set.
fn put_flag(out: &mut Vec<u8>, set: bool, word: &[u8]) -> Result<(), AllocError>
    ensures { Prints out.old out.new result (flag_pieces set word.now) }
{
    if set {
        out.push(b' ')?;
        out.extend_from_slice(word)?;
    }
    Ok(())
}

#[tactic(auto, using(ir_printer_types::proofs::Appended::text_of_both, std::proofs::lemmas::Grind::common_steps))]
fn put_wrap_flags(out: &mut Vec<u8>, nuw: bool, nsw: bool) -> Result<(), AllocError>
    ensures { Prints out.old out.new result (wrap_pieces nuw nsw) }
{
    put_flag(out, nuw, b"nuw")?;
    put_flag(out, nsw, b"nsw")
}

#[tactic(auto, using(ir_printer_types::proofs::Appended::text_of_both, std::proofs::lemmas::Grind::common_steps))]
fn put_flags(out: &mut Vec<u8>, flags: Flags) -> Result<(), AllocError>
    ensures { Prints out.old out.new result (flags_pieces flags) }
{
    put_wrap_flags(out, flags.nuw, flags.nsw)?;
    put_flag(out, flags.exact, b"exact")?;
    put_flag(out, flags.disjoint, b"disjoint")
}

fn put_offset_flags(
    out: &mut Vec<u8>,
    inbounds: bool,
    nuw: bool,
    nusw: bool,
) -> Result<(), AllocError>
    ensures { Prints out.old out.new result (offset_flags inbounds nuw nusw) }
{
    put_flag(out, inbounds, b"inbounds")?;
    put_flag(out, nusw, b"nusw")?;
    put_flag(out, nuw, b"nuw")?;
    Ok(())
}

// Appends `call`, and the word before it.
fn put_call_words(out: &mut Vec<u8>, tail: TailKind) -> Result<(), AllocError>
    ensures { Prints out.old out.new result (call_words tail) }
{
    match tail {
        TailKind::Unmarked => out.extend_from_slice(b"call"),
        TailKind::Tail => out.extend_from_slice(b"tail call"),
        TailKind::MustTail => out.extend_from_slice(b"musttail call"),
        TailKind::NoTail => out.extend_from_slice(b"notail call"),
    }
}

/// Appends the word of an instruction, with its flags or its predicate.
pub(crate) fn put_opening(out: &mut Vec<u8>, kind: &InstKind) -> Result<(), AllocError>
    ensures { (tables : Tables) → Prints out.old out.new result
        (opening_pieces (kind_in tables kind.now)) }
{
    match kind {
        InstKind::Binary(operator, flags) => {
            out.extend_from_slice(word_of_operator(*operator))?;
            put_flags(out, *flags)
        }
        InstKind::Compare(predicate, _) => {
            out.extend_from_slice(b"icmp ")?;
            out.extend_from_slice(word_of_predicate(*predicate))
        }
        InstKind::Select(..) => out.extend_from_slice(b"select"),
        InstKind::Freeze => out.extend_from_slice(b"freeze"),
        InstKind::Trunc(_, nuw, nsw) => {
            out.extend_from_slice(b"trunc")?;
            put_wrap_flags(out, *nuw, *nsw)
        }
        InstKind::Zext(_, nneg) => {
            out.extend_from_slice(b"zext")?;
            put_flag(out, *nneg, b"nneg")
        }
        InstKind::Sext(_) => out.extend_from_slice(b"sext"),
        InstKind::PtrToInt => out.extend_from_slice(b"ptrtoint"),
        InstKind::Phi => out.extend_from_slice(b"phi"),
        InstKind::Offset(_, _, inbounds, nuw, nusw) => {
            out.extend_from_slice(b"getelementptr")?;
            put_offset_flags(out, *inbounds, *nuw, *nusw)
        }
        InstKind::Load(_) => out.extend_from_slice(b"load"),
        InstKind::Store(..) => out.extend_from_slice(b"store"),
        InstKind::Call(callee) => put_call_words(out, callee.tail),
        InstKind::Extract(..) => out.extend_from_slice(b"extractelement"),
        InstKind::Insert(..) => out.extend_from_slice(b"insertelement"),
        InstKind::Shuffle(..) => out.extend_from_slice(b"shufflevector"),
        InstKind::Jump | InstKind::Branch => out.extend_from_slice(b"br"),
        InstKind::Switch(..) => out.extend_from_slice(b"switch"),
        InstKind::ReturnVoid | InstKind::Return(_) => out.extend_from_slice(b"ret"),
        InstKind::Unreachable => out.extend_from_slice(b"unreachable"),
    }
}
