// Which name is which intrinsic.

ghost use Rattle.std.specs.Prelude.{◌≡◌, map, filter_map};
ghost use Rattle.std.specs.Option.{option_map};
ghost use Rattle.ir_types.specs.declared.name.Name.TheVariants.{Text as TextName};
ghost use Rattle.ir_intrinsics.specs.Intrinsics.{first, in_family, meant_by};
ghost use Rattle.ir_intrinsics.specs.Means.{meant_in, family_in, in_one, behind_llvm};

use crate::written::{behind_front, type_written, vector_before};
use ir_types::{BinOp, Name, Ty};
use text_forms::is_one_of;

/// A function that has a meaning by its name. (LLVM's Language Reference, "Intrinsic Functions".)
#[derive(Clone, Copy, Debug, PartialEq, Eq)]
pub enum Intrinsic {
    /// The least or the greatest of two numbers of this type, signed or unsigned, which is this operator of them; of vectors lane by lane.
    MinimumMaximum(BinOp, Ty),
    /// One number from all lanes of a vector of this type, by this operator.
    Reduction(BinOp, Ty),
    /// A load of a vector of this type, of the lanes that a mask has.
    MaskedLoad(Ty),
    /// A store of such a vector.
    MaskedStore(Ty),
    /// Where a variable's life begins or ends.
    Lifetime,
}

// The intrinsics whose names go on with a type alike.
#[derive(Clone, Copy, Debug, PartialEq, Eq)]
enum Family {
    // This operator of two numbers, or of vectors of them.
    MinimumMaximum(BinOp),
    // This operator of the lanes of a vector.
    Reduction(BinOp),
    MaskedLoad,
    MaskedStore,
    Lifetime,
}

// How their names go on behind `llvm.`.
static FAMILIES: [(&[u8], Family); 17] = [
    (b"smin.", Family::MinimumMaximum(BinOp::SMin)),
    (b"smax.", Family::MinimumMaximum(BinOp::SMax)),
    (b"umin.", Family::MinimumMaximum(BinOp::UMin)),
    (b"umax.", Family::MinimumMaximum(BinOp::UMax)),
    (b"vector.reduce.add.", Family::Reduction(BinOp::Add)),
    (b"vector.reduce.mul.", Family::Reduction(BinOp::Mul)),
    (b"vector.reduce.and.", Family::Reduction(BinOp::And)),
    (b"vector.reduce.or.", Family::Reduction(BinOp::Or)),
    (b"vector.reduce.xor.", Family::Reduction(BinOp::Xor)),
    (b"vector.reduce.smin.", Family::Reduction(BinOp::SMin)),
    (b"vector.reduce.smax.", Family::Reduction(BinOp::SMax)),
    (b"vector.reduce.umin.", Family::Reduction(BinOp::UMin)),
    (b"vector.reduce.umax.", Family::Reduction(BinOp::UMax)),
    (b"masked.load.", Family::MaskedLoad),
    (b"masked.store.", Family::MaskedStore),
    (b"lifetime.start.", Family::Lifetime),
    (b"lifetime.end.", Family::Lifetime),
];

// The names of the lifetimes without anything behind them.
static LIFETIMES: [&[u8]; 2] = [b"lifetime.start", b"lifetime.end"];

// The intrinsic of a family whose name goes on so.
fn in_family(family: Family, text: &[u8]) -> Option<Intrinsic>
    ensures { option_map meant_in result ≡ in_family (family_in family) text.now }
{
    match family {
        Family::MinimumMaximum(operator) => {
            Some(Intrinsic::MinimumMaximum(operator, type_written(text)?))
        }
        Family::Reduction(operator) => Some(Intrinsic::Reduction(
            operator,
            vector_before(b"", text)?,
        )),
        Family::MaskedLoad => Some(Intrinsic::MaskedLoad(vector_before(b".p0", text)?)),
        Family::MaskedStore => Some(Intrinsic::MaskedStore(vector_before(b".p0", text)?)),
        Family::Lifetime => Some(Intrinsic::Lifetime),
    }
}

// The same where a name may begin like this family's.
fn begun(front: &[u8], family: Family, text: &[u8]) -> Option<Intrinsic>
    ensures { option_map meant_in result ≡ in_one text.now (front.now, family_in family) }
{
    in_family(family, behind_front(front, text)?)
}

// The intrinsic of the first family whose names go on so.
fn in_families(families: &[(&[u8], Family)], text: &[u8]) -> Option<Intrinsic>
    ensures { option_map meant_in result ≡ first (filter_map (in_one text.now) (map (λ e. (e.0.now, family_in e.1)) families.now)) }
{
    for (front, family) in families {
        if let Some(intrinsic) = begun(front, *family, text) {
            return Some(intrinsic);
        }
    }
    None
}

// The intrinsic whose name goes on so behind `llvm.`.
#[tactic(auto, unfolding(crate::specs::Means::short_families, crate::specs::Means::short_lifetimes))]
fn behind_llvm(text: &[u8]) -> Option<Intrinsic>
    ensures { option_map meant_in result ≡ behind_llvm text.now }
{
    if is_one_of(&LIFETIMES, text) {
        return Some(Intrinsic::Lifetime);
    }
    in_families(&FAMILIES, text)
}

// The intrinsic of a text.
#[tactic(auto, using(crate::proofs::Fronts::llvm_first))]
fn meant_by_text(text: &[u8]) -> Option<Intrinsic>
    ensures { option_map meant_in result ≡ meant_by (TextName text.now) }
{
    match behind_front(b"llvm.", text) {
        Some(rest) => behind_llvm(rest),
        None => None,
    }
}

/// The intrinsic that a name is, with the type that it tells.
pub fn meant_by(name: &Name) -> Option<Intrinsic>
    ensures { option_map meant_in result ≡ meant_by name.now }
{
    match name {
        Name::Text(text) => meant_by_text(text.as_bytes()),
        Name::Number(_) => None,
    }
}
