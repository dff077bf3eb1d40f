// The words of predicates.

ghost use Rattle.std.specs.Prelude.{◌≡◌};
ghost use Rattle.text_forms.specs.Form.{entry};
ghost use Rattle.ir_types.specs.InstForms.{predicates};

use ir_types::Pred;
use text_forms::find;

static PREDICATES: [(&[u8], Pred); 10] = [
    (b"eq", Pred::Eq),
    (b"ne", Pred::Ne),
    (b"ugt", Pred::Ugt),
    (b"uge", Pred::Uge),
    (b"ult", Pred::Ult),
    (b"ule", Pred::Ule),
    (b"sgt", Pred::Sgt),
    (b"sge", Pred::Sge),
    (b"slt", Pred::Slt),
    (b"sle", Pred::Sle),
];

/// The predicate of the word.
#[tactic(auto, unfolding(ir_types::specs::InstForms::predicates))]
pub fn predicate_of(word: &[u8]) -> Option<Pred>
    ensures { result ≡ entry predicates word.now }
{
    find(&PREDICATES, word)
}
