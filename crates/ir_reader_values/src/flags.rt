// Flags: words that may stand there once each, in any order.

ghost use Rattle.std.specs.Prelude.{◌≡◌, Some};
ghost use Rattle.text_forms.specs.Reading.{read};
ghost use Rattle.text_forms.specs.Gives.{left};
ghost use Rattle.ir_types.specs.FlagForms.{one_flag, two_flags, three_flags};

use text_forms::Cursor;

/// Whether the flag stands there, and what is behind it.
#[tactic(auto, using(text_forms::proofs::Tokens::text_is))]
pub fn one_flag<'t>(tokens: Cursor<'t>, flag: &[u8]) -> (bool, Cursor<'t>)
    ensures { read (one_flag flag.now) (left tokens.entry) ≡ Some (result.0, left result.1) }
{
    match tokens.behind_word(flag) {
        Some(rest) => (true, rest),
        None => (false, tokens),
    }
}

/// Whether each of two flags stands there, and what is behind them.
#[tactic(auto, using(text_forms::proofs::Tokens::text_is))]
pub fn two_flags<'t>(tokens: Cursor<'t>, first: &[u8], second: &[u8]) -> ((bool, bool), Cursor<'t>)
    ensures { read (two_flags first.now second.now) (left tokens.entry) ≡ Some (result.0, left result.1) }
{
    if let Some(rest) = tokens.behind_word(first) {
        let (also, rest) = one_flag(rest, second);
        return ((true, also), rest);
    }
    if let Some(rest) = tokens.behind_word(second) {
        let (also, rest) = one_flag(rest, first);
        return ((also, true), rest);
    }
    ((false, false), tokens)
}

/// Whether `inbounds`, `nuw` and `nusw` stand there, and what is behind them.
#[tactic(auto, unfolding(ir_types::specs::FlagForms::three_flags))]
pub fn three_flags<'t>(tokens: Cursor<'t>) -> ((bool, (bool, bool)), Cursor<'t>)
    ensures { read three_flags (left tokens.entry) ≡ Some (result.0, left result.1) }
{
    if let Some(rest) = tokens.behind_word(b"inbounds") {
        let (others, rest) = two_flags(rest, b"nuw", b"nusw");
        return ((true, others), rest);
    }
    if let Some(rest) = tokens.behind_word(b"nuw") {
        let ((inbounds, nusw), rest) = two_flags(rest, b"inbounds", b"nusw");
        return ((inbounds, (true, nusw)), rest);
    }
    if let Some(rest) = tokens.behind_word(b"nusw") {
        let ((inbounds, nuw), rest) = two_flags(rest, b"inbounds", b"nuw");
        return ((inbounds, (nuw, true)), rest);
    }
    ((false, (false, false)), tokens)
}
