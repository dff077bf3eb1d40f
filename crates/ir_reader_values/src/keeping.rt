// What is kept at the head of a function.

ghost use Rattle.std.specs.Prelude.{◌≡◌, ◌++◌, map};
ghost use Rattle.text_forms.specs.Gives.{Gives, left};
ghost use Rattle.text_forms.specs.Kept.{attachments};
ghost use Rattle.text_forms.specs.LeftOut.{left_out_words};
ghost use Rattle.text_forms.specs.Machine.{behind};
ghost use Rattle.text_forms.specs.Nested.{joined};
ghost use Rattle.text_forms.specs.Reading.{read};
ghost use Rattle.ir_types.specs.Words.{excluded_words, kept};

use ir_types::Kept;
use kept_runs::{keep_attachments, keep_run};
use lists::Texts;
use std::alloc::Global;
use text_forms::{Cursor, SyntaxFault, left_out_words};

// The words of the language that no kept run has outside parentheses.
static LANGUAGE_WORDS: [&[u8]; 58] = [
    b"align",
    b"cc",
    b"global",
    b"constant",
    b"i1",
    b"i8",
    b"i16",
    b"i32",
    b"i64",
    b"ptr",
    b"void",
    b"true",
    b"false",
    b"null",
    b"poison",
    b"zeroinitializer",
    b"splat",
    b"getelementptr",
    b"source_filename",
    b"target",
    b"declare",
    b"define",
    b"attributes",
    b"add",
    b"sub",
    b"mul",
    b"shl",
    b"udiv",
    b"sdiv",
    b"lshr",
    b"ashr",
    b"urem",
    b"srem",
    b"and",
    b"xor",
    b"or",
    b"icmp",
    b"select",
    b"freeze",
    b"trunc",
    b"zext",
    b"sext",
    b"ptrtoint",
    b"phi",
    b"getelementptr",
    b"load",
    b"store",
    b"call",
    b"tail",
    b"musttail",
    b"notail",
    b"extractelement",
    b"insertelement",
    b"shufflevector",
    b"br",
    b"switch",
    b"ret",
    b"unreachable",
];

/// The words of the language that no kept run has outside parentheses, but for `align` and `cc`, behind which a number may stand.
#[tactic(auto, unfolding(ir_types::specs::TypeForms::type_words, ir_types::specs::Words::value_words, ir_types::specs::Words::item_words, ir_types::specs::Words::operation_words, ir_types::specs::Words::terminator_words, ir_types::specs::Words::instruction_words, ir_types::specs::Words::excluded_words))]
fn language_words() -> &'static [&'static [u8]]
    ensures { map (λ w. w.now) result.now ++ left_out_words ≡ excluded_words }
{
    &LANGUAGE_WORDS
}

/// Keeps a run without these words and those that are left out of the language.
#[tactic(auto, unfolding(ir_types::specs::Words::kept))]
fn keep_allowed<'t>(
    alloc: Global,
    tokens: Cursor<'t>,
    texts: &mut Texts,
) -> Result<Cursor<'t>, SyntaxFault>
    ensures { Gives (λ rest. (texts.new, left rest)) result (behind texts.old (read kept (left tokens.entry))) }
{
    keep_run(alloc, tokens, language_words(), left_out_words(), texts)
}

/// What a run keeps.
///
/// # Errors
///
/// Where a piece of it is not complete, or there is no room.
pub fn kept<'t>(alloc: Global, tokens: Cursor<'t>) -> Result<(Kept, Cursor<'t>), SyntaxFault>
    ensures { Gives (λ x. (x.0, left x.1)) result (read kept (left tokens.entry)) }
{
    let mut texts = Texts::new(alloc);
    let rest = keep_allowed(alloc, tokens, &mut texts)?;
    Ok((texts, rest))
}

/// What attachments and a run behind them keep.
pub fn kept_before<'t>(alloc: Global, tokens: Cursor<'t>) -> Result<(Kept, Cursor<'t>), SyntaxFault>
    ensures { Gives (λ x. (x.0, left x.1)) result (read (joined attachments kept) (left tokens.entry)) }
{
    let mut texts = Texts::new(alloc);
    let rest = keep_attachments(alloc, tokens, &mut texts)?;
    let rest = keep_allowed(alloc, rest, &mut texts)?;
    Ok((texts, rest))
}

/// What a run and attachments behind it keep.
pub fn kept_behind<'t>(alloc: Global, tokens: Cursor<'t>) -> Result<(Kept, Cursor<'t>), SyntaxFault>
    ensures { Gives (λ x. (x.0, left x.1)) result (read (joined kept attachments) (left tokens.entry)) }
{
    let mut texts = Texts::new(alloc);
    let rest = keep_allowed(alloc, tokens, &mut texts)?;
    let rest = keep_attachments(alloc, rest, &mut texts)?;
    Ok((texts, rest))
}
