// Lines that are kept whole.

ghost use Rattle.std.specs.Prelude.{codes};
ghost use Rattle.text_forms.specs.Gives.{left};
ghost use Rattle.text_forms.specs.Reading.{read};
ghost use Rattle.ir_types.specs.ItemForms.{equal_string, target_line, attribute_group, comdat, metadata};
ghost use Rattle.ir_reader_items.specs.Lines.{KeepsBehind, GivesPlainly, under, subject, distinct_kept};

use ir_types::Kept;
use kept_runs::{keep, keep_braces, keep_word};
use lists::Texts;
use std::alloc::Global;
use text_forms::{Cursor, SyntaxFault, TokenKind};

/// Keeps `=` and a string.
fn keep_equal_string<'t>(tokens: Cursor<'t>, texts: &mut Texts) -> Result<Cursor<'t>, SyntaxFault>
    ensures { KeepsBehind texts.old texts.new result (read equal_string (left tokens.entry)) }
{
    let rest = keep(tokens, TokenKind::Equal, texts)?;
    keep(rest, TokenKind::Quoted, texts)
}

/// The name of the source, behind its word.
pub fn source_filename<'t>(
    alloc: Global,
    tokens: Cursor<'t>,
) -> Result<(Kept, Cursor<'t>), SyntaxFault>
    ensures { GivesPlainly result (read (under (codes "source_filename") equal_string) (left tokens.entry)) }
{
    let mut texts = Texts::new(alloc);
    texts.push(b"source_filename")?;
    let rest = keep_equal_string(tokens, &mut texts)?;
    Ok((texts, rest))
}

/// Keeps what a line about the target is about.
fn keep_subject<'t>(tokens: Cursor<'t>, texts: &mut Texts) -> Result<Cursor<'t>, SyntaxFault>
    ensures { KeepsBehind texts.old texts.new result (read subject (left tokens.entry)) }
{
    if tokens.behind_word(b"datalayout").is_some() {
        return keep_word(tokens, b"datalayout", texts);
    }
    keep_word(tokens, b"triple", texts)
}

/// A line about the target, behind its word.
#[tactic(auto, unfolding(ir_types::specs::ItemForms::target_line))]
pub fn target<'t>(alloc: Global, tokens: Cursor<'t>) -> Result<(Kept, Cursor<'t>), SyntaxFault>
    ensures { GivesPlainly result (read (under (codes "target") target_line) (left tokens.entry)) }
{
    let mut texts = Texts::new(alloc);
    texts.push(b"target")?;
    let rest = keep_subject(tokens, &mut texts)?;
    let rest = keep_equal_string(rest, &mut texts)?;
    Ok((texts, rest))
}

/// A group of attributes, behind its word.
#[tactic(auto, unfolding(ir_types::specs::ItemForms::attribute_group))]
pub fn attributes<'t>(alloc: Global, tokens: Cursor<'t>) -> Result<(Kept, Cursor<'t>), SyntaxFault>
    ensures { GivesPlainly result (read (under (codes "attributes") attribute_group) (left tokens.entry)) }
{
    let mut texts = Texts::new(alloc);
    texts.push(b"attributes")?;
    let rest = keep(tokens, TokenKind::AttributeGroup, &mut texts)?;
    let rest = keep(rest, TokenKind::Equal, &mut texts)?;
    let rest = keep_braces(alloc, rest, &mut texts)?;
    Ok((texts, rest))
}

/// A comdat.
#[tactic(auto, unfolding(ir_types::specs::ItemForms::comdat))]
pub fn comdat<'t>(alloc: Global, tokens: Cursor<'t>) -> Result<(Kept, Cursor<'t>), SyntaxFault>
    ensures { GivesPlainly result (read comdat (left tokens.entry)) }
{
    let mut texts = Texts::new(alloc);
    let rest = keep(tokens, TokenKind::Comdat, &mut texts)?;
    let rest = keep(rest, TokenKind::Equal, &mut texts)?;
    let rest = keep_word(rest, b"comdat", &mut texts)?;
    let rest = keep(rest, TokenKind::Word, &mut texts)?;
    Ok((texts, rest))
}

/// Keeps the word `distinct`, or nothing.
fn keep_distinct<'t>(tokens: Cursor<'t>, texts: &mut Texts) -> Result<Cursor<'t>, SyntaxFault>
    ensures { KeepsBehind texts.old texts.new result (read distinct_kept (left tokens.entry)) }
{
    if tokens.behind_word(b"distinct").is_some() {
        return keep_word(tokens, b"distinct", texts);
    }
    Ok(tokens)
}

/// Metadata.
#[tactic(auto, unfolding(ir_types::specs::ItemForms::metadata))]
pub fn metadata<'t>(alloc: Global, tokens: Cursor<'t>) -> Result<(Kept, Cursor<'t>), SyntaxFault>
    ensures { GivesPlainly result (read metadata (left tokens.entry)) }
{
    let mut texts = Texts::new(alloc);
    let rest = keep(tokens, TokenKind::Metadata, &mut texts)?;
    let rest = keep(rest, TokenKind::Equal, &mut texts)?;
    let rest = keep_distinct(rest, &mut texts)?;
    let rest = keep(rest, TokenKind::Bang, &mut texts)?;
    let rest = keep_braces(alloc, rest, &mut texts)?;
    Ok((texts, rest))
}
