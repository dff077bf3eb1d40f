// Items of every kind.

ghost use Rattle.std.specs.Prelude.{◌≡◌, ◌∷◌, [], ℕ};
ghost use Rattle.text_forms.specs.declared.TokenKind.TheVariants.{Equal};
ghost use Rattle.text_forms.specs.Form.{by_word, mapped};
ghost use Rattle.text_forms.specs.Gives.{left};
ghost use Rattle.text_forms.specs.Reading.{read, opens, next_in, mark_then, any_of};
ghost use Rattle.ir_types.specs.Tree.{comdat_line, metadata_line};
ghost use Rattle.ir_types.specs.TypeForms.{memory_type};
ghost use Rattle.ir_types.specs.Words.{item_words};
ghost use Rattle.ir_types.specs.ItemForms.{comdat, metadata};
ghost use Rattle.ir_types.specs.Skimmed.{as_it_is, skimmed_behind, skimmed_item};
ghost use Rattle.ir_reader_items.specs.Parts.{GivesItem, GivesItemOf};

use crate::definition::definition;
use crate::lines::{attributes, comdat, metadata, source_filename, target};
use crate::part::Part;
use crate::passing::function_source;
use crate::variable::variable;
use crate::words::item_word;
use ir_types::ItemWord;
use std::alloc::Global;
use text_forms::{Cursor, SyntaxFault, TokenKind};

/// Whether a token of this kind and `=` are next.
fn begins_named(tokens: Cursor<'_>, kind: TokenKind) -> bool
    ensures { result ≡ next_in (mark_then kind (any_of Equal) ∷ []) (left tokens.entry) }
{
    match tokens.split_first() {
        Some((found, _, rest)) => found == kind && rest.is_next(TokenKind::Equal),
        None => false,
    }
}

/// Whether an item that begins with a word is next.
#[tactic(auto, using(crate::proofs::Branches::word_begins))]
fn begins_with_word(tokens: Cursor<'_>) -> bool
    ensures { result ≡ opens (by_word item_words skimmed_behind) (left tokens.entry) }
{
    match tokens.split_first() {
        Some((TokenKind::Word, word, _)) => item_word(word).is_some(),
        _ => false,
    }
}

/// Whether an item is next.
#[tactic(auto, using(crate::proofs::Branches::opens_item))]
pub fn begins_item(tokens: Cursor<'_>) -> bool
    ensures { (d : ℕ) → result ≡ opens (skimmed_item (memory_type d)) (left tokens.entry) }
{
    begins_with_word(tokens)
        || begins_named(tokens, TokenKind::Comdat)
        || begins_named(tokens, TokenKind::Metadata)
        || begins_named(tokens, TokenKind::Local)
        || begins_named(tokens, TokenKind::Global)
}

/// What is behind the word of an item.
#[tactic(auto, unfolding(ir_types::specs::ItemForms::target_line, ir_types::specs::ItemForms::attribute_group))]
fn behind_word<'t>(
    alloc: Global,
    tokens: Cursor<'t>,
    word: ItemWord,
) -> Result<(Part<'t>, Cursor<'t>), SyntaxFault>
    ensures { GivesItem result (read (skimmed_behind word) (left tokens.entry)) }
{
    match word {
        ItemWord::SourceFilename => {
            let (kept, rest) = source_filename(alloc, tokens)?;
            Ok((Part::Head(kept), rest))
        }
        ItemWord::Target => {
            let (kept, rest) = target(alloc, tokens)?;
            Ok((Part::Head(kept), rest))
        }
        ItemWord::Declare => {
            let (source, rest) = function_source(alloc, tokens, false)?;
            Ok((Part::Function(source), rest))
        }
        ItemWord::Define => {
            let (source, rest) = function_source(alloc, tokens, true)?;
            Ok((Part::Function(source), rest))
        }
        ItemWord::Attributes => {
            let (kept, rest) = attributes(alloc, tokens)?;
            Ok((Part::Attributes(kept), rest))
        }
    }
}

/// An item that begins with a word.
fn with_word<'t>(alloc: Global, tokens: Cursor<'t>) -> Result<(Part<'t>, Cursor<'t>), SyntaxFault>
    ensures { GivesItem result (read (by_word item_words skimmed_behind) (left tokens.entry)) }
{
    let (text, rest) = tokens.one(TokenKind::Word)?;
    match item_word(text) {
        Some(word) => behind_word(alloc, rest, word),
        None => Err(tokens.refusal()),
    }
}

/// A comdat.
fn comdat_item<'t>(alloc: Global, tokens: Cursor<'t>) -> Result<(Part<'t>, Cursor<'t>), SyntaxFault>
    ensures { GivesItem result (read (mapped as_it_is (mapped comdat_line comdat)) (left tokens.entry)) }
{
    let (kept, rest) = comdat(alloc, tokens)?;
    Ok((Part::Comdat(kept), rest))
}

/// Metadata.
fn metadata_item<'t>(
    alloc: Global,
    tokens: Cursor<'t>,
) -> Result<(Part<'t>, Cursor<'t>), SyntaxFault>
    ensures { GivesItem result (read (mapped as_it_is (mapped metadata_line metadata)) (left tokens.entry)) }
{
    let (kept, rest) = metadata(alloc, tokens)?;
    Ok((Part::Metadata(kept), rest))
}

/// An item.
///
/// # Errors
///
/// Where none stands next, with the place at which reading from left to right stops, or there is no room.
pub fn item<'t>(alloc: Global, tokens: Cursor<'t>) -> Result<(Part<'t>, Cursor<'t>), SyntaxFault>
    ensures { GivesItemOf skimmed_item (left tokens.entry) result }
{
    if begins_with_word(tokens) {
        return with_word(alloc, tokens);
    }
    if begins_named(tokens, TokenKind::Comdat) {
        return comdat_item(alloc, tokens);
    }
    if begins_named(tokens, TokenKind::Metadata) {
        return metadata_item(alloc, tokens);
    }
    if begins_named(tokens, TokenKind::Local) {
        return definition(alloc, tokens);
    }
    variable(alloc, tokens)
}
