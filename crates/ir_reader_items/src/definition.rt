// Definitions of names of types.

ghost use Rattle.text_forms.specs.Form.{mapped};
ghost use Rattle.text_forms.specs.Gives.{left};
ghost use Rattle.ir_types.specs.ItemForms.{type_definition};
ghost use Rattle.ir_types.specs.Skimmed.{as_it_is};
ghost use Rattle.ir_reader_items.specs.Parts.{GivesItem, GivesItemOf};
ghost use Rattle.ir_reader_items.specs.Typed.{definition_read};

use crate::part::{Definition, Part};
use crate::passing::defined;
use ir_reader_types::name_behind;
use std::alloc::Global;
use text_forms::{Cursor, SyntaxFault, TokenKind};

/// The parts of a definition.
fn parts<'t>(alloc: Global, tokens: Cursor<'t>) -> Result<(Part<'t>, Cursor<'t>), SyntaxFault>
    ensures { GivesItem result (definition_read (left tokens.entry)) }
{
    let (token, rest) = tokens.one(TokenKind::Local)?;
    let rest = rest.mark(TokenKind::Equal)?;
    let rest = rest.word(b"type")?;
    let (ty, rest) = defined(alloc, rest)?;
    match name_behind(alloc, token)? {
        Some(name) => Ok((Part::Type(Definition { name, ty }), rest)),
        None => Err(tokens.refusal()),
    }
}

/// The definition of a name of a type.
pub fn definition<'t>(
    alloc: Global,
    tokens: Cursor<'t>,
) -> Result<(Part<'t>, Cursor<'t>), SyntaxFault>
    ensures { GivesItemOf (λ m. mapped as_it_is (type_definition m)) (left tokens.entry) result }
{
    parts(alloc, tokens)
}
