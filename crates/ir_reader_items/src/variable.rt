// Variables.

ghost use Rattle.text_forms.specs.Form.{mapped};
ghost use Rattle.text_forms.specs.Gives.{left};
ghost use Rattle.text_forms.specs.Reading.{read};
ghost use Rattle.ir_types.specs.ItemForms.{variable_word, variable_definition};
ghost use Rattle.ir_types.specs.Skimmed.{as_it_is};
ghost use Rattle.ir_reader_items.specs.Parts.{GivesItem, GivesItemOf};
ghost use Rattle.ir_reader_items.specs.Lines.{GivesPlainly};
ghost use Rattle.ir_reader_items.specs.Typed.{variable_read};

use crate::extras::kept_behind_type;
use crate::part::{Part, Variable};
use crate::passing::type_source;
use ir_reader_types::name_behind;
use ir_reader_values::kept;
use std::alloc::Global;
use text_forms::{Cursor, SyntaxFault, TokenKind};

/// `global` or `constant`: whether the variable may be written.
#[tactic(auto, unfolding(ir_types::specs::ItemForms::variable_word))]
fn writable<'t>(tokens: Cursor<'t>) -> Result<(bool, Cursor<'t>), SyntaxFault>
    ensures { GivesPlainly result (read variable_word (left tokens.entry)) }
{
    match tokens.behind_word(b"global") {
        Some(rest) => Ok((true, rest)),
        None => {
            let rest = tokens.word(b"constant")?;
            Ok((false, rest))
        }
    }
}

/// The parts of a variable.
fn parts<'t>(alloc: Global, tokens: Cursor<'t>) -> Result<(Part<'t>, Cursor<'t>), SyntaxFault>
    ensures { GivesItem result (variable_read (left tokens.entry)) }
{
    let (token, rest) = tokens.one(TokenKind::Global)?;
    let rest = rest.mark(TokenKind::Equal)?;
    let (before, rest) = kept(alloc, rest)?;
    let (writable, rest) = writable(rest)?;
    let (ty, rest) = type_source(alloc, rest)?;
    let (after, rest) = kept_behind_type(alloc, rest)?;
    let Some(name) = name_behind(alloc, token)? else {
        return Err(tokens.refusal());
    };
    let variable = Variable {
        name,
        before,
        writable,
        ty,
        after,
    };
    Ok((Part::Variable(variable), rest))
}

/// A variable.
pub fn variable<'t>(
    alloc: Global,
    tokens: Cursor<'t>,
) -> Result<(Part<'t>, Cursor<'t>), SyntaxFault>
    ensures { GivesItemOf (λ m. mapped as_it_is (variable_definition m)) (left tokens.entry) result }
{
    parts(alloc, tokens)
}
