// The types of parameters, as a call may write them.

ghost use Rattle.std.specs.Prelude.{◌≡◌};
ghost use Rattle.text_forms.specs.declared.TokenKind.TheVariants.{Comma, Dots};
ghost use Rattle.text_forms.specs.Form.{mapped, pair, optional};
ghost use Rattle.text_forms.specs.Reading.{read, opens};
ghost use Rattle.text_forms.specs.Gives.{Gives, left, mark};
ghost use Rattle.text_forms.specs.Combined.{commas, marked};
ghost use Rattle.ir_types.specs.TypeForms.{value_type};
ghost use Rattle.ir_types.specs.InstParts.{dotted, dotted_list};
ghost use Rattle.ir_types.specs.InstForms.{signature};

use crate::dots::comma_dots;
use ir_reader_types::{begins_type, value_type};
use ir_types::{Signature, Ty};
use lists::Items;
use std::alloc::Global;
use text_forms::{Cursor, SyntaxFault, TokenKind};

/// A type behind a comma.
fn comma_type<'t>(tokens: Cursor<'t>) -> Result<(Ty, Cursor<'t>), SyntaxFault>
    ensures { Gives (λ x. (x.0, left x.1)) result (read (marked Comma value_type) (left tokens.entry)) }
{
    let rest = tokens.mark(TokenKind::Comma)?;
    let (ty, rest) = value_type(rest)?;
    Ok((ty, rest))
}

/// Whether a comma and a type stand next.
#[tactic(auto, unfolding(ir_types::specs::TypeForms::value_type, ir_types::specs::TypeForms::vector_type, ir_types::specs::TypeForms::width))]
fn another(tokens: Cursor<'_>) -> bool
    ensures { result ≡ opens (marked Comma value_type) (left tokens.entry) }
{
    match tokens.split_first() {
        Some((TokenKind::Comma, _, rest)) => begins_type(rest),
        _ => false,
    }
}

/// Types, at least one, parted by commas.
fn types<'t>(alloc: Global, tokens: Cursor<'t>) -> Result<(Vec<Ty>, Cursor<'t>), SyntaxFault>
    ensures { Gives (λ x. (x.0.items, left x.1)) result (read (commas value_type) (left tokens.entry)) }
{
    let (first, mut rest) = value_type(tokens)?;
    let mut types = Vec::new(alloc);
    types.push(first)?;
    'more: while another(rest) {
        let (next, after) = comma_type(rest)?;
        types.push(next)?;
        rest = after;
    }
    Ok((types, rest))
}

/// The same, and whether dots stand behind them.
fn some_types<'t>(
    alloc: Global,
    tokens: Cursor<'t>,
) -> Result<((Items<Ty>, bool), Cursor<'t>), SyntaxFault>
    ensures { Gives (λ x. (x.0, left x.1)) result (read (mapped dotted (pair (commas value_type) (optional (marked Comma (mark Dots))))) (left tokens.entry)) }
{
    let (types, rest) = types(alloc, tokens)?;
    let (dots, rest) = comma_dots(rest)?;
    Ok(((Items::from_vec(types), dots), rest))
}

/// Types, which may be none, and whether dots stand behind them or in their place.
#[tactic(auto, unfolding(ir_types::specs::TypeForms::value_type, ir_types::specs::TypeForms::vector_type, ir_types::specs::TypeForms::width))]
fn dotted_types<'t>(
    alloc: Global,
    tokens: Cursor<'t>,
) -> Result<((Items<Ty>, bool), Cursor<'t>), SyntaxFault>
    ensures { Gives (λ x. (x.0, left x.1)) result (read (dotted_list value_type) (left tokens.entry)) }
{
    if tokens.is_next(TokenKind::Dots) {
        let rest = tokens.mark(TokenKind::Dots)?;
        return Ok(((Items::from_vec(Vec::new(alloc)), true), rest));
    }
    if begins_type(tokens) {
        let (types, rest) = some_types(alloc, tokens)?;
        return Ok((types, rest));
    }
    Ok(((Items::from_vec(Vec::new(alloc)), false), tokens))
}

/// [( T, .. [, ...] )].
#[tactic(auto, unfolding(ir_types::specs::InstForms::signature))]
pub fn signature<'t>(
    alloc: Global,
    tokens: Cursor<'t>,
) -> Result<(Option<Signature>, Cursor<'t>), SyntaxFault>
    ensures { Gives (λ x. (x.0, left x.1)) result (read (optional signature) (left tokens.entry)) }
{
    if !tokens.is_next(TokenKind::LeftParen) {
        return Ok((None, tokens));
    }
    let rest = tokens.mark(TokenKind::LeftParen)?;
    let ((params, varargs), rest) = dotted_types(alloc, rest)?;
    let rest = rest.mark(TokenKind::RightParen)?;
    Ok((Some(Signature { params, varargs }), rest))
}
