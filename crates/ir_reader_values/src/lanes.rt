// Constant lanes of vectors, as they are written.

ghost use Rattle.std.specs.Prelude.{◌≡◌};
ghost use Rattle.text_forms.specs.declared.TokenKind.TheVariants.{Comma, LeftParen, RightParen, Less, Greater};
ghost use Rattle.text_forms.specs.Reading.{read, opens};
ghost use Rattle.text_forms.specs.Gives.{Gives, left};
ghost use Rattle.text_forms.specs.Combined.{commas, marked, between};
ghost use Rattle.ir_types.specs.ValueForms.{lane, typed_lane};
ghost use Rattle.ir_reader_values.specs.View.{lane_in, typed_lane_in, lanes_in};
ghost use Rattle.ir_reader_values.specs.Seen.{ReadsAs};

use ir_reader_types::{begins_type, value_type};
use ir_types::Ty;
use lists::Items;
use std::alloc::Global;
use text_forms::{Cursor, SyntaxFault, TokenKind};

/// A constant lane as it is written.
#[derive(Clone, Copy, Debug)]
pub enum Lane<'t> {
    /// The token of a number.
    Digits(&'t [u8]),
    Yes,
    No,
    Poison,
}

/// number | true | false | poison.
#[tactic(auto, unfolding(ir_types::specs::ValueForms::lane))]
fn written_lane<'t>(tokens: Cursor<'t>) -> Result<(Lane<'t>, Cursor<'t>), SyntaxFault>
    ensures { ReadsAs lane_in result lane tokens.entry }
{
    if tokens.is_next(TokenKind::Number) {
        let (digits, rest) = tokens.one(TokenKind::Number)?;
        return Ok((Lane::Digits(digits), rest));
    }
    if let Some(rest) = tokens.behind_word(b"true") {
        return Ok((Lane::Yes, rest));
    }
    if let Some(rest) = tokens.behind_word(b"false") {
        return Ok((Lane::No, rest));
    }
    let rest = tokens.word(b"poison")?;
    Ok((Lane::Poison, rest))
}

/// T V of a lane.
#[tactic(auto, unfolding(ir_types::specs::ValueForms::typed_lane))]
fn typed_lane<'t>(tokens: Cursor<'t>) -> Result<((Ty, Lane<'t>), Cursor<'t>), SyntaxFault>
    ensures { ReadsAs typed_lane_in result typed_lane tokens.entry }
{
    let (ty, rest) = value_type(tokens)?;
    let (lane, rest) = written_lane(rest)?;
    Ok(((ty, lane), rest))
}

/// A lane behind a comma.
fn comma_lane<'t>(tokens: Cursor<'t>) -> Result<((Ty, Lane<'t>), Cursor<'t>), SyntaxFault>
    ensures { ReadsAs typed_lane_in result (marked Comma typed_lane) tokens.entry }
{
    let rest = tokens.mark(TokenKind::Comma)?;
    typed_lane(rest)
}

/// Whether a comma and a lane stand next.
#[tactic(auto, unfolding(ir_types::specs::ValueForms::typed_lane, ir_types::specs::TypeForms::value_type, ir_types::specs::TypeForms::vector_type, ir_types::specs::TypeForms::width))]
fn another(tokens: Cursor<'_>) -> bool
    ensures { result ≡ opens (marked Comma typed_lane) (left tokens.entry) }
{
    match tokens.split_first() {
        Some((TokenKind::Comma, _, rest)) => begins_type(rest),
        _ => false,
    }
}

/// The lanes, at least one, parted by commas.
fn some_lanes<'t>(
    alloc: Global,
    tokens: Cursor<'t>,
) -> Result<(Vec<(Ty, Lane<'t>)>, Cursor<'t>), SyntaxFault>
    ensures { Gives (λ x. (lanes_in x.0.items, left x.1)) result (read (commas typed_lane) (left tokens.entry)) }
{
    let (first, mut rest) = typed_lane(tokens)?;
    let mut lanes = Vec::new(alloc);
    lanes.push(first)?;
    'more: while another(rest) {
        let (next, after) = comma_lane(rest)?;
        lanes.push(next)?;
        rest = after;
    }
    Ok((lanes, rest))
}

/// < T V, .. >.
pub fn lane_list<'t>(
    alloc: Global,
    tokens: Cursor<'t>,
) -> Result<(Items<(Ty, Lane<'t>)>, Cursor<'t>), SyntaxFault>
    ensures { ReadsAs lanes_in result (between Less Greater (commas typed_lane)) tokens.entry }
{
    let rest = tokens.mark(TokenKind::Less)?;
    let (lanes, rest) = some_lanes(alloc, rest)?;
    let rest = rest.mark(TokenKind::Greater)?;
    Ok((Items::from_vec(lanes), rest))
}

/// ( T V ).
pub fn lane_in_parens<'t>(tokens: Cursor<'t>) -> Result<((Ty, Lane<'t>), Cursor<'t>), SyntaxFault>
    ensures { ReadsAs typed_lane_in result (between LeftParen RightParen typed_lane) tokens.entry }
{
    let rest = tokens.mark(TokenKind::LeftParen)?;
    let (lane, rest) = typed_lane(rest)?;
    let rest = rest.mark(TokenKind::RightParen)?;
    Ok((lane, rest))
}
