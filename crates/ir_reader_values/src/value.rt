// Local names, and values as they are written.

ghost use Rattle.std.specs.Prelude.{◌≡◌, Some, true, false, MatchOption, IfSome, IfOk};
ghost use Rattle.text_forms.specs.declared.TokenKind.TheVariants.{Comma};
ghost use Rattle.text_forms.specs.Reading.{read, opens};
ghost use Rattle.text_forms.specs.Gives.{left};
ghost use Rattle.text_forms.specs.Combined.{after_mark};
ghost use Rattle.ir_types.specs.TypeForms.{local_name};
ghost use Rattle.ir_types.specs.ValueForms.{constant_word, value};
ghost use Rattle.ir_reader_values.specs.declared.scope.Scope.{Scope};
ghost use Rattle.ir_reader_values.specs.Seen.{name_seen, Widens, Stays, ReadsAs};
ghost use Rattle.ir_reader_values.specs.View.{written_in, AreIndexed, WrittenUses, IsWordRead};

use crate::constant::{WrittenIndex, constant_offset, symbol};
use crate::lanes::{Lane, lane_in_parens, lane_list};
use crate::scope::Scope;
use ir_reader_types::local;
use ir_types::{Ty, TypeId, ValueId};
use lists::Items;
use std::alloc::Global;
use text_forms::{Cursor, SyntaxFault, TokenKind};

/// A value as it is written.
#[derive(Debug, Drop)]
pub enum Written<'t> {
    Named(ValueId),
    /// The token of a number.
    Digits(&'t [u8]),
    Yes,
    No,
    Null,
    Poison,
    /// `zeroinitializer`.
    Zeros,
    /// One lane for all.
    Splat(Ty, Lane<'t>),
    Lanes(Items<(Ty, Lane<'t>)>),
    /// A symbol, by its place.
    Symbol(u32),
    /// A symbol that is stepped through as a memory type, by indexes.
    Stepped(TypeId, u32, Items<WrittenIndex<'t>>),
}

/// The place of a local name, which is added to the names where it is new.
#[tactic(auto, using(crate::proofs::Widening::names_widen, crate::proofs::Widening::widens_refl))]
pub fn local_id<'t>(
    alloc: Global,
    tokens: Cursor<'t>,
    scope: &mut Scope,
) -> Result<(ValueId, Cursor<'t>), SyntaxFault>
    ensures grows { Widens scope.old scope.new }
    ensures reads { ReadsAs (name_seen scope.new) result local_name tokens.entry }
    ensures stays { Stays name_seen scope.new result }
    ensures tables { scope.new.tables ≡ scope.old.tables }
{
    let (name, rest) = local(alloc, tokens)?;
    let id = scope.names.add(name)?;
    Ok((id, rest))
}

/// A local name behind a comma.
pub fn comma_local<'t>(
    alloc: Global,
    tokens: Cursor<'t>,
    scope: &mut Scope,
) -> Result<(ValueId, Cursor<'t>), SyntaxFault>
    ensures grows { Widens scope.old scope.new }
    ensures reads { ReadsAs (name_seen scope.new) result (after_mark Comma local_name) tokens.entry }
    ensures stays { Stays name_seen scope.new result }
    ensures tables { scope.new.tables ≡ scope.old.tables }
{
    let rest = tokens.mark(TokenKind::Comma)?;
    local_id(alloc, rest, scope)
}

/// A value that is one word, and what is behind it, where such a word stands next.
#[tactic(auto, unfolding(ir_types::specs::ValueForms::constant_word))]
fn constant_word<'t>(tokens: Cursor<'t>) -> Option<(Written<'t>, Cursor<'t>)>
    ensures reads { IsWordRead result tokens.entry }
    ensures uses { IfSome result (λ x. (scope : Scope) → WrittenUses scope (written_in scope x.0) scope) }
{
    if let Some(rest) = tokens.behind_word(b"true") {
        return Some((Written::Yes, rest));
    }
    if let Some(rest) = tokens.behind_word(b"false") {
        return Some((Written::No, rest));
    }
    if let Some(rest) = tokens.behind_word(b"null") {
        return Some((Written::Null, rest));
    }
    if let Some(rest) = tokens.behind_word(b"poison") {
        return Some((Written::Poison, rest));
    }
    let rest = tokens.behind_word(b"zeroinitializer")?;
    Some((Written::Zeros, rest))
}

/// A value as it is written.
#[tactic(auto, unfolding(ir_types::specs::ValueForms::value, ir_types::specs::TypeForms::local_name, ir_types::specs::TypeForms::global_name))]
pub fn written_value<'t>(
    alloc: Global,
    tokens: Cursor<'t>,
    scope: &mut Scope,
) -> Result<(Written<'t>, Cursor<'t>), SyntaxFault>
    ensures grows { Widens scope.old scope.new }
    ensures reads { ReadsAs (written_in scope.new) result value tokens.entry }
    ensures stays { Stays written_in scope.new result }
    ensures indexed { IfOk result (λ x. AreIndexed x.0) }
    ensures uses { IfOk result (λ x. WrittenUses scope.old (written_in scope.new x.0) scope.new) }
{
    if tokens.is_next(TokenKind::Local) {
        let (id, rest) = local_id(alloc, tokens, scope)?;
        return Ok((Written::Named(id), rest));
    }
    if tokens.is_next(TokenKind::Number) {
        let (digits, rest) = tokens.one(TokenKind::Number)?;
        return Ok((Written::Digits(digits), rest));
    }
    if let Some((word, rest)) = constant_word(tokens) {
        return Ok((word, rest));
    }
    if let Some(rest) = tokens.behind_word(b"splat") {
        let ((ty, lane), rest) = lane_in_parens(rest)?;
        return Ok((Written::Splat(ty, lane), rest));
    }
    if tokens.is_next(TokenKind::Less) {
        let (lanes, rest) = lane_list(alloc, tokens)?;
        return Ok((Written::Lanes(lanes), rest));
    }
    if tokens.is_next(TokenKind::Global) {
        let (id, rest) = symbol(alloc, tokens, scope)?;
        return Ok((Written::Symbol(id), rest));
    }
    constant_offset(alloc, tokens, scope)
}
