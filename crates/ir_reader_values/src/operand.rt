// Written values as operands at their types.

ghost use Rattle.std.specs.Prelude.{◌≡◌, ◌≤◌, Some, replicate, map, All, IfOk};
ghost use Rattle.std.specs.List.{list_all};
ghost use Rattle.text_forms.specs.Form.{made};
ghost use Rattle.text_forms.specs.Gives.{Gives};
ghost use Rattle.ir_types.specs.Types.{IsType};
ghost use Rattle.ir_types.specs.Written.{number_at, fits_width};
ghost use Rattle.ir_sizes.specs.Stepping.{index_pair, IsIndex};
ghost use Rattle.ir_types.specs.Offsets.{offset_of};
ghost use Rattle.ir_types.specs.Tree.{lanes as lane_operand, number};
ghost use Rattle.ir_reader_types.specs.Tables.{nodes_there};
ghost use Rattle.ir_types.specs.ValueForms.{width_of, lane_at, lane_fits, is_int, index_of, index_fits, if_in_range, zeros_at, splat_at, lanes_at, operand_at, stepped, value};
ghost use Rattle.ir_reader_values.specs.Operands.{lanes_of_width};
ghost use Rattle.ir_reader_values.specs.declared.scope.Scope.{Scope};
ghost use Rattle.ir_reader_values.specs.Seen.{nodes_seen, symbol_seen, operand_seen, definitions, Widens, Stays, OperandAdds, ReadsAs};
ghost use Rattle.ir_reader_values.specs.View.{lane_in, lanes_in, index_in, HasWidth, lanes_held, written_in, AreIndexed};

use crate::constant::WrittenIndex;
use crate::lanes::Lane;
use crate::numbers::{fits_width, number_at};
use crate::scope::Scope;
use crate::value::{Written, written_value};
use ir_sizes::Index;
use ir_types::{Operand, Ty, TypeId};
use lists::Items;
use std::alloc::{AllocError, Global};
use text_forms::{Cursor, SyntaxFault};

/// The number of a lane of so many bits, none where it is poison.
fn lane_at(width: u32, lane: Lane<'_>) -> Option<u64>
    requires { width ≤ 64 }
    ensures { result ≡ lane_at width (lane_in lane.entry) }
{
    match lane {
        Lane::Digits(digits) => Some(number_at(width, digits)),
        Lane::Yes => Some(1),
        Lane::No => Some(0),
        Lane::Poison => None,
    }
}

/// Whether a lane of so many bits is in range.
fn lane_fits(width: u32, lane: Lane<'_>) -> bool
    requires { width ≤ 64 }
    ensures { result ≡ lane_fits width (lane_in lane.entry) }
{
    match lane {
        Lane::Digits(digits) => fits_width(width, digits),
        Lane::Yes | Lane::No | Lane::Poison => true,
    }
}

/// Whether the type is an integer of so many bits.
fn is_int(width: u32, ty: Ty) -> bool
    ensures { result ≡ is_int width ty }
{
    match ty {
        Ty::Int(bits) => bits == width,
        Ty::Ptr | Ty::Vector(_, _) | Ty::Void => false,
    }
}

/// `zeroinitializer` at a type.
fn zeros_at(alloc: Global, ty: Ty, tokens: Cursor<'_>) -> Result<Items<Option<u64>>, SyntaxFault>
    ensures { Gives (λ held. lane_operand held) result (zeros_at ty) }
{
    match ty {
        Ty::Vector(lanes, _) => {
            let held = vec![in alloc; Some(0); lanes as usize]?;
            Ok(Items::from_vec(held))
        }
        Ty::Int(_) | Ty::Ptr | Ty::Void => Err(tokens.refusal()),
    }
}

/// One lane for all at a type; none are held where it is out of range.
fn splat_at(
    alloc: Global,
    ty: Ty,
    of: Ty,
    lane: Lane<'_>,
    tokens: Cursor<'_>,
) -> Result<Option<Items<Option<u64>>>, SyntaxFault>
    requires { IsType ty }
    ensures { Gives lanes_held result (splat_at ty (of, lane_in lane.entry)) }
{
    match ty {
        Ty::Vector(lanes, width) if is_int(width, of) => {
            if !lane_fits(width, lane) {
                return Ok(None);
            }
            let held = vec![in alloc; lane_at(width, lane); lanes as usize]?;
            Ok(Some(Items::from_vec(held)))
        }
        _ => Err(tokens.refusal()),
    }
}

/// Whether all these lanes of so many bits are in range.
fn all_lanes_fit(width: u32, lanes: &[(Ty, Lane<'_>)]) -> bool
    requires { width ≤ 64 }
    ensures { result ≡ list_all (λ x. lane_fits width x.1) (lanes_in lanes.now) }
{
    for (_, lane) in lanes {
        if !lane_fits(width, *lane) {
            return false;
        }
    }
    true
}

/// Lanes at the type of a vector of this width.
fn held_lanes(
    alloc: Global,
    width: u32,
    lanes: &[(Ty, Lane<'_>)],
    tokens: Cursor<'_>,
) -> Result<Items<Option<u64>>, SyntaxFault>
    requires { width ≤ 64 }
    ensures { Gives (λ held. held) result (lanes_of_width width (lanes_in lanes.now)) }
{
    let mut held = Vec::new(alloc);
    for (of, lane) in lanes {
        if !is_int(width, *of) {
            return Err(tokens.refusal());
        }
        held.push(lane_at(width, *lane))?;
    }
    Ok(Items::from_vec(held))
}

/// Lanes at a type; none are held where one is out of range.
fn lanes_at(
    alloc: Global,
    ty: Ty,
    lanes: &[(Ty, Lane<'_>)],
    tokens: Cursor<'_>,
) -> Result<Option<Items<Option<u64>>>, SyntaxFault>
    requires { IsType ty }
    ensures { Gives lanes_held result (lanes_at ty (lanes_in lanes.now)) }
{
    match ty {
        Ty::Vector(_, width) => {
            let held = held_lanes(alloc, width, lanes, tokens)?;
            if all_lanes_fit(width, lanes) {
                Ok(Some(held))
            } else {
                Ok(None)
            }
        }
        Ty::Int(_) | Ty::Ptr | Ty::Void => Err(tokens.refusal()),
    }
}

/// Lanes as an operand, where they are held.
fn lanes_operand(held: Option<Items<Option<u64>>>) -> Operand
    ensures { (scope : Scope) → operand_seen scope result ≡ lanes_held held }
{
    match held {
        Some(lanes) => Operand::Lanes(lanes),
        None => Operand::OutOfRange(None),
    }
}

/// The token of a number as an operand at a type.
fn number_operand(ty: Ty, digits: &[u8]) -> Operand
    requires { IsType ty }
    ensures { (scope : Scope) → operand_seen scope result ≡ if_in_range (fits_width (width_of ty) digits.now) (number (number_at (width_of ty) digits.now)) }
{
    let width = width_of(ty);
    if fits_width(width, digits) {
        Operand::Int(number_at(width, digits))
    } else {
        Operand::OutOfRange(None)
    }
}

/// An index that is written so.
#[tactic(auto, using(crate::proofs::Modulo::number_below))]
fn held_index(index: WrittenIndex<'_>) -> Index
    requires { HasWidth index }
    ensures is { index_pair result ≡ index_of (index_in index.entry) }
    ensures within { IsIndex result }
{
    let WrittenIndex { width, digits } = index;
    let number = number_at(width, digits);
    Index { width, number }
}

/// Indexes that are written so.
fn held_indexes(alloc: Global, indexes: &[WrittenIndex<'_>]) -> Result<Vec<Index>, AllocError>
    requires { All HasWidth indexes.now }
    ensures are { IfOk result (λ held. map index_pair held.items ≡ map index_of (map index_in indexes.now)) }
    ensures within { IfOk result (λ held. All IsIndex held.items) }
{
    let mut held = Vec::new(alloc);
    for index in indexes {
        held.push(held_index(*index))?;
    }
    Ok(held)
}

/// Whether all these indexes are in range.
fn all_indexes_fit(indexes: &[WrittenIndex<'_>]) -> bool
    requires { All HasWidth indexes.now }
    ensures { result ≡ list_all index_fits (map index_in indexes.now) }
{
    for index in indexes {
        if !fits_width(index.width, index.digits) {
            return false;
        }
    }
    true
}

/// How many bytes behind a symbol the indexes lead through a memory type.
#[tactic(auto, unfolding(crate::specs::Seen::definitions))]
fn offset(
    id: TypeId,
    indexes: &[Index],
    tokens: Cursor<'_>,
    scope: &Scope,
) -> Result<u64, SyntaxFault>
    requires { All IsIndex indexes.now }
    ensures { Gives (λ bytes. bytes) result (offset_of (definitions scope.now) (nodes_there scope.now.tables id) (map index_pair indexes.now)) }
{
    match scope.tables.offset(id, indexes) {
        Some(bytes) => Ok(bytes),
        None => Err(tokens.refusal()),
    }
}

/// A symbol that is stepped through as a memory type, by indexes.
fn stepped(
    alloc: Global,
    id: TypeId,
    symbol: u32,
    indexes: &[WrittenIndex<'_>],
    tokens: Cursor<'_>,
    scope: &Scope,
) -> Result<Operand, SyntaxFault>
    requires { All HasWidth indexes.now }
    ensures reads { (ty : Ty) → Gives (operand_seen scope.now) result (operand_at (definitions scope.now) ty (stepped (nodes_seen scope.now id, (symbol_seen scope.now symbol, map index_in indexes.now)))) }
    ensures stays { IfOk result (λ a. (later : Scope) → symbol_seen later symbol ≡ symbol_seen scope.now symbol → operand_seen later a ≡ operand_seen scope.now a) }
{
    let held = held_indexes(alloc, indexes)?;
    let bytes = offset(id, held.as_slice(), tokens, scope)?;
    if all_indexes_fit(indexes) {
        Ok(Operand::Global(symbol, bytes))
    } else {
        Ok(Operand::OutOfRange(Some(symbol)))
    }
}

/// A written value at a type, where `tokens` begin with it.
fn operand(
    alloc: Global,
    ty: Ty,
    written: &Written<'_>,
    tokens: Cursor<'_>,
    scope: &Scope,
) -> Result<Operand, SyntaxFault>
    requires typed { IsType ty }
    requires indexed { AreIndexed written.now }
    ensures reads { Gives (operand_seen scope.now) result (operand_at (definitions scope.now) ty (written_in scope.now written.now)) }
    ensures stays { IfOk result (λ a. (later : Scope) → written_in later written.now ≡ written_in scope.now written.now → operand_seen later a ≡ operand_seen scope.now a) }
{
    match written {
        Written::Named(id) => Ok(Operand::Local(*id)),
        Written::Digits(digits) => Ok(number_operand(ty, digits)),
        Written::Yes => Ok(Operand::Int(1)),
        Written::No => Ok(Operand::Int(0)),
        Written::Null => Ok(Operand::Null),
        Written::Poison => Ok(Operand::Poison),
        Written::Zeros => {
            let held = zeros_at(alloc, ty, tokens)?;
            Ok(Operand::Lanes(held))
        }
        Written::Splat(of, lane) => {
            let held = splat_at(alloc, ty, *of, *lane, tokens)?;
            Ok(lanes_operand(held))
        }
        Written::Lanes(lanes) => {
            let held = lanes_at(alloc, ty, lanes.as_slice(), tokens)?;
            Ok(lanes_operand(held))
        }
        Written::Symbol(symbol) => Ok(Operand::Global(*symbol, 0)),
        Written::Stepped(id, symbol, indexes) => {
            stepped(alloc, *id, *symbol, indexes.as_slice(), tokens, scope)
        }
    }
}

/// The bits of a type's numbers.
fn width_of(ty: Ty) -> u32
    requires { IsType ty }
    ensures value { result ≡ width_of ty }
    ensures narrow { result ≤ 64 }
{
    match ty {
        Ty::Int(width) => width,
        Ty::Ptr | Ty::Vector(_, _) | Ty::Void => 64,
    }
}

/// A value at a type.
pub fn value_at<'t>(
    alloc: Global,
    ty: Ty,
    tokens: Cursor<'t>,
    scope: &mut Scope,
) -> Result<(Operand, Cursor<'t>), SyntaxFault>
    requires { IsType ty }
    ensures grows { Widens scope.old scope.new }
    ensures reads { ReadsAs (operand_seen scope.new) result (made (operand_at (definitions scope.old) ty) value) tokens.entry }
    ensures stays { Stays operand_seen scope.new result }
    ensures uses { IfOk result (λ x. OperandAdds scope.old x.0 scope.new) }
{
    let (written, rest) = written_value(alloc, tokens, scope)?;
    let operand = operand(alloc, ty, &written, tokens, scope)?;
    Ok((operand, rest))
}
