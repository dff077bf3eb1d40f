// Blocks.

ghost use Rattle.std.specs.Prelude.{◌≡◌, [], IfOk};
ghost use Rattle.text_forms.specs.declared.TokenKind.TheVariants.{Label};
ghost use Rattle.text_forms.specs.Form.{many, optional, pair};
ghost use Rattle.text_forms.specs.Reading.{read};
ghost use Rattle.text_forms.specs.Walk.{walk, completed};
ghost use Rattle.text_forms.specs.Gives.{Gives, left};
ghost use Rattle.ir_types.specs.TypeForms.{label};
ghost use Rattle.ir_types.specs.InstForms.{operation, terminator};
ghost use Rattle.ir_types.specs.FunctionForms.{line as line_form, block};
ghost use Rattle.ir_types.specs.Numbered.{named, numbered_inst, numbered_block};
ghost use Rattle.ir_reader_types.specs.Uses.{InstsUse};
ghost use Rattle.ir_reader_values.specs.Seen.{name_seen, definitions, Widens, Stays};
ghost use Rattle.ir_reader_functions.specs.Blocks.{insts_in, block_seen, block_read};

use crate::line::{begins_line, line};
use crate::numbering::{Numbering, scoped_id};
use ir_reader_ops::{Place, Scope};
use ir_reader_types::block_label;
use ir_types::{Block, Inst, ValueId};
use lists::Items;
use std::alloc::Global;
use text_forms::{Cursor, SyntaxFault, TokenKind};

/// No instructions, before the tokens. (A loop whose rest begins as a parameter isn't covered.)
fn no_insts<'t>(alloc: Global, tokens: Cursor<'t>) -> (Vec<Inst>, Cursor<'t>)
    ensures insts { result.0.items ≡ [] }
    ensures rest { result.1 ≡ tokens.entry }
{
    (Vec::new(alloc), tokens)
}

/// The lines before the last.
#[tactic(auto, using(ir_reader_types::proofs::Uses::uses_none))]
fn operations<'t>(
    alloc: Global,
    tokens: Cursor<'t>,
    scope: &mut Scope,
    numbering: &mut Numbering,
) -> Result<(Vec<Inst>, Cursor<'t>), SyntaxFault>
    ensures grows { Widens scope.old scope.new }
    ensures reads { Gives (λ x. ((insts_in scope.new x.0.items, numbering.new.next), left x.1)) result (completed (walk numbered_inst numbering.old.next) (read (many (line_form (operation (definitions scope.old)))) (left tokens.entry))) }
    ensures stays { Stays (λ s x. insts_in s x.items) scope.new result }
    ensures uses { IfOk result (λ x. InstsUse scope.old.tables (insts_in scope.new x.0.items) scope.new.tables) }
{
    let (mut insts, mut rest) = no_insts(alloc, tokens);
    'more: while begins_line(Place::Inside, rest) {
        let (inst, after) = line(alloc, Place::Inside, rest, scope, numbering)?;
        insts.push(inst)?;
        rest = after;
    }
    Ok((insts, rest))
}

/// The place of a block's name, which may be written before it.
#[tactic(auto, unfolding(ir_types::specs::TypeForms::label))]
fn block_name<'t>(
    alloc: Global,
    tokens: Cursor<'t>,
    scope: &mut Scope,
    numbering: &mut Numbering,
) -> Result<(ValueId, Cursor<'t>), SyntaxFault>
    ensures grows { Widens scope.old scope.new }
    ensures reads { Gives (λ x. ((name_seen scope.new x.0, numbering.new.next), left x.1)) result (completed (named numbering.old.next) (read (optional label) (left tokens.entry))) }
    ensures stays { Stays name_seen scope.new result }
    ensures tables { scope.new.tables ≡ scope.old.tables }
{
    if tokens.is_next(TokenKind::Label) {
        let (name, rest) = block_label(alloc, tokens)?;
        let id = scoped_id(Some(name), scope, numbering, tokens)?;
        return Ok((id, rest));
    }
    let id = scoped_id(None, scope, numbering, tokens)?;
    Ok((id, tokens))
}

/// The parts of a block.
fn parts<'t>(
    alloc: Global,
    tokens: Cursor<'t>,
    scope: &mut Scope,
    numbering: &mut Numbering,
) -> Result<(Block, Cursor<'t>), SyntaxFault>
    ensures grows { Widens scope.old scope.new }
    ensures reads { Gives (λ x. ((block_seen scope.new x.0, numbering.new.next), left x.1)) result (block_read (definitions scope.old) numbering.old.next (left tokens.entry)) }
    ensures stays { Stays block_seen scope.new result }
    ensures uses { IfOk result (λ x. InstsUse scope.old.tables (insts_in scope.new x.0.insts) scope.new.tables) }
{
    let (name, rest) = block_name(alloc, tokens, scope, numbering)?;
    let (mut insts, rest) = operations(alloc, rest, scope, numbering)?;
    let (last, rest) = line(alloc, Place::Last, rest, scope, numbering)?;
    insts.push(last)?;
    Ok((
        Block {
            name,
            insts: Items::from_vec(insts),
        },
        rest,
    ))
}

/// A block.
#[tactic(auto)]
pub fn block<'t>(
    alloc: Global,
    tokens: Cursor<'t>,
    scope: &mut Scope,
    numbering: &mut Numbering,
) -> Result<(Block, Cursor<'t>), SyntaxFault>
    ensures grows { Widens scope.old scope.new }
    ensures reads { Gives (λ x. ((block_seen scope.new x.0, numbering.new.next), left x.1)) result (completed (numbered_block numbering.old.next) (read (block (definitions scope.old)) (left tokens.entry))) }
    ensures stays { Stays block_seen scope.new result }
    ensures uses { IfOk result (λ x. InstsUse scope.old.tables (insts_in scope.new x.0.insts) scope.new.tables) }
{
    parts(alloc, tokens, scope, numbering)
}
