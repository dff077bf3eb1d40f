// Functions, without the words before them.

ghost use Rattle.std.specs.Prelude.{◌≡◌, [], ℕ, List, map, IfOk};
ghost use Rattle.text_forms.specs.View.{Extends};
ghost use Rattle.text_forms.specs.declared.TokenKind.TheVariants.{LeftParen, RightParen, LeftBrace, RightBrace};
ghost use Rattle.text_forms.specs.Reading.{read, opens};
ghost use Rattle.text_forms.specs.Walk.{walk, completed};
ghost use Rattle.text_forms.specs.Gives.{Gives, left};
ghost use Rattle.ir_types.specs.Names.{IsTable};
ghost use Rattle.ir_types.specs.Offsets.{Definitions};
ghost use Rattle.ir_types.specs.Denotes.{Tables as TablesIn, function_in};
ghost use Rattle.ir_types.specs.Used.{insts_of};
ghost use Rattle.text_forms.specs.Combined.{list, some};
ghost use Rattle.ir_types.specs.FunctionForms.{parameter, dotted_parameters, block, declared_function, defined_function};
ghost use Rattle.ir_types.specs.Numbered.{numbered_param, numbered_block, numbered_function};
ghost use Rattle.ir_reader_types.specs.Tables.{TableLists, tables_in, definitions_of, Grows};
ghost use Rattle.ir_reader_types.specs.Uses.{InstsUse};
ghost use Rattle.ir_reader_values.specs.Seen.{definitions, Widens, Stays};
ghost use Rattle.ir_reader_values.specs.Between.{between_read};
ghost use Rattle.ir_reader_functions.specs.View.{StaysNamed};
ghost use Rattle.ir_reader_functions.specs.Functions.{params_in, blocks_in, insts_among, function_seen, dotted_in, numbered_dotted, declared_read, defined_read};

use crate::block::block;
use crate::line::begins_line;
use crate::numbering::Numbering;
use crate::param::{dotted_params, params};
use ir_reader_ops::{Place, Scope, kept, kept_before, kept_behind};
use ir_reader_types::{SymbolNames, Tables, TypeNames, global, return_type};
use ir_types::{Block, Function, Names, Param};
use lists::Items;
use std::alloc::{AllocError, Global};
use std::mem;
use text_forms::{Cursor, SyntaxFault, TokenKind};

/// Whether a block stands next.
#[tactic(auto, using(crate::proofs::Functions::block_begins))]
fn begins_block(tokens: Cursor<'_>) -> bool
    ensures { (defs : Definitions) → result ≡ opens (block defs) (left tokens.entry) }
{
    tokens.is_next(TokenKind::Label)
        || begins_line(Place::Inside, tokens)
        || begins_line(Place::Last, tokens)
}

/// The blocks, at least one.
fn blocks<'t>(
    alloc: Global,
    tokens: Cursor<'t>,
    scope: &mut Scope,
    numbering: &mut Numbering,
) -> Result<(Vec<Block>, Cursor<'t>), SyntaxFault>
    ensures grows { Widens scope.old scope.new }
    ensures reads { Gives (λ x. ((blocks_in scope.new x.0.items, numbering.new.next), left x.1)) result (completed (walk numbered_block numbering.old.next) (read (some (block (definitions scope.old))) (left tokens.entry))) }
    ensures stays { Stays (λ s x. blocks_in s x.items) scope.new result }
    ensures uses { IfOk result (λ x. InstsUse scope.old.tables (insts_among (blocks_in scope.new x.0.items)) scope.new.tables) }
{
    let (first, mut rest) = block(alloc, tokens, scope, numbering)?;
    let mut body = Vec::new(alloc);
    body.push(first)?;
    'more: while begins_block(rest) {
        let (next, after) = block(alloc, rest, scope, numbering)?;
        body.push(next)?;
        rest = after;
    }
    Ok((body, rest))
}

/// The parameters in their parentheses.
fn enclosed_params<'t>(
    alloc: Global,
    tokens: Cursor<'t>,
    names: &mut Names,
    numbering: &mut Numbering,
) -> Result<(Vec<Param>, Cursor<'t>), SyntaxFault>
    ensures grows { Extends names.old names.new }
    ensures reads { Gives (λ x. ((params_in names.new x.0.items, numbering.new.next), left x.1)) result (between_read LeftParen RightParen (walk numbered_param numbering.old.next) (read (list parameter)) (left tokens.entry)) }
    ensures stays { StaysNamed (λ ns x. params_in ns x.items) names.new result }
{
    let rest = tokens.mark(TokenKind::LeftParen)?;
    let (params, rest) = params(alloc, rest, names, numbering)?;
    let rest = rest.mark(TokenKind::RightParen)?;
    Ok((params, rest))
}

/// The blocks in their braces.
fn enclosed_blocks<'t>(
    alloc: Global,
    tokens: Cursor<'t>,
    scope: &mut Scope,
    numbering: &mut Numbering,
) -> Result<(Vec<Block>, Cursor<'t>), SyntaxFault>
    ensures grows { Widens scope.old scope.new }
    ensures reads { Gives (λ x. ((blocks_in scope.new x.0.items, numbering.new.next), left x.1)) result (between_read LeftBrace RightBrace (walk numbered_block numbering.old.next) (read (some (block (definitions scope.old)))) (left tokens.entry)) }
    ensures stays { Stays (λ s x. blocks_in s x.items) scope.new result }
    ensures uses { IfOk result (λ x. InstsUse scope.old.tables (insts_among (blocks_in scope.new x.0.items)) scope.new.tables) }
{
    let rest = tokens.mark(TokenKind::LeftBrace)?;
    let (blocks, rest) = blocks(alloc, rest, scope, numbering)?;
    let rest = rest.mark(TokenKind::RightBrace)?;
    Ok((blocks, rest))
}

/// The parameters in their parentheses, where dots may stand behind them.
fn enclosed_dotted<'t>(
    alloc: Global,
    tokens: Cursor<'t>,
    names: &mut Names,
    numbering: &mut Numbering,
) -> Result<((Vec<Param>, bool), Cursor<'t>), SyntaxFault>
    ensures grows { Extends names.old names.new }
    ensures reads { Gives (λ x. ((dotted_in names.new x.0, numbering.new.next), left x.1)) result (between_read LeftParen RightParen (numbered_dotted numbering.old.next) (read dotted_parameters) (left tokens.entry)) }
    ensures stays { StaysNamed dotted_in names.new result }
{
    let rest = tokens.mark(TokenKind::LeftParen)?;
    let (params, rest) = dotted_params(alloc, rest, names, numbering)?;
    let rest = rest.mark(TokenKind::RightParen)?;
    Ok((params, rest))
}

/// The parameters in their parentheses, whose names are those of a scope.
fn scoped_params<'t>(
    alloc: Global,
    tokens: Cursor<'t>,
    scope: &mut Scope,
    numbering: &mut Numbering,
) -> Result<(Vec<Param>, Cursor<'t>), SyntaxFault>
    ensures grows { Widens scope.old scope.new }
    ensures reads { Gives (λ x. ((params_in scope.new.names x.0.items, numbering.new.next), left x.1)) result (between_read LeftParen RightParen (walk numbered_param numbering.old.next) (read (list parameter)) (left tokens.entry)) }
    ensures stays { Stays (λ s x. params_in s.names x.items) scope.new result }
    ensures tables { scope.new.tables ≡ scope.old.tables }
{
    enclosed_params(alloc, tokens, &mut scope.names, numbering)
}

/// The parts of a declared function.
fn declared_parts<'t>(
    alloc: Global,
    tokens: Cursor<'t>,
) -> Result<(Function, Cursor<'t>), SyntaxFault>
    ensures reads { (t : TablesIn) → Gives (λ x. (function_in t x.0, left x.1)) result (declared_read (left tokens.entry)) }
    ensures table { IfOk result (λ x. IsTable x.0.names) }
{
    let (before, rest) = kept_before(alloc, tokens)?;
    let (ret, rest) = return_type(rest)?;
    let (name, rest) = global(alloc, rest)?;
    let mut names = Names::new(alloc);
    let mut numbering = Numbering::new();
    let ((params, varargs), rest) = enclosed_dotted(alloc, rest, &mut names, &mut numbering)?;
    let (after, rest) = kept(alloc, rest)?;
    let _ = names.len();
    Ok((
        Function {
            name,
            before,
            ret,
            params: Items::from_vec(params),
            varargs,
            after,
            body: Items::from_vec(Vec::new(alloc)),
            names,
        },
        rest,
    ))
}

/// The parts of a defined function, but for its names, which are left in the scope.
fn defined_parts<'t>(
    alloc: Global,
    tokens: Cursor<'t>,
    scope: &mut Scope,
) -> Result<(Function, Cursor<'t>), SyntaxFault>
    ensures grows { Widens scope.old scope.new }
    ensures reads { Gives (λ x. (function_seen scope.new x.0, left x.1)) result (defined_read (definitions scope.old) (left tokens.entry)) }
    ensures stays { Stays function_seen scope.new result }
    ensures uses { IfOk result (λ x. InstsUse scope.old.tables (insts_of (function_seen scope.new x.0)) scope.new.tables) }
{
    let (before, rest) = kept(alloc, tokens)?;
    let (ret, rest) = return_type(rest)?;
    let (name, rest) = global(alloc, rest)?;
    let mut numbering = Numbering::new();
    let (params, rest) = scoped_params(alloc, rest, scope, &mut numbering)?;
    let (after, rest) = kept_behind(alloc, rest)?;
    let (body, rest) = enclosed_blocks(alloc, rest, scope, &mut numbering)?;
    Ok((
        Function {
            name,
            before,
            ret,
            params: Items::from_vec(params),
            varargs: false,
            after,
            body: Items::from_vec(body),
            names: Names::new(alloc),
        },
        rest,
    ))
}

/// What is behind the word `declare`: a function without its blocks.
///
/// # Errors
///
/// Where no such function stands, with the place at which reading from left to right stops, or there is no room.
pub fn declared<'t>(
    alloc: Global,
    tokens: Cursor<'t>,
) -> Result<(Function, Cursor<'t>), SyntaxFault>
    ensures reads { (t : TablesIn) → Gives (λ x. (function_in t x.0, left x.1)) result (completed numbered_function (read declared_function (left tokens.entry))) }
    ensures table { IfOk result (λ x. IsTable x.0.names) }
{
    declared_parts(alloc, tokens)
}

/// Tables of nothing.
fn no_tables(alloc: Global) -> Result<Tables, AllocError> {
    let names = TypeNames::new(alloc);
    let symbols = SymbolNames::new(alloc);
    Tables::new(alloc, Vec::new(alloc), names, symbols)
}

/// The function, whose names are these.
fn with_names(function: Function, names: Names) -> Function
    ensures function { result ≡ record function { names = names } }
    ensures table { IsTable result.names }
{
    let _ = names.len();
    Function { names, ..function }
}

/// A function that is read over these tables, and the tables behind it, whether or not one is read.
#[tactic(auto, unfolding(ir_reader_values::specs::Seen::definitions))]
fn defined_over<'t>(
    alloc: Global,
    tokens: Cursor<'t>,
    tables: Tables,
) -> (Tables, Result<(Function, Cursor<'t>), SyntaxFault>)
    ensures grows { Grows tables result.0 }
    ensures reads { Gives (λ x. (function_in (tables_in result.0) x.0, left x.1)) result.1 (defined_read (definitions_of tables) (left tokens.entry)) }
    ensures stays { IfOk result.1 (λ x. (later : TableLists) → Grows result.0 later → function_in (tables_in later) x.0 ≡ function_in (tables_in result.0) x.0) }
    ensures table { IfOk result.1 (λ x. IsTable x.0.names) }
    ensures uses { IfOk result.1 (λ x. InstsUse tables (insts_of (function_in (tables_in result.0) x.0)) result.0) }
{
    let names = Names::new(alloc);
    let mut scope = Scope { names, tables };
    let read = defined_parts(alloc, tokens, &mut scope);
    let Scope { names, tables } = scope;
    match read {
        Ok((function, rest)) => (tables, Ok((with_names(function, names), rest))),
        Err(fault) => (tables, Err(fault)),
    }
}

/// What is behind the word `define`: a function with its blocks. Names of symbols and of types that its instructions use and the tables lack are
/// added to them, each once and by first use, and so are memory types. Where no function is read, some may be added too.
///
/// # Errors
///
/// Where no such function stands, with the place at which reading from left to right stops, or there is no room.
pub fn defined<'t>(
    alloc: Global,
    tokens: Cursor<'t>,
    tables: &mut Tables,
) -> Result<(Function, Cursor<'t>), SyntaxFault>
    ensures grows { Grows tables.old tables.new }
    ensures reads { Gives (λ x. (function_in (tables_in tables.new) x.0, left x.1)) result (completed numbered_function (read (defined_function (definitions_of tables.old)) (left tokens.entry))) }
    ensures stays { IfOk result (λ x. (later : TableLists) → Grows tables.new later → function_in (tables_in later) x.0 ≡ function_in (tables_in tables.new) x.0) }
    ensures table { IfOk result (λ x. IsTable x.0.names) }
    ensures uses { IfOk result (λ x. InstsUse tables.old (insts_of (function_in (tables_in tables.new) x.0)) tables.new) }
{
    let none = no_tables(alloc)?;
    let given = mem::replace(tables, none);
    let (grown, read) = defined_over(alloc, tokens, given);
    *tables = grown;
    read
}
