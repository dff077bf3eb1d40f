//! Reads a module from a text, exactly as the grammar says: its items from left to right, with one place in the tokens; then their memory
//! types, when the names of all types have their places; and then its functions, when it is known what these stand for.
#![tactic(auto)]

ghost use Rattle.std.specs.Prelude.{◌≡◌, ◌≤◌, ◌<◌, ◌⊎◌, length, IfOk, OnOk, IfErr};
ghost use Rattle.text_forms.specs.declared.Token.{Token};
ghost use Rattle.text_forms.specs.declared.cursor.SyntaxFault.TheVariants.{Memory};
ghost use Rattle.text_forms.specs.Gives.{left};
ghost use Rattle.text_lex.specs.Fault.{HasNoneLeftOut};
ghost use Rattle.ir_types.specs.Denotes.{tree_of, Denotes};
ghost use Rattle.ir_reader.specs.Refusal.{IsWithinLimits, IsRefusal, StartsAt};
ghost use Rattle.ir_reader.specs.Reading.{module_read, GivesModule};

mod build;
mod functions;
mod gather;
mod longs;
mod named;
mod symbols;

use crate::build::{module, try_functions};
use crate::gather::{Gathered, gather};
use ir_types::Module;
use std::alloc::Global;
use text_forms::{Cursor, SyntaxFault, Token};
use text_lex::{Count, TEXT_LIMIT, TextFault, lex};

/// The first fault in reading from left to right, where items were gathered up to these tokens: a function before them, or the one with
/// which they begin, may have an earlier one. (Names of types stand there for what the gathered items define.)
fn first_fault(
    alloc: Global,
    gathered: Gathered<'_>,
    rest: Cursor<'_>,
    fault: SyntaxFault,
) -> SyntaxFault
    ensures { fault ≡ Memory → result ≡ Memory }
{
    match fault {
        SyntaxFault::NoReading(place) => match try_functions(alloc, gathered, rest) {
            Ok(()) => SyntaxFault::NoReading(place),
            Err(SyntaxFault::NoReading(found)) => SyntaxFault::NoReading(place.min(found)),
            Err(SyntaxFault::Memory) => SyntaxFault::Memory,
        },
        SyntaxFault::Memory => SyntaxFault::Memory,
    }
}

/// The module that all of the tokens spell, and the first limit that it passes.
fn module_of(
    alloc: Global,
    tokens: Cursor<'_>,
) -> Result<(Module, Option<(Count, u64)>), SyntaxFault>
    ensures { GivesModule (module_read (left tokens.entry)) result }
{
    let mut gathered = Gathered::nothing(alloc);
    let mut rest = tokens;
    match gather(alloc, &mut rest, &mut gathered) {
        Ok(()) if rest.rest.is_empty() => module(alloc, gathered),
        Ok(()) => Err(first_fault(alloc, gathered, rest, rest.refusal())),
        Err(fault) => Err(first_fault(alloc, gathered, rest, fault)),
    }
}

/// The place, where a token starts there, and else the end.
fn stop(tokens: &[Token], place: u32, end: u32) -> u32
    ensures { StartsAt tokens.now result ⊎ (result ≡ end) }
{
    for token in tokens {
        if token.start == place {
            return place;
        }
    }
    end
}

/// The module that the text reads as, where it is within the limits.
///
/// # Errors
///
/// Those of `lex`; then `NoReading` with the place of the first token at which reading from left to right stops, or the text's length;
/// then `CountLimit` with the first limit that the module passes; and `Memory` where there is no room.
pub fn read_module(alloc: Global, text: &[u8]) -> Result<Module, TextFault>
    ensures reads { IfOk result (λ m. IsWithinLimits text.now (tree_of m)) }
    ensures denotes { IfOk result (λ m. Denotes m (tree_of m)) }
    ensures within { OnOk result (length text.now ≤ TEXT_LIMIT) }
    ensures nothing_left_out { OnOk result (HasNoneLeftOut text.now) }
    ensures too_long { TEXT_LIMIT < length text.now → result ≡ Err (TextFault.TextLimit (length text.now)) }
    ensures fault { IfErr result (IsRefusal text.now) }
{
    let tokens = match lex(alloc, text) {
        Ok(tokens) => tokens,
        Err(fault) => return Err(fault),
    };
    let cursor = Cursor {
        text,
        rest: tokens.as_slice(),
    };
    match module_of(alloc, cursor) {
        Ok((module, None)) => Ok(module),
        Ok((_, Some((count, number)))) => Err(TextFault::CountLimit(count, number)),
        Err(SyntaxFault::NoReading(place)) => {
            let end = text.len() as u32;
            Err(TextFault::NoReading(stop(tokens.as_slice(), place, end)))
        }
        Err(SyntaxFault::Memory) => Err(TextFault::Memory),
    }
}
