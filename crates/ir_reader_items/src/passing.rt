// What is passed over, and left to be read again.

ghost use Rattle.std.specs.Prelude.{◌≡◌, true, false};
ghost use Rattle.text_forms.specs.Gives.{Gives, left};
ghost use Rattle.ir_limits.specs.Limits.{first_long};
ghost use Rattle.ir_reader_types.specs.TypeTable.{names_of};
ghost use Rattle.ir_reader_items.specs.Sources.{type_read, outline_there};
ghost use Rattle.ir_reader_items.specs.Parts.{nodes_of, nodes_if_any, outline_of};
ghost use Rattle.ir_reader_items.specs.Lines.{GivesPlainly};
ghost use Rattle.ir_reader_items.specs.Passed.{name_there, signature_passed};
ghost use Rattle.ir_reader_items.specs.Typed.{defined_read};

use crate::source::{FunctionSource, TypeSource};
use ir_limits::long_name;
use ir_reader_types::{TypeNames, global, memory_type, return_type};
use ir_reader_values::{kept, kept_before, kept_behind};
use ir_types::{Name, TypeName};
use kept_runs::{pass_braces, pass_parens};
use std::alloc::Global;
use text_forms::{Cursor, SyntaxFault};

/// The bytes of the first of the names that has too many.
fn first_long(names: &[TypeName]) -> Option<u64>
    ensures { result ≡ first_long (names_of names.now) }
{
    for entry in names {
        if let Some(bytes) = long_name(&entry.name) {
            return Some(bytes);
        }
    }
    None
}

/// A memory type.
pub fn type_source<'t>(
    alloc: Global,
    tokens: Cursor<'t>,
) -> Result<(TypeSource<'t>, Cursor<'t>), SyntaxFault>
    ensures { Gives (λ x. (nodes_of x.0, left x.1)) result (type_read (left tokens.entry)) }
{
    let mut types = Vec::new(alloc);
    let mut names = TypeNames::new(alloc);
    let (_, rest) = memory_type(alloc, tokens, &mut types, &mut names)?;
    let long = first_long(names.as_slice());
    Ok((TypeSource { tokens, long }, rest))
}

/// What a name of a type is defined as: a type, or the word `opaque`.
pub fn defined<'t>(
    alloc: Global,
    tokens: Cursor<'t>,
) -> Result<(Option<TypeSource<'t>>, Cursor<'t>), SyntaxFault>
    ensures { Gives (λ x. (nodes_if_any x.0, left x.1)) result (defined_read (left tokens.entry)) }
{
    match tokens.behind_word(b"opaque") {
        Some(rest) => Ok((None, rest)),
        None => {
            let (source, rest) = type_source(alloc, tokens)?;
            Ok((Some(source), rest))
        }
    }
}

/// The name of a function, behind the type of what it returns, and what is behind its parameters.
fn signature<'t>(alloc: Global, tokens: Cursor<'t>) -> Result<(Name, Cursor<'t>), SyntaxFault>
    ensures { GivesPlainly result (signature_passed (left tokens.entry)) }
{
    let (_, rest) = return_type(tokens)?;
    let (name, rest) = global(alloc, rest)?;
    let rest = pass_parens(alloc, rest)?;
    Ok((name, rest))
}

/// The name of a defined function, and what is behind its body.
#[tactic(auto, using(crate::proofs::Outlines::definition_is))]
fn defined_outline<'t>(alloc: Global, tokens: Cursor<'t>) -> Result<(Name, Cursor<'t>), SyntaxFault>
    ensures { GivesPlainly result (name_there true (left tokens.entry)) }
{
    let (_, rest) = kept(alloc, tokens)?;
    let (name, rest) = signature(alloc, rest)?;
    let (_, rest) = kept_behind(alloc, rest)?;
    let rest = pass_braces(alloc, rest)?;
    Ok((name, rest))
}

/// The name of a declared function, and what is behind the function.
#[tactic(auto, using(crate::proofs::Outlines::declaration_is))]
fn declared_outline<'t>(
    alloc: Global,
    tokens: Cursor<'t>,
) -> Result<(Name, Cursor<'t>), SyntaxFault>
    ensures { GivesPlainly result (name_there false (left tokens.entry)) }
{
    let (_, rest) = kept_before(alloc, tokens)?;
    let (name, rest) = signature(alloc, rest)?;
    let (_, rest) = kept(alloc, rest)?;
    Ok((name, rest))
}

/// The name of a function, defined or only declared, and what is behind the function.
fn outline<'t>(
    alloc: Global,
    tokens: Cursor<'t>,
    defined: bool,
) -> Result<(Name, Cursor<'t>), SyntaxFault>
    ensures { GivesPlainly result (name_there defined (left tokens.entry)) }
{
    if defined {
        return defined_outline(alloc, tokens);
    }
    declared_outline(alloc, tokens)
}

/// A function, defined or only declared, behind its word.
pub fn function_source<'t>(
    alloc: Global,
    tokens: Cursor<'t>,
    defined: bool,
) -> Result<(FunctionSource<'t>, Cursor<'t>), SyntaxFault>
    ensures { Gives (λ x. (outline_of x.0, left x.1)) result (outline_there defined (left tokens.entry)) }
{
    let (name, rest) = outline(alloc, tokens, defined)?;
    let source = FunctionSource {
        name,
        defined,
        tokens,
    };
    Ok((source, rest))
}
