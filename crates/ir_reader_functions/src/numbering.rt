// The numbers that things without a name take.

ghost use Rattle.std.specs.Prelude.{◌≡◌, ◌≤◌, ◌^◌, ◌+◌, ℕ, List, None, Some, MatchOption, IfOk};
ghost use Rattle.text_forms.specs.View.{Extends};
ghost use Rattle.text_forms.specs.Gives.{Gives};
ghost use Rattle.ir_types.specs.declared.name.Name.{Name};
ghost use Rattle.ir_types.specs.Denotes.{name_in};
ghost use Rattle.ir_types.specs.Numbered.{next_after, named, named_result};
ghost use Rattle.ir_reader_values.specs.Seen.{name_seen, Widens, IsSteady};
ghost use Rattle.ir_reader_functions.specs.View.{StaysAs};
ghost use Rattle.ir_reader_functions.specs.Lines.{result_seen};

use ir_reader_ops::Scope;
use ir_types::{Name, Names, Ty, ValueId};
use text_forms::{Cursor, SyntaxFault};

/// How far a function's numbers are taken: the next one, 2^32 where none is left.
#[derive(Drop)]
pub struct Numbering {
    /// The number for the next thing without a name.
    pub next: u64,
    ghost within: { next ≤ 2 ^ 32 },
}

impl Numbering {
    /// No number is taken.
    pub fn new() -> Numbering
        ensures { result.next ≡ 0 }
    {
        Numbering { next: 0 }
    }

    /// The name of a thing: what is written, or the next number, where one is left.
    pub fn name(&mut self, written: Option<Name>) -> Option<Name>
        ensures { MatchOption result (named self.old.next written ≡ None) (λ n. named self.old.next written ≡ Some (n, self.new.next)) }
    {
        match written {
            Some(Name::Text(text)) => Some(Name::Text(text)),
            Some(Name::Number(number)) => {
                let behind = u64::from(number) + 1;
                self.next = self.next.max(behind);
                Some(Name::Number(number))
            }
            None => {
                let Ok(number) = u32::try_from(self.next) else {
                    return None;
                };
                self.next += 1;
                Some(Name::Number(number))
            }
        }
    }
}

/// The place of a thing's name: of what is written, or of the next number.
pub fn named_id(
    written: Option<Name>,
    names: &mut Names,
    numbering: &mut Numbering,
    tokens: Cursor<'_>,
) -> Result<ValueId, SyntaxFault>
    ensures grows { Extends names.old names.new }
    ensures names { Gives (λ id. (name_in names.new id, numbering.new.next)) result (named numbering.old.next written) }
    ensures stays { IfOk result (λ id. StaysAs names.new id) }
{
    match numbering.name(written) {
        Some(name) => {
            let id = names.add(name)?;
            Ok(id)
        }
        None => Err(tokens.refusal()),
    }
}

/// The same among the names of a scope.
pub fn scoped_id(
    written: Option<Name>,
    scope: &mut Scope,
    numbering: &mut Numbering,
    tokens: Cursor<'_>,
) -> Result<ValueId, SyntaxFault>
    ensures grows { Widens scope.old scope.new }
    ensures names { Gives (λ id. (name_seen scope.new id, numbering.new.next)) result (named numbering.old.next written) }
    ensures stays { IfOk result (λ id. IsSteady name_seen scope.new id) }
    ensures tables { scope.new.tables ≡ scope.old.tables }
{
    named_id(written, &mut scope.names, numbering, tokens)
}

/// The place of the name of a result for which none is written, where the type has one.
pub fn result_id(
    ty: Ty,
    scope: &mut Scope,
    numbering: &mut Numbering,
    tokens: Cursor<'_>,
) -> Result<Option<ValueId>, SyntaxFault>
    ensures grows { Widens scope.old scope.new }
    ensures names { Gives (λ r. (result_seen scope.new r, numbering.new.next)) result (named_result numbering.old.next ty None) }
    ensures stays { IfOk result (λ r. IsSteady result_seen scope.new r) }
    ensures tables { scope.new.tables ≡ scope.old.tables }
{
    match ty {
        Ty::Int(_) | Ty::Ptr | Ty::Vector(_, _) => {
            let id = scoped_id(None, scope, numbering, tokens)?;
            Ok(Some(id))
        }
        Ty::Void => Ok(None),
    }
}
