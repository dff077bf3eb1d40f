// Memory types, nested to any depth, read with a stack in place of depth.

ghost use Rattle.std.specs.Prelude.{◌≡◌, ◌<◌, ◌≤◌, ◌++◌, ◌∷◌, [], ℕ, List, None, Some, length, IfOk, OnOk, OnErr};
ghost use Rattle.text_forms.specs.View.{Extends};
ghost use Rattle.text_forms.specs.Reading.{read};
ghost use Rattle.text_forms.specs.Gives.{Gives, left};
ghost use Rattle.text_forms.specs.Machine.{Continues};
ghost use Rattle.ir_types.specs.declared.name.Name.{Name};
ghost use Rattle.ir_types.specs.declared.memory_type.MemTy.{MemTy};
ghost use Rattle.ir_types.specs.declared.memory_type.TypeName.{TypeName};
ghost use Rattle.ir_types.specs.TypeNodes.{type_nodes};
ghost use Rattle.ir_types.specs.Types.{AreTypes};
ghost use Rattle.ir_types.specs.TypeForms.{memory_type};
ghost use Rattle.ir_reader_types.specs.TypeTable.{names_of, LooksUpSome, LooksUpAll};
ghost use Rattle.ir_reader_types.specs.Frames.{innermost, goes_on, Holds, Looked, is_refusal};

use crate::heads::{Begun, head, next};
use crate::stack::Stack;
use crate::type_names::TypeNames;
use ir_types::{MemTy, TypeId};
use std::alloc::{AllocError, Global};
use text_forms::{Around, Cursor, SyntaxFault};

/// Adds a type at the end of the list: its place.
fn add_type(types: &mut Vec<MemTy>, ty: MemTy) -> Result<TypeId, AllocError>
    ensures ok { OnOk result (types.new.items ≡ types.old.items ++ ty ∷ []) }
    ensures place { IfOk result (λ id. id.0 ≡ length types.old.items) }
    ensures err { OnErr result (types.new.items ≡ types.old.items) }
{
    if types.len() >= u32::MAX as usize {
        return Err(AllocError);
    }
    let place = types.len() as u32;
    types.push(ty)?;
    Ok(TypeId(place))
}

/// The beginning of a type: the type, where it is complete.
fn begin<'t>(
    alloc: Global,
    tokens: Cursor<'t>,
    stack: &mut Stack,
    types: &mut Vec<MemTy>,
    names: &mut TypeNames,
) -> Result<(Option<TypeId>, Cursor<'t>), SyntaxFault>
    requires { Holds (names_of names.old) types.old.items stack.old None }
    ensures types_grow { Extends types.old.items types.new.items }
    ensures names_grow { Extends names.old names.new }
    ensures looks_up { LooksUpSome names.old names.new }
    ensures goes { (d : ℕ) → length (left tokens.entry) ≤ d → Continues is_refusal (λ x. goes_on d (names_of names.new) types.new.items stack.new x.0 (left x.1)) result (goes_on d (names_of names.old) types.old.items stack.old None (left tokens.entry)) }
    ensures holds { IfOk result (λ x. Holds (names_of names.new) types.new.items stack.new x.0) }
    ensures shorter { IfOk result (λ x. length (left x.1) < length (left tokens.entry)) }
    ensures names { IfOk result (λ x. (base : List TypeName) → Looked base names.old types.old.items stack.old None → Looked base names.new types.new.items stack.new x.0) }
{
    let (begun, rest) = head(alloc, tokens, names)?;
    match begun {
        Begun::Whole(ty) => {
            let id = add_type(types, ty)?;
            Ok((Some(id), rest))
        }
        Begun::Array(count) => {
            stack.push_array(count)?;
            Ok((None, rest))
        }
        Begun::Struct(packed) => {
            stack.push_struct(packed)?;
            Ok((None, rest))
        }
    }
}

/// What is behind a type that is complete inside of this: the type around it, where that is complete then.
fn go_on<'t>(
    alloc: Global,
    tokens: Cursor<'t>,
    around: Around,
    id: TypeId,
    stack: &mut Stack,
    types: &mut Vec<MemTy>,
) -> Result<(Option<TypeId>, Cursor<'t>), SyntaxFault>
    requires { innermost stack.old ≡ Some around }
    ensures types_grow { Extends types.old.items types.new.items }
    ensures goes { (d : ℕ) (names : List Name) → Holds names types.old.items stack.old (Some id) → Continues is_refusal (λ x. goes_on d names types.new.items stack.new x.0 (left x.1)) result (goes_on d names types.old.items stack.old (Some id) (left tokens.entry)) }
    ensures holds { IfOk result (λ x. (names : List Name) → Holds names types.old.items stack.old (Some id) → Holds names types.new.items stack.new x.0) }
    ensures shorter { IfOk result (λ x. length (left x.1) < length (left tokens.entry)) }
    ensures names { IfOk result (λ x. (base names : List TypeName) → Holds (names_of names) types.old.items stack.old (Some id) → Looked base names types.old.items stack.old (Some id) → Looked base names types.new.items stack.new x.0) }
{
    let (more, rest) = next(tokens, around)?;
    if more {
        stack.add(id)?;
        return Ok((None, rest));
    }
    let ty = stack.close(alloc, id)?;
    let closed = add_type(types, ty)?;
    Ok((Some(closed), rest))
}

/// One memory type, which is the last of those that are added to the list of types, behind its parts.
///
/// # Errors
///
/// Where no type stands; and where there is no room, or the list would have 2^32 types.
pub fn memory_type<'t>(
    alloc: Global,
    tokens: Cursor<'t>,
    types: &mut Vec<MemTy>,
    names: &mut TypeNames,
) -> Result<(TypeId, Cursor<'t>), SyntaxFault>
    requires { AreTypes (names_of names.old) 0 types.old.items }
    ensures types_grow { Extends types.old.items types.new.items }
    ensures names_grow { Extends names.old names.new }
    ensures looks_up { LooksUpSome names.old names.new }
    ensures are { OnOk result (AreTypes (names_of names.new) 0 types.new.items) }
    ensures reads { (d : ℕ) → length (left tokens.entry) ≤ d → Gives (λ x. (type_nodes (names_of names.new) types.new.items x.0, left x.1)) result (read (memory_type d) (left tokens.entry)) }
    ensures stays { IfOk result (λ x. (later : List Name) (others : List MemTy) → Extends (names_of names.new) later → Extends types.new.items others → type_nodes later others x.0 ≡ type_nodes (names_of names.new) types.new.items x.0) }
    ensures within { IfOk result (λ x. x.0.0 < length types.new.items) }
    ensures names { IfOk result (λ x. LooksUpAll names.old (type_nodes (names_of names.new) types.new.items x.0) names.new) }
{
    let mut stack = Stack::new(alloc);
    let mut done = None;
    let mut rest = tokens;
    'types: loop {
        let (now, after) = match done {
            None => begin(alloc, rest, &mut stack, types, names)?,
            Some(id) => match stack.innermost() {
                None => return Ok((id, rest)),
                Some(around) => go_on(alloc, rest, around, id, &mut stack, types)?,
            },
        };
        done = now;
        rest = after;
    }
}
