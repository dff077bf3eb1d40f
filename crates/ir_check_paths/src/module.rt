// The first use in a module to which a path comes without its definition.
ghost use Rattle.std.specs.Prelude.{◌≡◌, ◌<◌, [], IfOk, length};
ghost use Rattle.std.specs.Option.{MatchOption};
ghost use Rattle.ir_types.specs.Denotes.{tree_of};
ghost use Rattle.ir_shape.specs.Modules.{IsModule};
ghost use Rattle.ir_rules.specs.Available.{AllAvailable, IsFirstUnavailable};
ghost use Rattle.ir_rules.specs.WellFormed.{early_breaches};
ghost use Rattle.ir_check_paths.specs.Known.{IsReady};
ghost use Rattle.ir_check_paths.specs.Breaking.{breach_of, FindsBreach};

use crate::uses::unavailable_in;
use ir_rules::{Breach, Subject};
use ir_types::{Function, Module, ValueId};
use lists::Copies;
use std::alloc::{AllocError, Global};

/// The first use of a local to which a path comes without its definition.
///
/// # Errors
///
/// Where there is no memory; so it is said of an instruction whose number has more than 32 bits, too.
pub fn unavailable(alloc: Global, m: &Module) -> Result<Option<Breach>, AllocError>
    requires is_module { IsModule m.now }
    requires early { early_breaches (tree_of m.now) ≡ [] }
    ensures { IfOk result (λ found. MatchOption found (AllAvailable (tree_of m.now)) (IsFirstUnavailable (tree_of m.now))) }
{
    for function in m.functions.as_slice() {
        let found = breach_in(alloc, function)?;
        if found.is_some() {
            return Ok(found);
        }
    }
    Ok(None)
}

/// The breach at the first such use in a function.
fn breach_in(alloc: Global, function: &Function) -> Result<Option<Breach>, AllocError>
    requires { IsReady function.now }
    ensures { IfOk result (FindsBreach function.now) }
{
    match unavailable_in(alloc, function)? {
        Some((name, place)) => Ok(Some(breach_at(function, name, place)?)),
        None => Ok(None),
    }
}

/// The breach at the use of a local in the instruction of a number.
fn breach_at(function: &Function, name: ValueId, place: usize) -> Result<Breach, AllocError>
    requires { name.0 < length function.now.names }
    ensures { IfOk result (λ b. b ≡ breach_of function.now (name, place)) }
{
    let place = u32::try_from(place).map_err(|_| AllocError)?;
    Ok(Breach {
        function: Some(function.name.copy()?),
        subject: Subject::Local(function.names.get(name).copy()?),
        place,
    })
}
