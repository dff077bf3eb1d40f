// Sets extents along a walk on which each type follows its parts.
ghost use Rattle.ir_sizes.specs.Known.{AreRight};

use crate::place::set_at;
use crate::single::definition;
use ir_types::{Extent, MemTy, TypeName};
use std::alloc::{AllocError, Global};

/// A step of the walk.
#[derive(Clone, Copy)]
enum Step {
    /// To the type at this place.
    Enter(usize),
    /// Away from it, with all its parts behind.
    Leave(usize),
}

/// Where the walk has been, and its steps to come, the next one last.
#[derive(Drop)]
struct Walk {
    entered: Vec<bool>,
    steps: Vec<Step>,
}

/// Sets the extents of types whose parts' extents are set, parts first.
pub fn set_in_order(
    alloc: Global,
    types: &[MemTy],
    names: &[TypeName],
    extents: &mut [Extent],
) -> Result<(), AllocError>
    requires { AreRight types.now names.now extents.old }
    ensures { AreRight types.now names.now extents.new }
{
    let mut walk = Walk {
        entered: vec![in alloc; false; types.len()]?,
        steps: Vec::new(alloc),
    };
    for place in 0..types.len() {
        walk.steps.push(Step::Enter(place))?;
        walk_on(&mut walk, types, names, extents)?;
    }
    Ok(())
}

/// Takes the steps to come, until there is none.
fn walk_on(
    walk: &mut Walk,
    types: &[MemTy],
    names: &[TypeName],
    extents: &mut [Extent],
) -> Result<(), AllocError>
    requires { AreRight types.now names.now extents.old }
    ensures { AreRight types.now names.now extents.new }
{
    for _ in 0..u64::MAX {
        match walk.steps.pop() {
            Some(Step::Enter(place)) => enter(walk, types, names, place)?,
            Some(Step::Leave(place)) => {
                if place < types.len() {
                    let _set = set_at(types, names, extents, place);
                }
            }
            None => break,
        }
    }
    Ok(())
}

/// Goes to a type, where the walk has not been there: its parts are next.
fn enter(
    walk: &mut Walk,
    types: &[MemTy],
    names: &[TypeName],
    place: usize,
) -> Result<(), AllocError> {
    let (Some(ty), Some(entered)) = (types.get(place), walk.entered.get_mut(place)) else {
        return Ok(());
    };
    if *entered {
        return Ok(());
    }
    *entered = true;
    walk.steps.push(Step::Leave(place))?;
    match ty {
        MemTy::One(_) => {}
        MemTy::Array(_, element) => walk.steps.push(Step::Enter(element.0 as usize))?,
        MemTy::Struct(_, members) => {
            for member in members.as_slice() {
                walk.steps.push(Step::Enter(member.0 as usize))?;
            }
        }
        MemTy::Named(name) => {
            if let Some(id) = definition(names, *name) {
                walk.steps.push(Step::Enter(id.0 as usize))?;
            }
        }
    }
    Ok(())
}
