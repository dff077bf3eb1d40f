// What the local names of a function are given to.
ghost use Rattle.std.specs.Prelude.{◌≡◌, ◌<◌, ◌||◌, ℕ, Bool, false, IsTrue, length, IfOk, OnOk, Contains, slice_index_or, []};
ghost use Rattle.std.specs.List.{list_any};
ghost use Rattle.ir_types.specs.Names.{IsTable};
ghost use Rattle.ir_rules.specs.Locals.{Given};
ghost use Rattle.ir_check_fits.specs.Roles.{as_given, same_role, any_passes, has_role, AddsRoles, is_there, at_param, at_result, at_block, at_function};

use ir_rules::same_type;
use ir_types::{Block, Function, Inst, Param, Ty, ValueId};
use lists::Few;
use std::alloc::{AllocError, Global};

/// What a local name is given to.
#[derive(Clone, Copy, Debug, Default)]
pub enum Role {
    /// A block.
    #[default]
    Block,
    /// A value of a type.
    Value(Ty),
}

/// The roles of a name, each once: a number may be given several times.
pub type Roles = Few<Role, 1>;

// For each of so many names no role.
fn no_roles(alloc: Global, count: usize) -> Result<Vec<Roles>, AllocError>
    ensures length { IfOk result (λ lists. length lists.items ≡ count) }
    ensures empty { IfOk result (λ lists. (i : ℕ) (p : Given → Bool)
        → has_role lists.items i p ≡ false) }
{
    let mut lists = Vec::new(alloc);
    for _ in 0..count {
        lists.push(Few::new(alloc))?;
    }
    Ok(lists)
}

// Whether two roles are one.
fn is_same(one: Role, other: Role) -> bool
    ensures { result ≡ same_role one other }
{
    match (one, other) {
        (Role::Block, Role::Block) => true,
        (Role::Value(ty), Role::Value(other_ty)) => same_type(ty, other_ty),
        _ => false,
    }
}

// Adds a role where it isn't there.
fn add(roles: &mut Roles, role: Role) -> Result<(), AllocError>
    ensures { OnOk result ((p : Given → Bool)
        → any_passes p roles.new ≡ (any_passes p roles.old || p (as_given role))) }
{
    if roles.as_slice().iter().any(|known| is_same(*known, role)) {
        return Ok(());
    }
    roles.push(role)
}

// Gives a role to the name at a place.
fn give(lists: &mut [Roles], id: ValueId, role: Role) -> Result<(), AllocError>
    ensures { OnOk result (AddsRoles lists.old lists.new (λ i p. is_there i p id (as_given role))) }
{
    let place = id.0 as usize;
    if place < lists.len() {
        add(&mut lists[place], role)?;
    }
    Ok(())
}

// Gives their types to the results of instructions.
fn give_results(lists: &mut [Roles], insts: &[Inst]) -> Result<(), AllocError>
    ensures { OnOk result (AddsRoles lists.old lists.new
        (λ i p. list_any (at_result i p) insts.now)) }
{
    for inst in insts {
        if let Some(id) = inst.result {
            give(lists, id, Role::Value(inst.ty))?;
        }
    }
    Ok(())
}

// Gives their roles to the names of blocks and of what is in them.
fn give_blocks(lists: &mut [Roles], blocks: &[Block]) -> Result<(), AllocError>
    ensures { OnOk result (AddsRoles lists.old lists.new
        (λ i p. list_any (at_block i p) blocks.now)) }
{
    for block in blocks {
        give(lists, block.name, Role::Block)?;
        give_results(lists, block.insts.as_slice())?;
    }
    Ok(())
}

// Gives their types to parameters.
fn give_params(lists: &mut [Roles], params: &[Param]) -> Result<(), AllocError>
    ensures { OnOk result (AddsRoles lists.old lists.new
        (λ i p. list_any (at_param i p) params.now)) }
{
    for param in params {
        give(lists, param.name, Role::Value(param.ty))?;
    }
    Ok(())
}

/// The roles of each of a function's names.
///
/// # Errors
///
/// Where there is no memory.
pub fn roles_of(alloc: Global, function: &Function) -> Result<Vec<Roles>, AllocError>
    ensures roles { IfOk result (λ lists. (i : ℕ) (p : Given → Bool) → i < length function.now.names
        → has_role lists.items i p ≡ at_function i p function.now) }
    ensures table { IsTable function.now.names }
{
    let mut lists = no_roles(alloc, function.names.len())?;
    give_params(&mut lists, function.params.as_slice())?;
    give_blocks(&mut lists, function.body.as_slice())?;
    Ok(lists)
}
