// What an instruction works on: the types of its module, and what the local names of its function are given to.
ghost use Rattle.std.specs.Prelude.{◌≡◌, ◌<◌, ◌^◌, nat_lt, length};
ghost use Rattle.std.specs.List.{list_all};
ghost use Rattle.ir_rules.specs.Locals.{Given};
ghost use Rattle.ir_types.specs.Types.{fits_lane};
ghost use Rattle.ir_rules.specs.Operands.{gives, is_block};
ghost use Rattle.ir_check_fits.specs.Roles.{any_passes, has_role};

use crate::locals::{Role, Roles, roles_of};
use crate::operands::is_valued;
use crate::steps::TypeSteps;
use ir_rules::same_type;
use ir_types::{Function, Operand, Ty, ValueId};
use std::alloc::{AllocError, Global};
use std::marker::Model;

// Whether one of some roles is a value of a type.
fn any_gives(roles: &[Role], ty: Ty) -> bool
    ensures { result ≡ any_passes (gives ty) roles.now }
{
    roles.iter().any(|role| match *role {
        Role::Block => false,
        Role::Value(given) => same_type(ty, given),
    })
}

// Whether one of some roles is a block.
fn any_block(roles: &[Role]) -> bool
    ensures { result ≡ any_passes is_block roles.now }
{
    roles.iter().any(|role| matches!(*role, Role::Block))
}

// Whether a number has so many bits.
fn number_fits(width: u32, number: u64) -> bool
    ensures { result ≡ nat_lt number (2 ^ width) }
{
    width >= 64 || number < 1 << width
}

// Whether lanes have so many bits each.
fn lanes_fit(width: u32, lanes: &[Option<u64>]) -> bool
    ensures { result ≡ list_all (fits_lane width) lanes.now }
{
    lanes.iter().all(|lane| match *lane {
        Some(number) => number_fits(width, number),
        None => true,
    })
}

/// What the instructions of a function work on.
#[derive(Drop, Debug)]
pub struct Around<'m> {
    types: &'m TypeSteps<'m>,
    function: &'m Function,
    roles: Vec<Roles>,
}

impl<'m> Model for Around<'m> {
    ghost use Rattle.ir_check_fits.specs.Sites.{Site, AreRoles};

    ghost Value = { Site };

    ghost view = { λ s. record { whole = s.types.now; part = s.function.now } };

    ghost invariant = { λ s. AreRoles (record { whole = s.types.now; part = s.function.now }) s.roles.items };
}

impl<'m> Around<'m> {
    ghost use Rattle.std.specs.Prelude.{◌≡◌, ◌<◌, Bool, length, IfOk};
    ghost use Rattle.ir_rules.specs.Locals.{Given};
    ghost use Rattle.ir_check_fits.specs.Roles.{any_passes};
    ghost use Rattle.ir_types.specs.Denotes.{tables_of};
    ghost use Rattle.ir_shape.specs.Placed.{IsFunctionPlaced};
    ghost use Rattle.ir_rules.specs.Operands.{gives, is_block, fits};
    ghost use Rattle.ir_check_fits.specs.Sites.{Site, locals_at, operand_at, is_given, IsHere};

    /// Around the instructions of a function of a module.
    ///
    /// # Errors
    ///
    /// Where there is no memory.
    pub fn new(
        alloc: Global,
        types: &'m TypeSteps<'m>,
        function: &'m Function,
    ) -> Result<Around<'m>, AllocError>
        requires { IsFunctionPlaced (tables_of types.now) function.now }
        ensures { IfOk result (λ s. s ≡ record { whole = types.now; part = function.now }) }
    {
        let roles = roles_of(alloc, function)?;
        Ok(Around {
            types,
            function,
            roles,
        })
    }

    /// The types of the module.
    pub fn types(&self) -> &TypeSteps<'m>
        ensures { result.now ≡ self.now.whole }
    {
        self.types
    }

    /// The function.
    pub fn function(&self) -> &Function
        ensures { result.now ≡ self.now.part }
    {
        self.function
    }

    // The roles of the name at a place.
    fn roles(&self, id: ValueId) -> &[Role]
        requires { id.0 < length self.now.part.names }
        ensures { (p : Given → Bool) → any_passes p result.now ≡ is_given self.now id.0 p }
    {
        match self.roles.get(id.0 as usize) {
            Some(roles) => roles.as_slice(),
            None => &[],
        }
    }

    /// Whether a local name is given to a block.
    pub fn is_block(&self, id: ValueId) -> bool
        requires { id.0 < length self.now.part.names }
        ensures { result ≡ is_given self.now id.0 is_block }
    {
        any_block(self.roles(id))
    }

    /// Whether an operand has a type.
    pub fn fits(&self, ty: Ty, operand: &Operand) -> bool
        requires { IsHere (length self.now.part.names) operand.now }
        ensures { result ≡ fits (locals_at self.now) ty (operand_at self.now operand.now) }
    {
        match (ty, operand) {
            (_, Operand::Local(id)) => any_gives(self.roles(*id), ty),
            (Ty::Int(width), Operand::Int(number)) => number_fits(width, *number),
            (Ty::Ptr, Operand::Null | Operand::Global(_, _)) => true,
            (_, Operand::Poison) => is_valued(ty),
            (Ty::Vector(count, width), Operand::Lanes(lanes)) => {
                lanes.len() == count as usize && lanes_fit(width, lanes.as_slice())
            }
            _ => false,
        }
    }
}
