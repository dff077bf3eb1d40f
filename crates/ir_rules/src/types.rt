// Types, and what has one.

ghost use Rattle.std.specs.Prelude.{◌≡◌};
ghost use Rattle.ir_types.specs.declared.inst.Ty.{Ty};
ghost use Rattle.ir_types.specs.declared.inst.Ty.TheVariants.{Int};
ghost use Rattle.ir_rules.specs.Operands.{same_type};

use ir_types::{Actual, Param, Ty};

/// Something with a type.
pub trait Typed {
    /// The type.
    ghost type_of: { Self → Ty };

    /// The type.
    fn ty(&self) -> Ty
        ensures { result ≡ type_of self.now };
}

impl Typed for Ty {
    ghost type_of = { λ t. t };

    fn ty(&self) -> Ty {
        *self
    }
}

/// A width as the integers of so many bits.
impl Typed for u32 {
    ghost type_of = { λ w. Int w };

    fn ty(&self) -> Ty {
        Ty::Int(*self)
    }
}

impl Typed for Param {
    ghost type_of = { λ p. p.ty };

    fn ty(&self) -> Ty {
        self.ty
    }
}

impl Typed for Actual {
    ghost type_of = { λ a. a.ty };

    fn ty(&self) -> Ty {
        self.ty
    }
}

/// Whether two types are one.
pub fn same_type(one: Ty, other: Ty) -> bool
    ensures { result ≡ same_type one other }
{
    one == other
}
