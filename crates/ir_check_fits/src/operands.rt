// Types of operands.
ghost use Rattle.std.specs.Prelude.{◌≡◌};
ghost use Rattle.ir_rules.specs.Operands as rules;
ghost use Rattle.ir_rules.specs.Mismatch.{is_mask_type, is_element_of};

use ir_types::Ty;

/// Whether a type is an integer, or a vector of integers.
pub fn is_integral(ty: Ty) -> bool
    ensures { result ≡ rules.is_integral ty }
{
    matches!(ty, Ty::Int(_) | Ty::Vector(_, _))
}

/// Whether a type is a vector.
pub fn is_vector(ty: Ty) -> bool
    ensures { result ≡ rules.is_vector ty }
{
    matches!(ty, Ty::Vector(_, _))
}

/// Whether a type is one of values.
pub fn is_valued(ty: Ty) -> bool
    ensures { result ≡ rules.is_valued ty }
{
    !matches!(ty, Ty::Void)
}

/// Whether a type is a vector of bits, which isn't loaded or stored.
pub fn is_bits(ty: Ty) -> bool
    ensures { result ≡ rules.is_bits ty }
{
    matches!(ty, Ty::Vector(_, 1))
}

/// Whether a type has the same shape as another, with elements of more bits.
pub fn is_wider(wide: Ty, narrow: Ty) -> bool
    ensures { result ≡ rules.is_wider wide narrow }
{
    match (wide, narrow) {
        (Ty::Int(width), Ty::Int(other_width)) => other_width < width,
        (Ty::Vector(lanes, width), Ty::Vector(other_lanes, other_width)) => {
            lanes == other_lanes && other_width < width
        }
        _ => false,
    }
}

/// Whether a condition of a type chooses among values of another: a bit, or of vectors a bit for each lane.
pub fn is_condition_for(ty: Ty, condition: Ty) -> bool
    ensures { result ≡ rules.is_condition_for ty condition }
{
    match (ty, condition) {
        (_, Ty::Int(width)) => width == 1,
        (Ty::Vector(lanes, _), Ty::Vector(other_lanes, width)) => lanes == other_lanes
            && width == 1,
        _ => false,
    }
}

/// Whether a type is that of a shuffle's mask: lanes of 32 bits.
pub fn is_mask_type(ty: Ty) -> bool
    ensures { result ≡ is_mask_type ty }
{
    matches!(ty, Ty::Vector(_, 32))
}

/// Whether a type is that of a vector's elements, which are integers.
pub fn is_element_of(ty: Ty, element: Ty) -> bool
    ensures { result ≡ is_element_of ty element }
{
    match (ty, element) {
        (Ty::Vector(_, width), Ty::Int(bits)) => bits == width,
        _ => false,
    }
}
