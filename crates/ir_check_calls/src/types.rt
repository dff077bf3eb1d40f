// Types side by side.

ghost use Rattle.std.specs.Prelude.{◌≡◌, map};
ghost use Rattle.ir_rules.specs.Callees.{same_types};

use ir_rules::{Typed, same_type};

/// Whether two lists have one type at each place.
pub fn same_types<A: Typed, B: Typed>(some: &[A], others: &[B]) -> bool
    ensures { result ≡ same_types (map A.type_of some.now) (map B.type_of others.now) }
{
    let mut some_left = some;
    let mut others_left = others;
    'more: while let Some((one, some_behind)) = some_left.split_first() {
        let Some((other, others_behind)) = others_left.split_first() else {
            return false;
        };
        if !same_type(one.ty(), other.ty()) {
            return false;
        }
        some_left = some_behind;
        others_left = others_behind;
    }
    others_left.is_empty()
}
