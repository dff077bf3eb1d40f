// Which calls are masked accesses.
ghost use Rattle.std.specs.Prelude.{◌≡◌};
ghost use Rattle.ir_intrinsics.specs.Intrinsics.{meant_by};
ghost use Rattle.ir_check_fits.specs.Masked.{masked_in};

use ir_intrinsics::{Intrinsic, meant_by};
use ir_types::Name;

/// A load or a store of those lanes of a vector that a mask has.
#[derive(Clone, Copy, Debug)]
pub enum Masked {
    /// A load.
    Load,
    /// A store.
    Store,
}

/// The masked access that a function is by its name.
pub fn access_of(name: &Name) -> Option<Masked>
    ensures { result ≡ masked_in (meant_by name.now) }
{
    match meant_by(name) {
        Some(Intrinsic::MaskedLoad(_)) => Some(Masked::Load),
        Some(Intrinsic::MaskedStore(_)) => Some(Masked::Store),
        _ => None,
    }
}
