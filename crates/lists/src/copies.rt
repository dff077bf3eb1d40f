//! `Copies`: what can be copied to an equal value where there is memory.
ghost use Rattle.std.specs.Prelude.{◌≡◌, IfOk};

use std::alloc::AllocError;

/// What can be copied. A value that keeps allocations is copied with their allocators.
pub trait Copies: Sized {
    /// An equal value in memory of its own.
    fn copy(&self) -> Result<Self, AllocError>
        ensures { IfOk result (λ copy. copy ≡ self.now) };
}

impl<T: Copy> Copies for T {
    fn copy(&self) -> Result<T, AllocError> {
        Ok(*self)
    }
}
