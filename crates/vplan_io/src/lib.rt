//! Sources of files and sinks of bytes, which count their faults.
#![tactic(auto)]

ghost use Rattle.std.specs.Prelude.{◌≡◌, ◌+◌, ◌≤◌, ℕ, List, Option, IfOk, length, MatchResult};
ghost use Rattle.vplan_io.specs.Causes.{longest, HasCause, IsWhole, LoadCause, Takes};

mod memory;
mod outside;
mod pieces;

pub use memory::{Shelf, SureShelf, SureTray, Tray};
pub use outside::{Folder, Stream};
pub use pieces::{PIECE, put_text, put_three};
use std::alloc::Global;
use thiserror::Error;

/// The most bytes of a file that is loaded.
pub const LONGEST: usize = 16_777_216;

/// Why a load gives no bytes.
#[derive(Debug, Drop, Error)]
pub enum LoadFault {
    /// The source failed, and counted a fault of that name.
    #[error("the file could not be read")]
    Failed,
    /// The file has more than `LONGEST` bytes.
    #[error("the file is too long")]
    TooLong,
    /// There was no memory for the bytes.
    #[error("out of memory")]
    Memory,
}

/// The one refusal of a sink, which counted a fault.
#[derive(Debug, Drop)]
pub struct Failed;

/// Files by name.
pub trait Files {
    /// The bytes of the file of that name, where they are told.
    ghost told: { Self → List ℕ → Option (List ℕ) };
    /// The count of faults of that name's loads.
    ghost faults: { Self → List ℕ → ℕ };
    /// How many bytes the last load took.
    ghost last: { Self → ℕ };

    /// The bytes of the file of that name.
    fn load(&mut self, alloc: Global, name: &str) -> Result<Vec<u8>, LoadFault>
        ensures told { told self.new ≡ told self.old }
        ensures later { (other : List ℕ) → faults self.old other ≤ faults self.new other }
        ensures short { last self.new ≤ longest + 1 }
        ensures size { IfOk result (λ v. last self.new ≡ length v.items) }
        ensures result { MatchResult result (λ v. IsWhole (told self.old name.now) v.items) (LoadCause (told self.old name.now) (faults self.old name.now) (faults self.new name.now) (last self.new)) };
}

/// What takes bytes one after another.
pub trait Sink {
    /// The bytes taken, where they are told.
    ghost taken: { Self → Option (List ℕ) };
    /// The count of puts that failed.
    ghost faults: { Self → ℕ };

    /// Takes the bytes behind those taken before; where it fails, it has taken the front of them. It takes no memory.
    fn put(&mut self, bytes: &[u8]) -> Result<(), Failed>
        ensures bytes { Takes (taken self.old) (taken self.new) bytes.now result }
        ensures cause { HasCause (faults self.old) (faults self.new) result };
}
