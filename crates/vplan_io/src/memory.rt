// Files and sinks in memory.

ghost use Rattle.std.specs.Prelude.{◌≡◌, ◌≢◌, ◌+◌, ◌<◌, ◌≤◌, ◌↔◌, ℕ, List, [], length, min, None, Some, Err, IsTrue, IsErr, IfOk, OnErr, MatchResult, if◌then◌else◌, string_bytes, vec_capacity, vec_len};
ghost use Rattle.std.specs.Option.{option_map};
ghost use Rattle.vplan_io.specs.Causes.{longest, raised, HasCause, IsWhole, LoadCause, Takes};
ghost use Rattle.vplan_io.specs.Shelves.{file_of, or_empty};

use crate::{Failed, Files, LONGEST, LoadFault, Sink};
use std::alloc::{AllocError, Global};

/// Files in memory, with the numbers of the loads that fail. An absent name is a fault.
#[derive(Drop)]
pub struct Shelf {
    files: Vec<(String, Vec<u8>)>,
    failing: Vec<u64>,
    loads: u64,
    faults: u64,
    last: u64,
}

impl Shelf {
    ghost use Rattle.vplan_io.specs.Memory.{told_by_shelf, failing_loads, loads_made, shelf_faults, shelf_last};

    /// A shelf of these files, the first of each name. Its loads are counted from 1, and those in `failing` fail.
    pub fn new(files: Vec<(String, Vec<u8>)>, failing: Vec<u64>) -> Shelf
        ensures told { told_by_shelf result ≡ file_of string_bytes (λ v. v.items) files.items }
        ensures failing { failing_loads result ≡ failing.items }
        ensures loads { loads_made result ≡ 0 }
        ensures faults { shelf_faults result ≡ 0 }
        ensures last { shelf_last result ≡ 0 }
    {
        Shelf {
            files,
            failing,
            loads: 0,
            faults: 0,
            last: 0,
        }
    }
}

impl Files for Shelf {
    ghost use Rattle.vplan_io.specs.Memory.{told_by_shelf, failing_loads, loads_made, shelf_faults, shelf_last, load_fails};

    ghost told = { told_by_shelf };

    ghost faults = { λ shelf _. shelf_faults shelf };

    ghost last = { shelf_last };

    fn load(&mut self, alloc: Global, name: &str) -> Result<Vec<u8>, LoadFault>
        ensures told { told_by_shelf self.new ≡ told_by_shelf self.old }
        ensures later { (_ : List ℕ) → shelf_faults self.old ≤ shelf_faults self.new }
        ensures short { shelf_last self.new ≤ longest + 1 }
        ensures size { IfOk result (λ v. shelf_last self.new ≡ length v.items) }
        ensures result { MatchResult result (λ v. IsWhole (told_by_shelf self.old name.now) v.items) (LoadCause (told_by_shelf self.old name.now) (shelf_faults self.old) (shelf_faults self.new) (shelf_last self.new)) }

        // The numbers in `failing` and the absent names are all that fails, and each is counted once.
        ensures failing { failing_loads self.new ≡ failing_loads self.old }
        ensures loads { loads_made self.new ≡ raised (loads_made self.old) }
        ensures failed { (result ≡ Err LoadFault.Failed) ↔ IsTrue (load_fails self.old name.now) }
        ensures faults { shelf_faults self.new ≡ (if load_fails self.old name.now then raised (shelf_faults self.old) else shelf_faults self.old) }
    {
        self.loads = self.loads.saturating_add(1);
        if self.failing.contains(&self.loads) {
            self.faults = self.faults.saturating_add(1);
            self.last = 0;
            return Err(LoadFault::Failed);
        }
        match find(self.files.as_slice(), name) {
            None => {
                self.faults = self.faults.saturating_add(1);
                self.last = 0;
                Err(LoadFault::Failed)
            }
            Some(bytes) => {
                self.last = length_taken(bytes.as_slice());
                copied(alloc, bytes.as_slice())
            }
        }
    }
}

// The bytes of the first file of that name.
fn find<'a>(files: &'a [(String, Vec<u8>)], name: &str) -> Option<&'a Vec<u8>>
    ensures { option_map (λ v. v.now.items) result ≡ file_of string_bytes (λ v. v.items) files.now name.now }
{
    for file in files {
        if file.0.as_str() == name {
            return Some(&file.1);
        }
    }
    None
}

// How many bytes of a file a load takes.
fn length_taken(bytes: &[u8]) -> u64
    ensures { result ≡ min (length bytes.now) (longest + 1) }
{
    bytes.len().min(LONGEST + 1) as u64
}

// A copy of the bytes, if a load may give so many.
fn copied(alloc: Global, bytes: &[u8]) -> Result<Vec<u8>, LoadFault>
    ensures copy { IfOk result (λ v. v.items ≡ bytes.now) }
    ensures long { (result ≡ Err LoadFault.TooLong) ↔ (longest < length bytes.now) }
    ensures refused { result ≢ Err LoadFault.Failed }
{
    if bytes.len() > LONGEST {
        return Err(LoadFault::TooLong);
    }
    match Vec::from_slice(alloc, bytes) {
        Ok(copy) => Ok(copy),
        Err(_) => Err(LoadFault::Memory),
    }
}

/// Files in memory that never fail. An absent name is the empty file.
#[derive(Drop)]
pub struct SureShelf {
    files: Vec<(String, Vec<u8>)>,
    last: u64,
}

impl SureShelf {
    ghost use Rattle.vplan_io.specs.Memory.{told_by_sure_shelf};

    /// A shelf of these files, the first of each name.
    pub fn new(files: Vec<(String, Vec<u8>)>) -> SureShelf
        ensures { (name : List ℕ) → told_by_sure_shelf result name ≡ Some (or_empty (file_of string_bytes (λ v. v.items) files.items name)) }
    {
        SureShelf { files, last: 0 }
    }
}

impl Files for SureShelf {
    ghost use Rattle.vplan_io.specs.Memory.{told_by_sure_shelf};

    ghost told = { told_by_sure_shelf };

    ghost faults = { λ _ _. 0 };

    ghost last = { λ shelf. shelf.last };

    fn load(&mut self, alloc: Global, name: &str) -> Result<Vec<u8>, LoadFault> {
        match find(self.files.as_slice(), name) {
            None => {
                self.last = 0;
                Ok(Vec::new(alloc))
            }
            Some(bytes) => {
                self.last = length_taken(bytes.as_slice());
                copied(alloc, bytes.as_slice())
            }
        }
    }
}

/// A sink in memory, with the numbers of the puts that fail and take nothing.
#[derive(Drop)]
pub struct Tray {
    bytes: Vec<u8>,
    room: usize,
    failing: Vec<u64>,
    puts: u64,
    faults: u64,
    ghost held: { vec_len bytes ≤ room },
    ghost backed: { room ≤ vec_capacity bytes },
}

impl Tray {
    ghost use Rattle.vplan_io.specs.Memory.{tray_bytes, tray_room, failing_puts, puts_made, tray_faults};

    /// A tray with room for so many bytes. Its puts are counted from 1, and those in `failing` fail.
    pub fn with_room(alloc: Global, room: usize, failing: Vec<u64>) -> Result<Tray, AllocError>
        ensures bytes { IfOk result (λ tray. tray_bytes tray ≡ []) }
        ensures room { IfOk result (λ tray. tray_room tray ≡ room) }
        ensures failing { IfOk result (λ tray. failing_puts tray ≡ failing.items) }
        ensures puts { IfOk result (λ tray. puts_made tray ≡ 0) }
        ensures faults { IfOk result (λ tray. tray_faults tray ≡ 0) }
    {
        let bytes = Vec::with_capacity(alloc, room)?;
        Ok(Tray {
            bytes,
            room,
            failing,
            puts: 0,
            faults: 0,
        })
    }

    /// The bytes that it took.
    pub fn bytes(&self) -> &[u8]
        ensures { result.now ≡ tray_bytes self.now }
    {
        self.bytes.as_slice()
    }
}

impl Sink for Tray {
    ghost use Rattle.vplan_io.specs.Memory.{tray_bytes, tray_room, failing_puts, puts_made, tray_faults, put_fails};

    ghost taken = { λ tray. Some (tray_bytes tray) };

    ghost faults = { tray_faults };

    fn put(&mut self, bytes: &[u8]) -> Result<(), Failed>
        ensures bytes { Takes (Some (tray_bytes self.old)) (Some (tray_bytes self.new)) bytes.now result }
        ensures cause { HasCause (tray_faults self.old) (tray_faults self.new) result }

        // The numbers in `failing` and want of room are all that fails, and such a put takes nothing.
        ensures room { tray_room self.new ≡ tray_room self.old }
        ensures failing { failing_puts self.new ≡ failing_puts self.old }
        ensures puts { puts_made self.new ≡ raised (puts_made self.old) }
        ensures failed { IsErr result ↔ IsTrue (put_fails self.old bytes.now) }
        ensures nothing { OnErr result (tray_bytes self.new ≡ tray_bytes self.old) }
        ensures faults { tray_faults self.new ≡ (if put_fails self.old bytes.now then raised (tray_faults self.old) else tray_faults self.old) }
    {
        self.puts = self.puts.saturating_add(1);
        let fails = self.failing.contains(&self.puts) || self.room - self.bytes.len() < bytes.len();
        if fails || self.bytes.extend_from_slice(bytes).is_err() {
            self.faults = self.faults.saturating_add(1);
            return Err(Failed);
        }
        Ok(())
    }
}

/// A sink that takes everything, drops it and tells nothing.
#[derive(Drop)]
pub struct SureTray;

impl SureTray {
    /// A sink with no fault, now and ever.
    pub fn new() -> SureTray
        ensures told { ⟦<SureTray as Sink>⟧.taken result ≡ None }
        ensures faults { ⟦<SureTray as Sink>⟧.faults result ≡ 0 }
    {
        SureTray
    }
}

impl Sink for SureTray {
    ghost taken = { λ _. None };

    ghost faults = { λ _. 0 };

    fn put(&mut self, _bytes: &[u8]) -> Result<(), Failed> {
        Ok(())
    }
}
