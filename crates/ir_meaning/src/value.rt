// What names and memories hold while a module runs.

use lists::Items;

/// A pointer.
#[derive(Clone, Copy, Debug, PartialEq, Eq)]
pub struct Pointer {
    /// The address, below 2^64.
    pub address: u64,
    /// The number of the allocation whose bytes it may reach, if it has one.
    pub allocation: Option<u32>,
}

/// A value.
#[derive(Debug, Drop)]
pub enum Value {
    /// An integer: its width in bits, and the number, below 2^width.
    Int(u32, u64),
    /// A pointer.
    Ptr(Pointer),
    /// The poison of an integer or of a pointer.
    Poison,
    /// A vector: the width of its elements in bits, and each lane's number, or none for a poison lane.
    Lanes(u32, Items<Option<u64>>),
}

/// What an operation gives.
#[derive(Debug, Drop)]
pub enum Outcome {
    /// A value.
    Value(Value),
    /// Nothing: the run is undefined.
    Undefined,
}

/// A byte of a memory.
#[derive(Clone, Copy, Debug, PartialEq, Eq)]
pub enum Byte {
    /// A number.
    Number(u8),
    /// Poison.
    Poison,
    /// One of the parts 0 to 7 of a pointer, the lowest first.
    Part(Pointer, u8),
}

/// An allocation of a memory: bytes that lie behind one another.
#[derive(Debug, Drop)]
pub struct Allocation {
    /// Its number, by which pointers name it.
    pub number: u32,
    /// The address of its first byte.
    pub base: u64,
    /// Whether its bytes may be stored to.
    pub writable: bool,
    /// Its bytes.
    pub bytes: Items<Byte>,
}
