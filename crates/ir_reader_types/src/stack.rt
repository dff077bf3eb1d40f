// What a memory type that is being read stands in.

ghost use Rattle.std.specs.Prelude.{◌≡◌, ◌<◌, ◌≤◌, ◌-◌, ◌∷◌, ◌++◌, [], length, take, drop, IfOk, OnOk, OnErr};

use ir_types::{MemTy, TypeId};
use lists::Items;
use std::alloc::{AllocError, Global};
use std::marker::Model;
use text_forms::Around;

/// An array with the number of its elements, or a struct, packed or not, with the number of its members so far.
#[derive(Clone, Copy, Debug)]
enum Level {
    Array(u64),
    Struct(bool, u32),
}

/// The arrays and structs that have begun and have no end yet, each in the one before it.
#[derive(Debug, Drop)]
pub struct Stack {
    levels: Vec<Level>,
    // the members of all structs, the innermost last
    members: Vec<TypeId>,
}

impl Model for Stack {
    ghost use Rattle.std.specs.Prelude.{List, length, reverse, ◌≤◌};
    ghost use Rattle.ir_reader_types.specs.Frames.{Frame};
    ghost use Rattle.ir_reader_types.specs.Levels.{frames_of, member_count};

    ghost Value = { List Frame };

    ghost view = { λ s. frames_of (reverse s.levels.items) s.members.items };

    ghost invariant = { λ s. member_count (reverse s.levels.items) ≤ length s.members.items };
}

// The last so many members and one behind them, which are taken out.
fn take_members(
    alloc: Global,
    members: &mut Vec<TypeId>,
    count: u32,
    last: TypeId,
) -> Result<Vec<TypeId>, AllocError>
    requires { count ≤ length members.old.items }
    ensures taken { IfOk result (λ taken. taken.items ≡ drop (length members.old.items - count) members.old.items ++ last ∷ []) }
    ensures rest { OnOk result (members.new.items ≡ take (length members.old.items - count) members.old.items) }
    ensures err { OnErr result (length members.old.items ≤ length members.new.items) }
{
    let rest = members.len() - count as usize;
    members.push(last)?;
    let taken = Vec::from_slice(alloc, &members[rest..])?;
    members.truncate(rest);
    Ok(taken)
}

impl Stack {
    ghost use Rattle.ir_reader_types.specs.Frames.{in_array, in_struct, innermost};
    ghost use Rattle.ir_reader_types.specs.Levels.{Adds, Closes};

    /// Nothing that has begun.
    pub fn new(alloc: Global) -> Stack
        ensures { result ≡ [] }
    {
        Stack {
            levels: Vec::new(alloc),
            members: Vec::new(alloc),
        }
    }

    /// What the next type is inside of.
    pub fn innermost(&self) -> Option<Around>
        ensures { result ≡ innermost self.now }
    {
        match self.levels.last() {
            Some(Level::Array(_)) => Some(Around::InArray),
            Some(Level::Struct(packed, _)) => Some(Around::InStruct(*packed)),
            None => None,
        }
    }

    /// An array of so many elements begins.
    pub fn push_array(&mut self, count: u64) -> Result<(), AllocError>
        ensures ok { OnOk result (self.new ≡ in_array count ∷ self.old) }
    {
        self.levels.push(Level::Array(count))?;
        Ok(())
    }

    /// A struct begins, packed or not.
    pub fn push_struct(&mut self, packed: bool) -> Result<(), AllocError>
        ensures ok { OnOk result (self.new ≡ in_struct packed [] ∷ self.old) }
    {
        self.levels.push(Level::Struct(packed, 0))?;
        Ok(())
    }

    /// The innermost struct has one more member. An array stays as it is.
    pub fn add(&mut self, member: TypeId) -> Result<(), AllocError>
        requires { 0 < length self.old }
        ensures ok { OnOk result (Adds self.old member self.new) }
    {
        match self.levels.pop() {
            Some(Level::Struct(packed, count)) => {
                if count == u32::MAX {
                    return Err(AllocError);
                }
                self.members.push(member)?;
                self.levels.push(Level::Struct(packed, count + 1))?;
            }
            Some(level) => self.levels.push(level)?,
            None => unreachable!(),
        }
        Ok(())
    }

    /// The innermost array or struct ends, with this as its last part: its type.
    pub fn close(&mut self, alloc: Global, last: TypeId) -> Result<MemTy, AllocError>
        requires { 0 < length self.old }
        ensures ok { IfOk result (λ t. Closes self.old last t self.new) }
    {
        match self.levels.pop() {
            Some(Level::Array(count)) => Ok(MemTy::Array(count, last)),
            Some(Level::Struct(packed, count)) => {
                let members = take_members(alloc, &mut self.members, count, last)?;
                Ok(MemTy::Struct(packed, Items::from_vec(members)))
            }
            None => unreachable!(),
        }
    }
}
