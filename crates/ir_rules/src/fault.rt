//! Why a module is not well-formed.

ghost use Rattle.std.specs.Prelude.{◌≡◌};
ghost use Rattle.ir_rules.specs.declared.fault.CheckFault.TheVariants.{Memory};

use ir_types::Name;
use std::alloc::{AllocError, AllocFailed};
use thiserror::Error;

/// A rule that a well-formed module keeps. Rules are tried in this order.
#[derive(Clone, Copy, Debug, PartialEq, Eq)]
pub enum Rule {
    /// No two types and no two symbols have one name, and in no function two locals have one name that is no number.
    DuplicateName,
    /// What is used is defined or declared: each local, each label, each type and each symbol, what is called aside.
    UnknownName,
    /// Operands, results, labels, numbers, alignments and memory types fit their instructions.
    TypeMismatch,
    /// What is called is a function of the call's types, and a name that this project gives a meaning has the signature that goes with
    /// it, and no body.
    UnknownCallee,
    /// A number that is written as the name of a local is above all earlier ones of its function.
    Numbering,
    /// No branch goes to an entry block.
    EntryHasPredecessor,
    /// Phis stand first in their block, and have an entry for each edge into it, an equal one for equal predecessors.
    PhiEdges,
    /// Each path of blocks from the entry to a use passes the definition of what is used.
    NotAvailable,
}

/// What a breach of a rule is said of.
#[derive(Debug, PartialEq, Eq, Drop)]
pub enum Subject {
    /// Something without a name.
    Nothing,
    /// A local: a parameter, a block or a result.
    Local(Name),
    /// A symbol.
    Symbol(Name),
    /// A name of a type.
    TypeName(Name),
}

/// Where a rule is broken.
#[derive(Debug, PartialEq, Eq, Drop)]
pub struct Breach {
    /// The name of the function, none outside functions.
    pub function: Option<Name>,
    /// The name that is repeated, unknown, called, wrongly declared or misnumbered, the entry's, the phi's, or that of the value which is
    /// not available; where types don't fit, the result's, and none of what has no result.
    pub subject: Subject,
    /// The number of the instruction in the function's text, from 0; in heads 0.
    pub place: u32,
}

/// Why a module isn't found to be well-formed.
#[derive(Debug, PartialEq, Eq, Drop, Error)]
pub enum CheckFault {
    /// This rule is the first that is broken, and there it is broken first.
    #[error("a rule is broken")]
    Broken(Rule, Breach),
    /// There was no memory for the checks.
    #[error("out of memory")]
    Memory,
}

impl From<AllocError> for CheckFault {
    ghost from_gives = { λ _ e. e ≡ Memory };

    fn from(_e: AllocError) -> CheckFault {
        CheckFault::Memory
    }
}

impl<T: Drop> From<AllocFailed<T>> for CheckFault {
    ghost from_gives = { λ _ e. e ≡ Memory };

    fn from(_e: AllocFailed<T>) -> CheckFault {
        CheckFault::Memory
    }
}
