// The answers of the program.

ghost use Rattle.std.specs.Prelude.{◌≡◌, ◌≤◌, length};
ghost use Rattle.vplanc.specs.declared.answer.Status.TheVariants.{Memory};
ghost use Rattle.vplanc.specs.Answers.{code_of, load_status, name_of, text_status};

use ir_rules::Rule;
use lists::Text;
use std::alloc::AllocError;
use text_lex::TextFault;
use vplan_io::{LONGEST, LoadFault};

/// A file or a sink that failed.
#[derive(Clone, Copy, Debug, PartialEq, Eq)]
pub enum Which {
    /// The file that holds the module.
    Module,
    /// The sink that takes the printed text.
    Out,
}

impl Which {
    /// Its name in a line of the notes.
    pub fn name(&self) -> &'static str
        ensures name { result.now ≡ name_of self.now }
        ensures short { length result.now ≤ 6 }
    {
        match self {
            Which::Module => "module",
            Which::Out => "out",
        }
    }
}

/// The answer of the program.
#[derive(Debug, Drop, PartialEq, Eq)]
pub enum Status {
    /// The module is printed.
    Done,
    /// The words give no command.
    BadWords,
    /// The file's text is too long, has a token that is none or is left out, reads as no module, or as one that passes a limit.
    Text(TextFault),
    /// The file's module breaks this rule, and no earlier one: the function and the name, as the line has them, and the instruction's place.
    Check(Rule, Text, u32),
    /// The file is not read.
    ReadFault(Which),
    /// The sink did not take the text.
    WriteFault(Which),
    /// There was no memory.
    Memory,
}

impl Status {
    /// The program's exit status.
    pub fn code(&self) -> u8
        ensures { result ≡ code_of self.now }
    {
        match self {
            Status::Done => 0,
            Status::BadWords => 2,
            Status::Text(_) => 3,
            Status::Check(_, _, _) => 4,
            Status::ReadFault(_) => 6,
            Status::WriteFault(_) => 7,
            Status::Memory => 8,
        }
    }
}

impl From<AllocError> for Status {
    ghost from_gives = { λ _ status. status ≡ Memory };

    fn from(_fault: AllocError) -> Status {
        Status::Memory
    }
}

impl From<TextFault> for Status {
    ghost from_gives = { λ fault status. status ≡ text_status fault };

    fn from(fault: TextFault) -> Status {
        match fault {
            TextFault::Memory => Status::Memory,
            fault => Status::Text(fault),
        }
    }
}

impl From<LoadFault> for Status {
    ghost from_gives = { λ fault status. status ≡ load_status fault };

    fn from(fault: LoadFault) -> Status {
        match fault {
            LoadFault::Failed => Status::ReadFault(Which::Module),
            LoadFault::TooLong => Status::Text(TextFault::TextLimit(LONGEST as u64 + 1)),
            LoadFault::Memory => Status::Memory,
        }
    }
}
