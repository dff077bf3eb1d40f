//! Reads a module from a file and prints it.
#![tactic(auto)]

mod answer;
mod message;
mod refusal;
mod run;
mod words;

use crate::answer::Status;
use crate::run::run;
use std::env;
use std::io::ErrorKind;
use std::process::ExitCode;
use vplan_io::{Folder, Stream};

// The words behind the program's name; else the status to end with, without a line.
fn words_given(rt: &HostRuntime) -> Result<Vec<String>, Status> {
    let args = match env::args(rt) {
        Ok(args) => args,
        Err(fault) if fault.kind() == ErrorKind::OutOfMemory => return Err(Status::Memory),
        Err(_) => return Err(Status::BadWords),
    };
    match args.skip(1).collect(rt.alloc()) {
        Ok(words) => Ok(words),
        Err(_) => Err(Status::Memory),
    }
}

fn main(rt: HostRuntime) -> ExitCode {
    let words = match words_given(&rt) {
        Ok(words) => words,
        Err(status) => return ExitCode::from(status.code()),
    };
    let mut files = Folder::new(&rt);
    let mut out = Stream::new(rt.stdout());
    let mut notes = Stream::new(rt.stderr());
    let status = run(
        rt.alloc(),
        words.as_slice(),
        &mut files,
        &mut out,
        &mut notes,
    );
    ExitCode::from(status.code())
}
