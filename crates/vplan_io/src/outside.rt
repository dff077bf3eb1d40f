// Files and sinks outside the program. Nothing is told of their content.

ghost use Rattle.std.specs.Prelude.{◌≡◌, ◌+◌, ◌≤◌, ℕ, List, None, vec_len, take, IfOk, OnErr};
ghost use Rattle.std.specs.Io.{ReadsAtMost, WritesAtMost};
ghost use Rattle.std.specs.Io.KnownBytes.{Appends, Keeps};
ghost use Rattle.vplan_io.specs.Causes.{longest, HasCause, Takes, Writes};

use crate::{Failed, Files, LONGEST, LoadFault, Sink};
use std::alloc::Global;
use std::io::{ErrorKind, Read, Write};
use std::{fs, io, rt};

// The most bytes of one read.
const CHUNK: usize = 4096;

// How often a read or a write is tried again where a signal interrupts it.
const RETRIES: u32 = 1000;

/// Real files. A missing file is a fault, and each fault is counted for every name.
#[derive(Drop)]
pub struct Folder<R: rt::Files> {
    rt: R,
    faults: u64,
    last: u64,
}

impl<R: rt::Files> Folder<R> {
    /// The files that the runtime opens, with no fault so far.
    pub fn new(rt: R) -> Folder<R>
        ensures faults { (name : List ℕ) → ⟦<Folder<R> as Files>⟧.faults result name ≡ 0 }
        ensures last { ⟦<Folder<R> as Files>⟧.last result ≡ 0 }
    {
        Folder {
            rt,
            faults: 0,
            last: 0,
        }
    }
}

impl<R: rt::Files> Files for Folder<R> {
    ghost told = { λ _ _. None };

    ghost faults = { λ folder _. folder.faults };

    ghost last = { λ folder. folder.last };

    fn load(&mut self, alloc: Global, name: &str) -> Result<Vec<u8>, LoadFault> {
        let mut bytes = Vec::new(alloc);
        let outcome = read_file(&self.rt, name, &mut bytes);
        self.last = bytes.len() as u64;
        match outcome {
            Ok(()) => {
                if bytes.len() > LONGEST {
                    Err(LoadFault::TooLong)
                } else {
                    Ok(bytes)
                }
            }
            Err(ReadFault::Memory) => Err(LoadFault::Memory),
            Err(ReadFault::Failed) => {
                self.faults = self.faults.saturating_add(1);
                Err(LoadFault::Failed)
            }
        }
    }
}

// Why a file is not read.
#[derive(Debug, Drop)]
enum ReadFault {
    Failed,
    Memory,
}

// Reads the file of that name behind the bytes.
fn read_file<R: rt::Files>(rt: &R, name: &str, bytes: &mut Vec<u8>) -> Result<(), ReadFault>
    requires { vec_len bytes.old ≤ longest + 1 }
    ensures { vec_len bytes.new ≤ longest + 1 }
{
    match fs::open(rt, name) {
        Ok(mut file) => read_from(&mut file, bytes),
        Err(_) => Err(ReadFault::Failed),
    }
}

// Reads to the end, or until there is one byte more than a load may have.
fn read_from<R: Read>(reader: &mut R, bytes: &mut Vec<u8>) -> Result<(), ReadFault>
    requires { vec_len bytes.old ≤ longest + 1 }
    ensures { vec_len bytes.new ≤ longest + 1 }
{
    let mut buf = [0u8; CHUNK];
    while bytes.len() <= LONGEST {
        let room = CHUNK.min(LONGEST + 1 - bytes.len());
        match read_some(reader, &mut buf[..room]) {
            Ok(0) => return Ok(()),
            Ok(n) => {
                if bytes.extend_from_slice(&buf[..n]).is_err() {
                    return Err(ReadFault::Memory);
                }
            }
            Err(_) => return Err(ReadFault::Failed),
        }
    }
    Ok(())
}

// One read, tried again where it is interrupted.
fn read_some<R: Read>(reader: &mut R, buf: &mut [u8]) -> io::Result<usize>
    ensures { ReadsAtMost result buf.new }
{
    for _ in 0..RETRIES {
        match reader.read(buf) {
            Err(fault) if fault.kind() == ErrorKind::Interrupted => {}
            outcome => return outcome,
        }
    }
    reader.read(buf)
}

/// A real stream of output. A write that takes nothing of a piece that isn't empty is a fault.
#[derive(Drop)]
pub struct Stream<W: Write> {
    /// What takes the bytes.
    pub writer: W,
    faults: u64,
}

impl<W: Write> Stream<W> {
    /// The stream over a writer, with no fault so far.
    pub fn new(writer: W) -> Stream<W>
        ensures writer { result.writer ≡ writer }
        ensures faults { ⟦<Stream<W> as Sink>⟧.faults result ≡ 0 }
    {
        Stream { writer, faults: 0 }
    }
}

impl<W: Write> Sink for Stream<W> {
    ghost taken = { λ _. None };

    ghost faults = { λ stream. stream.faults };

    fn put(&mut self, bytes: &[u8]) -> Result<(), Failed>
        ensures bytes { Takes None None bytes.now result }
        ensures cause { HasCause (⟦<Stream<W> as Sink>⟧.faults self.old) (⟦<Stream<W> as Sink>⟧.faults self.new) result }
        ensures written { Writes (W.contents self.old.writer) (W.contents self.new.writer) bytes.now result }
    {
        let outcome = write_whole(&mut self.writer, bytes);
        if outcome.is_err() {
            self.faults = self.faults.saturating_add(1);
        }
        outcome
    }
}

// Writes the bytes, or the front of them.
fn write_whole<W: Write>(writer: &mut W, bytes: &[u8]) -> Result<(), Failed>
    ensures { Writes (W.contents writer.old) (W.contents writer.new) bytes.now result }
{
    let mut done = 0;
    while done < bytes.len() {
        match write_some(writer, &bytes[done..]) {
            Ok(0) => return Err(Failed),
            Ok(n) => done += n,
            Err(_) => return Err(Failed),
        }
    }
    Ok(())
}

// One write, tried again where it is interrupted.
fn write_some<W: Write>(writer: &mut W, bytes: &[u8]) -> io::Result<usize>
    ensures bound { WritesAtMost result bytes.now }
    ensures ok { IfOk result (λ n. Appends (W.contents writer.old) (W.contents writer.new) (take n bytes.now)) }
    ensures err { OnErr result (Keeps (W.contents writer.old) (W.contents writer.new)) }
{
    for _ in 0..RETRIES {
        match writer.write(bytes) {
            Err(fault) if fault.kind() == ErrorKind::Interrupted => {}
            outcome => return outcome,
        }
    }
    writer.write(bytes)
}
