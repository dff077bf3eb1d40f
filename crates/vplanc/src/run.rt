// All that the program does.

ghost use Rattle.std.specs.Prelude.{◌≡◌, ◌≤◌, ◌↔◌, ℕ, List, None, map, take, string_bytes, IfOk, OnOk, IfErr};
ghost use Rattle.vplan_io.specs.Causes.{Rose, longest, and_then};
ghost use Rattle.ir_types.specs.Denotes.{tree_of};
ghost use Rattle.ir_shape.specs.Modules.{IsModule};
ghost use Rattle.vplanc.specs.declared.answer.Status.TheVariants.{Done, BadWords};
ghost use Rattle.vplanc.specs.Words.{command_of};
ghost use Rattle.vplanc.specs.Answers.{Cause, FileCause, WriteCause, OutHolds, OutLeft, IsMeant, IsPrinted, IsAccepted, IsBeforeOut, AllowedLeft, Delivered, Completes, line_of};

use crate::answer::{Status, Which};
use crate::message::put_line;
use crate::refusal::refused;
use crate::words::file_named;
use ir_check::{Checked, check};
use ir_printer::print_module;
use ir_reader::read_module;
use ir_types::Module;
use std::alloc::Global;
use vplan_io::{Files, Sink, put_text};

// Loads the file and reads its module.
fn module_in<F: Files>(alloc: Global, file: &str, files: &mut F) -> Result<Module, Status>
    ensures told { F.told files.new ≡ F.told files.old }
    ensures later { (name : List ℕ) → F.faults files.old name ≤ F.faults files.new name }
    ensures meant { IfOk result (λ m. IsMeant (F.told files.old file.now) (tree_of m)) }
    ensures is_module { IfOk result IsModule }
    ensures short { OnOk result (F.last files.new ≤ longest) }
    ensures refused { IfErr result (λ s. IsBeforeOut s × FileCause (F.told files.old file.now) (F.faults files.old file.now) (F.faults files.new file.now) (F.last files.new) s) }
{
    let bytes = files.load(alloc, file)?;
    let module = read_module(alloc, bytes.as_slice())?;
    Ok(module)
}

// The module of the file, where it is well-formed.
fn checked_in<F: Files>(alloc: Global, file: &str, files: &mut F) -> Result<Checked, Status>
    ensures told { F.told files.new ≡ F.told files.old }
    ensures later { (name : List ℕ) → F.faults files.old name ≤ F.faults files.new name }
    ensures meant { IfOk result (λ m. IsMeant (F.told files.old file.now) (tree_of m)) }
    ensures short { OnOk result (F.last files.new ≤ longest) }
    ensures refused { IfErr result (λ s. IsBeforeOut s × FileCause (F.told files.old file.now) (F.faults files.old file.now) (F.faults files.new file.now) (F.last files.new) s) }
{
    let module = module_in(alloc, file, files)?;
    match check(alloc, module) {
        Ok(checked) => Ok(checked),
        Err((_, fault)) => Err(refused(alloc, fault)),
    }
}

// The printed text of the file's module.
fn make<F: Files>(alloc: Global, file: &str, files: &mut F) -> Result<Vec<u8>, Status>
    ensures told { F.told files.new ≡ F.told files.old }
    ensures later { (name : List ℕ) → F.faults files.old name ≤ F.faults files.new name }
    ensures made { IfOk result (λ text. IsPrinted (F.told files.old file.now) text.items) }
    ensures short { OnOk result (F.last files.new ≤ longest) }
    ensures refused { IfErr result (λ s. IsBeforeOut s × FileCause (F.told files.old file.now) (F.faults files.old file.now) (F.faults files.new file.now) (F.last files.new) s) }
{
    let checked = checked_in(alloc, file, files)?;
    let mut text = Vec::new(alloc);
    print_module(alloc, checked.module(), &mut text)?;
    Ok(text)
}

// Puts the text into `out`.
fn deliver<O: Sink>(text: &[u8], out: &mut O) -> Status
    ensures out { Delivered (O.taken out.old) (O.taken out.new) text.now result }
    ensures write { WriteCause (O.faults out.old) (O.faults out.new) result }
    ensures later { O.faults out.old ≤ O.faults out.new }
{
    match put_text(out, text) {
        Ok(()) => Status::Done,
        Err(_) => Status::WriteFault(Which::Out),
    }
}

// Prints the module of a file.
fn serve<F: Files, O: Sink>(alloc: Global, file: &str, files: &mut F, out: &mut O) -> Status
    ensures cause { FileCause (F.told files.old file.now) (F.faults files.old file.now) (F.faults files.new file.now) (F.last files.new) result }
    ensures write { WriteCause (O.faults out.old) (O.faults out.new) result }
    ensures out { OutHolds (F.told files.old file.now) (O.taken out.old) (O.taken out.new) result }
    ensures untouched { IsBeforeOut result → out.new ≡ out.old }
    ensures told { F.told files.new ≡ F.told files.old }
    ensures files_later { (name : List ℕ) → F.faults files.old name ≤ F.faults files.new name }
    ensures out_later { O.faults out.old ≤ O.faults out.new }
{
    match make(alloc, file, files) {
        Ok(text) => deliver(text.as_slice(), out),
        Err(status) => status,
    }
}

// The answer to the words, without its line.
fn answer<F: Files, O: Sink>(alloc: Global, words: &[String], files: &mut F, out: &mut O) -> Status
    ensures words { (result ≡ BadWords) ↔ (command_of (map string_bytes words.now) ≡ None) }
    ensures cause { Cause (command_of (map string_bytes words.now)) (F.told files.old) (F.faults files.old) (F.faults files.new) (F.last files.new) result }
    ensures write { WriteCause (O.faults out.old) (O.faults out.new) result }
    ensures out { OutLeft (command_of (map string_bytes words.now)) (F.told files.old) (O.taken out.old) (O.taken out.new) result }
    ensures untouched { IsBeforeOut result → out.new ≡ out.old }
    ensures unread { result ≡ BadWords → files.new ≡ files.old }
    ensures told { F.told files.new ≡ F.told files.old }
    ensures files_later { (name : List ℕ) → F.faults files.old name ≤ F.faults files.new name }
    ensures out_later { O.faults out.old ≤ O.faults out.new }
{
    match file_named(words) {
        Some(file) => serve(alloc, file, files, out),
        None => Status::BadWords,
    }
}

/// All that the program does: prints into `out` the module of the file that the words name, and puts a line into
/// `notes` where it refuses.
pub fn run<F: Files, O: Sink, N: Sink>(
    alloc: Global,
    words: &[String],
    files: &mut F,
    out: &mut O,
    notes: &mut N,
) -> Status
    ensures words { (result ≡ BadWords) ↔ (command_of (map string_bytes words.now) ≡ None) }
    ensures cause { Cause (command_of (map string_bytes words.now)) (F.told files.old) (F.faults files.old) (F.faults files.new) (F.last files.new) result }
    ensures write { WriteCause (O.faults out.old) (O.faults out.new) result }
    ensures complete { Completes (command_of (map string_bytes words.now)) (F.told files.old) (λ name. Rose (F.faults files.old name) (F.faults files.new name)) (Rose (O.faults out.old) (O.faults out.new)) result }

    // What the sinks took. Before `out` has its turn it is as it was, and so are the notes where all is done. Where all is done, the file
    // reads as a tree, what `out` took reads as a tree, and where the first is one of those of which this is claimed by now, it allows the
    // second.
    ensures out { OutLeft (command_of (map string_bytes words.now)) (F.told files.old) (O.taken out.old) (O.taken out.new) result }
    ensures allowed { AllowedLeft (command_of (map string_bytes words.now)) (F.told files.old) (O.taken out.old) (O.taken out.new) result }
    ensures untouched { IsBeforeOut result → out.new ≡ out.old }
    ensures notes { ¬ Rose (N.faults notes.old) (N.faults notes.new) → N.taken notes.new ≡ and_then (N.taken notes.old) (line_of result) }
    ensures notes_front { (n : ℕ) × (N.taken notes.new ≡ and_then (N.taken notes.old) (take n (line_of result))) }
    ensures quiet { result ≡ Done → notes.new ≡ notes.old }

    // What is told of the files stays, and no count of faults falls.
    ensures unread { result ≡ BadWords → files.new ≡ files.old }
    ensures told { F.told files.new ≡ F.told files.old }
    ensures files_later { (name : List ℕ) → F.faults files.old name ≤ F.faults files.new name }
    ensures out_later { O.faults out.old ≤ O.faults out.new }
    ensures notes_later { N.faults notes.old ≤ N.faults notes.new }
{
    let status = answer(alloc, words, files, out);
    put_line(&status, notes);
    status
}
