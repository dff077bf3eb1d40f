// The line of an answer.

ghost use Rattle.std.specs.Prelude.{◌≡◌, ℕ, ◌+◌, ◌≤◌, ◌++◌, codes, length, take};
ghost use Rattle.std.specs.Fmt.{decimal};
ghost use Rattle.vplan_io.specs.Causes.{Rose, and_then};
ghost use Rattle.vplanc.specs.Answers.{count_name, rule_name, line, line_of};
ghost use Rattle.vplanc.specs.declared.answer.Status.TheVariants.{Done};

use crate::answer::Status;
use arrayvec::ArrayString;
use ir_rules::Rule;
use itoa::Buffer;
use text_lex::{Count, TextFault};
use vplan_io::{Sink, put_three};

/// The most bytes of a line.
const LINE: usize = 80;

// A line of a text in three parts. It takes no memory.
fn line_with(head: &str, middle: &str, tail: &str) -> ArrayString<LINE>
    requires { length head.now + length middle.now + length tail.now ≤ 71 }
    ensures { result.bytes ≡ line (head.now ++ middle.now ++ tail.now) }
{
    let mut whole = ArrayString::new();
    whole.push_str("vplanc: ");
    whole.push_str(head);
    whole.push_str(middle);
    whole.push_str(tail);
    whole.push_str("\n");
    whole
}

/// A line in three parts: the middle one may be long.
#[derive(Drop)]
struct Line<'a> {
    head: ArrayString<LINE>,
    word: &'a [u8],
    tail: ArrayString<LINE>,
}

// A line in one part.
fn whole(head: ArrayString<LINE>) -> Line<'static>
    ensures { result.head.bytes ++ result.word.now ++ result.tail.bytes ≡ head.bytes }
{
    Line {
        head,
        word: b"",
        tail: ArrayString::new(),
    }
}

// The line that names a token that is left out.
fn left_out(word: &[u8], place: u32) -> Line<'_>
    ensures { result.head.bytes ++ result.word.now ++ result.tail.bytes ≡ line (codes "text: left out " ++ word.now ++ codes " at " ++ decimal place) }
{
    let mut digits = Buffer::new();
    let mut head = ArrayString::new();
    head.push_str("vplanc: text: left out ");
    let mut tail = ArrayString::new();
    tail.push_str(" at ");
    tail.push_str(digits.format(place));
    tail.push_str("\n");
    Line { head, word, tail }
}

// The name of a rule, in a line of the notes.
fn rule_name(rule: Rule) -> &'static str
    ensures name { result.now ≡ rule_name rule }
    ensures short { length result.now ≤ 21 }
{
    match rule {
        Rule::DuplicateName => "duplicate-name",
        Rule::UnknownName => "unknown-name",
        Rule::TypeMismatch => "type-mismatch",
        Rule::UnknownCallee => "unknown-callee",
        Rule::Numbering => "numbering",
        Rule::EntryHasPredecessor => "entry-has-predecessor",
        Rule::PhiEdges => "phi-edges",
        Rule::NotAvailable => "not-available",
    }
}

// The line that names a rule that is broken.
fn broken(rule: Rule, names: &[u8], place: u32) -> Line<'_>
    ensures { result.head.bytes ++ result.word.now ++ result.tail.bytes ≡ line (codes "check: " ++ rule_name rule ++ codes " " ++ names.now ++ codes " " ++ decimal place) }
{
    let mut digits = Buffer::new();
    let mut head = ArrayString::new();
    head.push_str("vplanc: check: ");
    head.push_str(rule_name(rule));
    head.push_str(" ");
    let mut tail = ArrayString::new();
    tail.push_str(" ");
    tail.push_str(digits.format(place));
    tail.push_str("\n");
    Line {
        head,
        word: names,
        tail,
    }
}

// What is counted, in a line of the notes.
fn name_of(count: Count) -> &'static str
    ensures name { result.now ≡ count_name count }
    ensures short { length result.now ≤ 12 }
{
    match count {
        Count::Functions => "functions",
        Count::Blocks => "blocks",
        Count::Instructions => "instructions",
        Count::Name => "name",
    }
}

// The line of a limit that is passed.
fn limit(count: Count, number: u64) -> ArrayString<LINE>
    ensures { result.bytes ≡ line (codes "text: " ++ count_name count ++ codes " limit " ++ decimal number) }
{
    let mut digits = Buffer::new();
    let mut line = ArrayString::new();
    line.push_str("vplanc: text: ");
    line.push_str(name_of(count));
    line.push_str(" limit ");
    line.push_str(digits.format(number));
    line.push_str("\n");
    line
}

// The line of an answer; it is empty where the program is done.
fn line_for(status: &Status) -> Line<'_>
    ensures { result.head.bytes ++ result.word.now ++ result.tail.bytes ≡ line_of status.now }
{
    let mut digits = Buffer::new();
    match status {
        Status::Done => whole(ArrayString::new()),
        Status::BadWords => whole(line_with("words", "", "")),
        Status::Text(TextFault::BadToken(place)) => {
            whole(line_with("text: bad token at ", digits.format(*place), ""))
        }
        Status::Text(TextFault::LeftOut(word, place)) => left_out(word.as_bytes(), *place),
        Status::Text(TextFault::TextLimit(size)) => {
            whole(line_with("text: ", digits.format(*size), " bytes"))
        }
        Status::Text(TextFault::NoReading(place)) => {
            whole(line_with("text: no reading at ", digits.format(*place), ""))
        }
        Status::Text(TextFault::CountLimit(count, number)) => whole(limit(*count, *number)),
        Status::Check(rule, names, place) => broken(*rule, names.as_bytes(), *place),
        Status::ReadFault(which) => whole(line_with("read fault: ", which.name(), "")),
        Status::WriteFault(which) => whole(line_with("write fault: ", which.name(), "")),
        Status::Text(TextFault::Memory) | Status::Memory => whole(line_with("memory", "", "")),
    }
}

/// Puts the line of an answer into the notes. A fault of theirs changes nothing else.
pub fn put_line<N: Sink>(status: &Status, notes: &mut N)
    ensures whole { ¬ Rose (N.faults notes.old) (N.faults notes.new) → N.taken notes.new ≡ and_then (N.taken notes.old) (line_of status.now) }
    ensures front { (n : ℕ) × (N.taken notes.new ≡ and_then (N.taken notes.old) (take n (line_of status.now))) }
    ensures none { status.now ≡ Done → notes.new ≡ notes.old }
    ensures later { N.faults notes.old ≤ N.faults notes.new }
{
    let line = line_for(status);
    let _ = put_three(
        notes,
        line.head.as_str().as_bytes(),
        line.word,
        line.tail.as_str().as_bytes(),
    );
}
