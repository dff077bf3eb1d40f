// A text put in pieces.

ghost use Rattle.std.specs.Prelude.{◌≡◌, ◌++◌, []};
ghost use Rattle.vplan_io.specs.Causes.{HasCause, Takes};

use crate::{Failed, Sink};

/// The most bytes of one put.
pub const PIECE: usize = 4096;

/// Puts a text in pieces of `PIECE` bytes, the last one shorter; an empty text is no put.
pub fn put_text<S: Sink>(sink: &mut S, text: &[u8]) -> Result<(), Failed>
    ensures bytes { Takes (S.taken sink.old) (S.taken sink.new) text.now result }
    ensures cause { HasCause (S.faults sink.old) (S.faults sink.new) result }
    ensures none { text.now ≡ [] → sink.new ≡ sink.old }
{
    let mut done = 0;
    while done < text.len() {
        let end = done + PIECE.min(text.len() - done);
        sink.put(&text[done..end])?;
        done = end;
    }
    Ok(())
}

/// Puts three texts, one behind the other; where one fails, no later one is put.
pub fn put_three<S: Sink>(
    sink: &mut S,
    first: &[u8],
    middle: &[u8],
    last: &[u8],
) -> Result<(), Failed>
    ensures bytes { Takes (S.taken sink.old) (S.taken sink.new) (first.now ++ middle.now ++ last.now) result }
    ensures cause { HasCause (S.faults sink.old) (S.faults sink.new) result }
    ensures none { first.now ++ middle.now ++ last.now ≡ [] → sink.new ≡ sink.old }
{
    put_text(sink, first)?;
    put_text(sink, middle)?;
    put_text(sink, last)
}
