//! Runs of the bytes of names, each of which is scanned once.

ghost use Rattle.std.specs.Prelude.{◌<◌, length};
ghost use Rattle.text_lex.specs.Scan.{TellsColon};

use crate::classes::has;
use text_forms::Class;

/// What is known of the run of bytes of a name in which a place stands: where it ends, its next byte with it,
/// and whether that byte is a colon.
#[derive(Clone, Copy, Debug)]
pub(crate) struct NameRun {
    pub(crate) end: usize,
    pub(crate) colon: bool,
}

fn run_from(text: &[u8], place: usize) -> NameRun
    requires { place < length text.now }
    ensures colon { TellsColon text.now place result }
    ensures beyond { place < result.end }
{
    for i in place..text.len() {
        if !has(Class::NamePart, text[i]) {
            return NameRun {
                end: i + 1,
                colon: text[i] == b':',
            };
        }
    }
    NameRun {
        end: text.len(),
        colon: false,
    }
}

/// The run in which the place stands, which is scanned only where the known one ends before it.
pub(crate) fn run_at(text: &[u8], place: usize, known: NameRun) -> NameRun
    requires within { place < length text.now }
    requires known { TellsColon text.now place known }
    ensures colon { TellsColon text.now place result }
    ensures beyond { place < result.end }
{
    if place < known.end {
        known
    } else {
        run_from(text, place)
    }
}
