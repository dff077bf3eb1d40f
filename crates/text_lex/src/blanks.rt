//! White space and comments.

ghost use Rattle.std.specs.Prelude.{◌≡◌, ◌≤◌, length};
ghost use Rattle.text_lex.specs.Scan.{line, blank};

use crate::classes::is_space;

/// How many bytes stand up to the next line.
fn line(text: &[u8]) -> usize
    ensures line { result ≡ line text.now }
    ensures within { result ≤ length text.now }
{
    let mut length = 0;
    for byte in text {
        length += 1;
        if *byte == b'\n' || *byte == b'\r' {
            return length;
        }
    }
    length
}

/// How many bytes of white space or of a comment stand here.
pub(crate) fn blank(text: &[u8]) -> usize
    ensures blank { result ≡ blank text.now }
    ensures within { result ≤ length text.now }
{
    let Some((first, rest)) = text.split_first() else {
        return 0;
    };
    if is_space(*first) {
        return 1;
    }
    if *first == b';' {
        return line(rest) + 1;
    }
    0
}
