// Tokens that are kept as their texts.

ghost use Rattle.std.specs.Prelude.{◌≡◌, ◌≤◌, ◌++◌, [], drop, length, codes, IfOk};
ghost use Rattle.text_forms.specs.Form.{same_text, is_one_of};
ghost use Rattle.text_lex.specs.Layout.{text_of};
ghost use Rattle.text_lex.specs.KeptText.{is_node, touches, between, kept_behind, kept_pieces, line_pieces};
ghost use Rattle.ir_printer_types.specs.Appends.{Prints};
ghost use Rattle.ir_printer.specs.Print.{kept_then_blank, blank_then_kept, whole_line};

use ir_types::Kept;
use std::alloc::AllocError;
use text_forms::is_one_of;

// Whether a text is a `!`, and that behind it a string or a `{`.
fn is_node(previous: &[u8], text: &[u8]) -> bool
    ensures { result ≡ is_node previous.now text.now }
{
    previous == b"!".as_slice() && (text.starts_with(b"\"") || text == b"{".as_slice())
}

// Whether two neighbours stand with nothing between them.
#[tactic(auto, unfolding(text_lex::specs::KeptText::touches))]
fn touch(previous: &[u8], text: &[u8]) -> bool
    ensures { result ≡ touches previous.now text.now }
{
    is_one_of(&[b",", b")", b"]", b"}", b"(", b"="], text)
        || is_one_of(&[b"(", b"[", b"{", b"="], previous)
        || is_node(previous, text)
}

fn is_equal(text: &[u8]) -> bool
    ensures { result ≡ same_text (codes "=") text.now }
{
    text == b"=".as_slice()
}

// Appends what parts two neighbours.
fn put_between(out: &mut Vec<u8>, previous: &[u8], text: &[u8]) -> Result<(), AllocError>
    ensures { Prints out.old out.new result (between previous.now text.now) }
{
    if !touch(previous, text) {
        out.push(b' ')?;
    }
    Ok(())
}

// Appends the texts from a place on.
fn put_from(out: &mut Vec<u8>, kept: &Kept, start: usize) -> Result<(), AllocError>
    requires { start ≤ length kept.now }
    ensures { Prints out.old out.new result (kept_pieces (drop start kept.now)) }
{
    if start == kept.len() {
        return Ok(());
    }
    out.extend_from_slice(kept.at(start))?;
    for place in start + 1..kept.len() {
        let text = kept.at(place);
        put_between(out, kept.at(place - 1), text)?;
        out.extend_from_slice(text)?;
    }
    Ok(())
}

/// Appends kept texts and a space, or nothing where there are none.
pub(crate) fn put_kept_then_blank(out: &mut Vec<u8>, kept: &Kept) -> Result<(), AllocError>
    ensures { Prints out.old out.new result (kept_then_blank kept.now) }
{
    if kept.is_empty() {
        return Ok(());
    }
    put_from(out, kept, 0)?;
    out.push(b' ')?;
    Ok(())
}

/// Appends a space and kept texts, or nothing where there are none.
pub(crate) fn put_blank_then_kept(out: &mut Vec<u8>, kept: &Kept) -> Result<(), AllocError>
    ensures { Prints out.old out.new result (blank_then_kept kept.now) }
{
    if kept.is_empty() {
        return Ok(());
    }
    out.push(b' ')?;
    put_from(out, kept, 0)
}

/// Appends kept texts behind a token that is none of them.
pub(crate) fn put_kept_behind(out: &mut Vec<u8>, kept: &Kept) -> Result<(), AllocError>
    ensures { Prints out.old out.new result (kept_behind [] kept.now) }
{
    if kept.is_empty() {
        return Ok(());
    }
    put_between(out, b"", kept.at(0))?;
    put_from(out, kept, 0)
}

// Appends the texts of a line up to the first `=`, each with a space behind it, and gives the place of what is left.
fn put_to_equal(out: &mut Vec<u8>, line: &Kept) -> Result<usize, AllocError>
    ensures within { IfOk result (λ place. place ≤ length line.now) }
    ensures text { IfOk result (λ place. out.new.items
        ++ text_of (kept_pieces (drop place line.now))
        ≡ out.old.items ++ text_of (line_pieces line.now)) }
{
    for place in 0..line.len() {
        let text = line.at(place);
        out.extend_from_slice(text)?;
        out.push(b' ')?;
        if is_equal(text) {
            return Ok(place + 1);
        }
    }
    Ok(line.len())
}

/// Appends a kept line and its line feed.
#[tactic(auto, using(ir_printer_types::proofs::Appended::text_of_both, std::proofs::lemmas::Grind::common_steps))]
pub(crate) fn put_line(out: &mut Vec<u8>, line: &Kept) -> Result<(), AllocError>
    ensures { Prints out.old out.new result (whole_line line.now) }
{
    let place = put_to_equal(out, line)?;
    put_from(out, line, place)?;
    out.push(b'\n')?;
    Ok(())
}
