// The bytes of names and of numbers in digits.

ghost use Rattle.std.specs.Prelude.{◌≡◌, ◌<◌, [], decimal};
ghost use Rattle.text_forms.specs.Lexical.{is_digit, begins_name};
ghost use Rattle.text_lex.specs.Names.{is_plain_name};
ghost use Rattle.ir_printer_types.specs.Appends.{Appends};
ghost use Rattle.ir_printer_types.specs.Texts.{hex_digit, is_escaped, escaped_byte, quoted, name_text};

use ir_types::Name;
use itoa::Buffer;
use std::alloc::AllocError;

/// Appends a number in digits.
pub fn put_digits(out: &mut Vec<u8>, number: u64) -> Result<(), AllocError>
    ensures { Appends out.old out.new result (decimal number) }
{
    let mut buffer = Buffer::new();
    out.extend_from_slice(buffer.format(number).as_bytes())
}

fn may_begin(byte: u8) -> bool
    ensures { result ≡ begins_name byte }
{
    matches!(byte, b'A'..=b'Z' | b'a'..=b'z')
        || byte == b'-'
        || byte == b'$'
        || byte == b'.'
        || byte == b'_'
}

fn is_decimal(byte: u8) -> bool
    ensures { result ≡ is_digit byte }
{
    byte.is_ascii_digit()
}

// Whether a text can stand as a name without quotes.
fn is_plain(text: &[u8]) -> bool
    ensures { result ≡ is_plain_name text.now }
{
    let [first, rest @ ..] = text else {
        return false;
    };
    if !may_begin(*first) {
        return false;
    }
    for byte in rest {
        if !may_begin(*byte) && !is_decimal(*byte) {
            return false;
        }
    }
    true
}

// The digit of a number below 16.
fn digit_of(number: u8) -> u8
    requires { number < 16 }
    ensures { result ≡ hex_digit number }
{
    if number < 10 {
        number + b'0'
    } else {
        number - 10 + b'A'
    }
}

fn needs_escape(byte: u8) -> bool
    ensures { result ≡ is_escaped byte }
{
    byte == b'"' || byte == b'\\' || byte < b' ' || byte > b'~'
}

fn put_escaped(out: &mut Vec<u8>, byte: u8) -> Result<(), AllocError>
    ensures { Appends out.old out.new result (escaped_byte byte) }
{
    if needs_escape(byte) {
        out.extend_from_slice(&[b'\\', digit_of(byte / 16), digit_of(byte % 16)])
    } else {
        out.extend_from_slice(&[byte])
    }
}

fn put_quoted(out: &mut Vec<u8>, text: &[u8]) -> Result<(), AllocError>
    ensures { Appends out.old out.new result (quoted text.now) }
{
    out.push(b'"')?;
    for byte in text {
        put_escaped(out, *byte)?;
    }
    out.push(b'"')?;
    Ok(())
}

/// Appends a name, without what says of what it is one.
#[tactic(auto, unfolding(crate::specs::Texts::name_text))]
pub fn put_name(out: &mut Vec<u8>, name: &Name) -> Result<(), AllocError>
    ensures { Appends out.old out.new result (name_text name.now) }
{
    match name {
        Name::Number(number) => put_digits(out, u64::from(*number)),
        Name::Text(text) if is_plain(text.as_bytes()) => out.extend_from_slice(text.as_bytes()),
        Name::Text(text) => put_quoted(out, text.as_bytes()),
    }
}
