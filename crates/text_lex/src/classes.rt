//! The sets of bytes of which tokens consist.

ghost use Rattle.std.specs.Prelude.{◌≡◌};
ghost use Rattle.text_forms.specs.Lexical.{has, is_digit, is_letter, is_hex, begins_name, is_space};

use text_forms::Class;

pub(crate) fn is_digit(byte: u8) -> bool
    ensures { result ≡ is_digit byte }
{
    byte.is_ascii_digit()
}

pub(crate) fn is_letter(byte: u8) -> bool
    ensures { result ≡ is_letter byte }
{
    matches!(byte, b'A'..=b'Z' | b'a'..=b'z')
}

fn is_hex(byte: u8) -> bool
    ensures { result ≡ is_hex byte }
{
    is_digit(byte) || matches!(byte, b'A'..=b'F' | b'a'..=b'f')
}

fn begins_name(byte: u8) -> bool
    ensures { result ≡ begins_name byte }
{
    is_letter(byte) || byte == b'-' || byte == b'$' || byte == b'.' || byte == b'_'
}

pub(crate) fn has(class: Class, byte: u8) -> bool
    ensures { result ≡ has class byte }
{
    match class {
        Class::Byte(it) => byte == it,
        Class::Digit => is_digit(byte),
        Class::HexDigit => is_hex(byte),
        Class::NameStart => begins_name(byte),
        Class::NamePart => begins_name(byte) || is_digit(byte),
        Class::WordStart => is_letter(byte) || byte == b'_',
        Class::WordPart => is_letter(byte) || is_digit(byte) || byte == b'_' || byte == b'.',
        Class::Exponent => byte == b'e' || byte == b'E',
        Class::Sign => byte == b'+' || byte == b'-',
        Class::NotQuote => byte != b'"',
    }
}

pub(crate) fn is_space(byte: u8) -> bool
    ensures { result ≡ is_space byte }
{
    byte == b' ' || byte == b'\t' || byte == b'\n' || byte == b'\r'
}
