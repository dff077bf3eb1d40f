// The bytes of a string.

ghost use Rattle.std.specs.Prelude.{◌≡◌, ◌≤◌, ◌<◌, length, IfOk, true};
ghost use Rattle.text_forms.specs.Lexical.{is_digit, is_hex};
ghost use Rattle.text_forms.specs.Strings.{hex_value, escape, byte_at, unescaped, without_last};

use std::alloc::{AllocError, Global};

fn is_digit(byte: u8) -> bool
    ensures { result ≡ is_digit byte }
{
    byte.is_ascii_digit()
}

fn is_hex(byte: u8) -> bool
    ensures { result ≡ is_hex byte }
{
    is_digit(byte) || matches!(byte, b'A'..=b'F' | b'a'..=b'f')
}

/// The value of a hexadecimal digit.
fn hex_value(digit: u8) -> u8
    requires { is_hex digit ≡ true }
    ensures value { result ≡ hex_value digit }
    ensures small { result < 16 }
{
    if is_digit(digit) {
        digit - b'0'
    } else if digit < b'a' {
        digit - b'A' + 10
    } else {
        digit - b'a' + 10
    }
}

/// The byte that a backslash and what is behind it stand for, and how many bytes behind it belong to it.
fn escape(behind: &[u8]) -> (u8, usize)
    ensures escape { result ≡ escape behind.now }
    ensures within { result.1 ≤ length behind.now }
{
    let Some((first, rest)) = behind.split_first() else {
        return (b'\\', 0);
    };
    if *first == b'\\' {
        return (b'\\', 1);
    }
    let Some((second, _)) = rest.split_first() else {
        return (b'\\', 0);
    };
    if is_hex(*first) && is_hex(*second) {
        (16 * hex_value(*first) + hex_value(*second), 2)
    } else {
        (b'\\', 0)
    }
}

/// The byte that the front of a string stands for, and how many further bytes belong to it.
fn byte_at(first: u8, rest: &[u8]) -> (u8, usize)
    ensures byte { result ≡ byte_at first rest.now }
    ensures within { result.1 ≤ length rest.now }
{
    if first == b'\\' {
        escape(rest)
    } else {
        (first, 0)
    }
}

/// The bytes that a string stands for: `\\\\` is a backslash, a backslash and two hexadecimal digits are that byte, and any
/// other backslash stands for itself.
///
/// # Errors
///
/// Where there is no room for the bytes.
pub fn unescaped(alloc: Global, text: &[u8]) -> Result<Vec<u8>, AllocError>
    ensures { IfOk result (λ v. v.items ≡ unescaped text.now) }
{
    let mut bytes = Vec::new(alloc);
    let mut place = 0;
    while place < text.len() {
        let (byte, further) = byte_at(text[place], &text[place + 1..]);
        bytes.push(byte)?;
        place += 1 + further;
    }
    Ok(bytes)
}

/// The bytes but the last, or none of none.
#[tactic(auto, using(crate::proofs::Unescaping::front_of))]
pub fn without_last(text: &[u8]) -> &[u8]
    ensures { result.now ≡ without_last text.now }
{
    match text.split_last() {
        Some((_, front)) => front,
        None => text,
    }
}
