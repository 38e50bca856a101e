//! The shown form of bytes, which is text whatever they are.
ghost use Rattle.std.specs.Prelude.{◌≡◌, ◌<◌, ◌++◌, IfOk, OnOk, string_bytes};
ghost use Rattle.std.specs.Char.{digit_char};
ghost use Rattle.std.specs.Str.{is_utf8};
ghost use Rattle.plain_tree.specs.Shown.{is_escaped, escape, shown_byte, shown};

use std::alloc::{AllocError, Global};
use std::str;

/// The shown form of bytes: of a name, of a folder's path, or of a text inside a message.
///
/// In bytes that are UTF-8 each byte below 0x20, the byte 0x7F and the backslash are written `\xHH`
/// with two lower-case hexadecimal digits, and all else stands as it is. In other bytes each byte
/// from 0x80 on is written so too.
pub fn shown_text(alloc: Global, bytes: &[u8]) -> Result<String, AllocError>
    ensures { IfOk result (λ text. string_bytes text ≡ shown bytes.now) }
{
    let shown = shown_bytes(alloc, bytes)?;
    Ok(String::from_utf8(shown).unwrap())
}

#[tactic(auto, unfolding(crate::specs::Shown::shown))]
fn shown_bytes(alloc: Global, bytes: &[u8]) -> Result<Vec<u8>, AllocError>
    ensures { IfOk result (λ text. text.items ≡ shown bytes.now) }
{
    let utf8 = is_text(bytes);
    let mut text = Vec::new(alloc);
    for byte in bytes {
        push_shown(&mut text, *byte, utf8)?;
    }
    Ok(text)
}

// Adds one byte of bytes that are UTF-8 or aren't.
#[tactic(auto, unfolding(crate::specs::Shown::shown_byte))]
fn push_shown(text: &mut Vec<u8>, byte: u8, utf8: bool) -> Result<(), AllocError>
    ensures { OnOk result (text.new.items ≡ text.old.items ++ shown_byte utf8 byte) }
{
    if needs_escape(byte, utf8) {
        text.extend_from_slice(&escape_of(byte))
    } else {
        text.extend_from_slice(&[byte])
    }
}

fn needs_escape(byte: u8, utf8: bool) -> bool
    ensures { result ≡ is_escaped utf8 byte }
{
    byte < 0x20 || byte == 0x7f || byte == b'\\' || (!utf8 && byte >= 0x80)
}

fn escape_of(byte: u8) -> [u8; 4]
    ensures { result ≡ escape byte }
{
    [b'\\', b'x', hex_digit(byte / 16), hex_digit(byte % 16)]
}

// A lower-case hexadecimal digit.
fn hex_digit(value: u8) -> u8
    requires { value < 16 }
    ensures { result ≡ digit_char value }
{
    if value < 10 {
        b'0' + value
    } else {
        b'a' + (value - 10)
    }
}

fn is_text(bytes: &[u8]) -> bool
    ensures { result ≡ is_utf8 bytes.now }
{
    str::from_utf8(bytes).is_ok()
}
