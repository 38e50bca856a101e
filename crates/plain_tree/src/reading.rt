//! Reading a shown path.
ghost use Rattle.std.specs.Prelude.{◌≡◌, ◌<◌, ◌≤◌, IfOk, IfSome, OnSome, Some, None, length};
ghost use Rattle.std.specs.Option.{option_map};
ghost use Rattle.plain_tree.specs.FirstByte.{byte_behind, first_written};
ghost use Rattle.plain_tree.specs.Reading.{digit_of, byte_of, written, read_name, read_names, read_path, parts_of};

use crate::name::Name;
use std::alloc::{AllocError, Global};

/// The greatest number of names that a path has that is read from text.
pub const MAX_PARTS: usize = 64;

// The names of the path that a text writes, or `None` where it is no path.
#[tactic(auto, unfolding(crate::specs::Reading::read_path))]
pub fn read_path(alloc: Global, text: &str) -> Result<Option<Vec<Name>>, AllocError>
    ensures { IfOk result (λ names. option_map (λ v. v.items) names ≡ read_path text.now) }
{
    if text.is_empty() {
        return Ok(Some(Vec::new(alloc)));
    }
    if text.split('/').count() > MAX_PARTS {
        return Ok(None);
    }
    read_names(alloc, text)
}

// The names that the parts of a text write.
fn read_names(alloc: Global, text: &str) -> Result<Option<Vec<Name>>, AllocError>
    ensures { IfOk result (λ names. option_map (λ v. v.items) names ≡ read_names (parts_of text.now)) }
{
    let mut names = Vec::new(alloc);
    for part in text.split('/') {
        match read_name(alloc, part.as_bytes())? {
            Some(name) => names.push(name)?,
            None => return Ok(None),
        }
    }
    Ok(Some(names))
}

// The name that a part writes.
#[tactic(auto, unfolding(crate::specs::Reading::read_name))]
fn read_name(alloc: Global, part: &[u8]) -> Result<Option<Name>, AllocError>
    ensures { IfOk result (λ name. name ≡ read_name part.now) }
{
    match written(alloc, part)? {
        Some(bytes) => Ok(Name::from_vec(bytes)),
        None => Ok(None),
    }
}

// The bytes that a text writes, or `None` where a backslash begins no escape.
fn written(alloc: Global, text: &[u8]) -> Result<Option<Vec<u8>>, AllocError>
    ensures { IfOk result (λ bytes. option_map (λ v. v.items) bytes ≡ written text.now) }
{
    let mut bytes = Vec::new(alloc);
    let mut at = 0;
    while at < text.len() {
        match written_byte(&text[at..]) {
            Some((byte, size)) => {
                bytes.push(byte)?;
                at += size;
            }
            None => return Ok(None),
        }
    }
    Ok(Some(bytes))
}

// The first byte that a text writes, and how many of its bytes write it.
#[tactic(auto, unfolding(crate::specs::FirstByte::first_written))]
fn written_byte(text: &[u8]) -> Option<(u8, usize)>
    ensures value { result ≡ first_written text.now }
    ensures within { IfSome result (λ first. (0 < first.1) × (first.1 ≤ length text.now)) }
{
    match text {
        [b'\\', behind @ ..] => Some((byte_behind(behind)?, 4)),
        [byte, ..] => Some((*byte, 1)),
        [] => None,
    }
}

// The byte that a backslash writes with these bytes behind it.
#[tactic(auto, unfolding(crate::specs::FirstByte::byte_behind, crate::specs::Reading::escaped_byte))]
fn byte_behind(behind: &[u8]) -> Option<u8>
    ensures value { result ≡ byte_behind behind.now }
    ensures within { OnSome result (3 ≤ length behind.now) }
{
    match behind {
        [b'x', high, low, ..] => byte_of(*high, *low),
        _ => None,
    }
}

#[tactic(auto, unfolding(crate::specs::Reading::byte_of))]
fn byte_of(high: u8, low: u8) -> Option<u8>
    ensures { result ≡ byte_of high low }
{
    Some(digit_of(high)? * 16 + digit_of(low)?)
}

// The value of a lower-case hexadecimal digit.
fn digit_of(digit: u8) -> Option<u8>
    ensures { result ≡ digit_of digit }
{
    match digit {
        b'0'..=b'9' => Some(digit - b'0'),
        b'a'..=b'f' => Some(digit - b'a' + 10),
        _ => None,
    }
}
