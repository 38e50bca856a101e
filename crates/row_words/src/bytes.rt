//! Bytes as rows write them.

use crate::words::number;
use hex::{FromHex, FromHexError};
use std::alloc::{AllocError, Global};

// The most bytes that a part may write.
const MOST: u64 = 20_000_000;

/// The bytes that a word writes, or `None` where it writes none: parts with commas between them, of which the
/// last may be a text.
///
/// | A part | Its bytes |
/// |---|---|
/// | `00ff` | in hexadecimal |
/// | `5a*200` | some bytes, so many times, at least once |
/// | `00..1f` | from the first byte to the last, counting up |
/// | `@7*100` | so many bytes of a generator that begins with this number |
/// | `'a text` | all that follows is a text, where `\n`, `\t`, `\r`, `\s` (a blank), `\\` and `\x` with two digits stand for other bytes |
pub fn bytes_of(alloc: Global, word: &str) -> Result<Option<Vec<u8>>, AllocError> {
    let (front, text) = match word.split_once('\'') {
        Some((front, text)) => (front, Some(text)),
        None => (word, None),
    };
    let Some(front) = parts_before(front, text.is_some()) else {
        return Ok(None);
    };
    let mut bytes = Vec::new(alloc);
    if !push_parts(alloc, &mut bytes, front)? {
        return Ok(None);
    }
    match text {
        Some(text) => {
            if !push_escaped(&mut bytes, text)? {
                return Ok(None);
            }
        }
        None => {}
    }
    Ok(Some(bytes))
}

// The parts before a text, which ends them with a comma; without a text they are all.
fn parts_before(front: &str, has_text: bool) -> Option<&str> {
    if !has_text || front.is_empty() {
        return Some(front);
    }
    front.strip_suffix(',')
}

// Adds the bytes of parts, and says whether each of them writes some.
fn push_parts(alloc: Global, bytes: &mut Vec<u8>, parts: &str) -> Result<bool, AllocError> {
    if parts.is_empty() {
        return Ok(true);
    }
    for part in parts.split(',') {
        if !push_part(alloc, bytes, part)? {
            return Ok(false);
        }
    }
    Ok(true)
}

// Adds the bytes of a part, and says whether it writes some.
fn push_part(alloc: Global, bytes: &mut Vec<u8>, part: &str) -> Result<bool, AllocError> {
    if let Some((first, last)) = part.split_once("..") {
        return push_range(bytes, first, last);
    }
    let Some((front, count)) = part.split_once('*') else {
        return push_repeated(alloc, bytes, part, 1);
    };
    let count = number(count).unwrap_or(0);
    if count == 0 || count > MOST {
        return Ok(false);
    }
    match front.strip_prefix('@') {
        Some(seed) => push_seeded(bytes, seed, count),
        None => push_repeated(alloc, bytes, front, count),
    }
}

// The bytes that digits write, two each.
fn digits_of(alloc: Global, digits: &str) -> Result<Option<Vec<u8>>, AllocError> {
    match hex::decode(alloc, digits) {
        Ok(bytes) => Ok(Some(bytes)),
        Err(FromHexError::OutOfMemory) => Err(AllocError),
        Err(_) => Ok(None),
    }
}

// The byte that two digits write.
fn byte_of(digits: &[u8]) -> Option<u8> {
    let [byte] = <[u8; 1]>::from_hex(digits).ok()?;
    Some(byte)
}

// Adds the bytes from one to another, counting up.
fn push_range(bytes: &mut Vec<u8>, first: &str, last: &str) -> Result<bool, AllocError> {
    let (Some(first), Some(last)) = (byte_of(first.as_bytes()), byte_of(last.as_bytes())) else {
        return Ok(false);
    };
    for byte in first..=last {
        bytes.push(byte)?;
    }
    Ok(first <= last)
}

// Adds the bytes that digits write, so many times.
fn push_repeated(
    alloc: Global,
    bytes: &mut Vec<u8>,
    digits: &str,
    count: u64,
) -> Result<bool, AllocError> {
    let Some(piece) = digits_of(alloc, digits)? else {
        return Ok(false);
    };
    if (piece.len() as u64).saturating_mul(count) > MOST {
        return Ok(false);
    }
    for _ in 0..count {
        bytes.extend_from_slice(piece.as_slice())?;
    }
    Ok(!piece.is_empty())
}

// Adds so many bytes of a linear congruential generator that begins with a number.
fn push_seeded(bytes: &mut Vec<u8>, seed: &str, count: u64) -> Result<bool, AllocError> {
    let Some(mut state) = number(seed) else {
        return Ok(false);
    };
    for _ in 0..count {
        state = state
            .wrapping_mul(6_364_136_223_846_793_005)
            .wrapping_add(1_442_695_040_888_963_407);
        bytes.push((state >> 56) as u8)?;
    }
    Ok(true)
}

// Where a text is read: outside of a backslash, behind one, and behind one and digits.
#[derive(Clone, Copy)]
enum At {
    Plain,
    Backslash,
    High,
    Low(u8),
}

// Adds the bytes of a text, and says whether it ends outside of a backslash's word and each of these is known.
fn push_escaped(bytes: &mut Vec<u8>, text: &str) -> Result<bool, AllocError> {
    let mut at = At::Plain;
    for mark in text.as_bytes() {
        match step(at, *mark) {
            Some((next, byte)) => {
                at = next;
                if let Some(byte) = byte {
                    bytes.push(byte)?;
                }
            }
            None => return Ok(false),
        }
    }
    Ok(matches!(at, At::Plain))
}

// What a mark of a text leads to, and the byte that it ends.
fn step(at: At, mark: u8) -> Option<(At, Option<u8>)> {
    match at {
        At::Plain => Some(if mark == b'\\' {
            (At::Backslash, None)
        } else {
            (At::Plain, Some(mark))
        }),
        At::Backslash => escape(mark),
        At::High => Some((At::Low(mark), None)),
        At::Low(high) => Some((At::Plain, Some(byte_of(&[high, mark])?))),
    }
}

// What a mark behind a backslash stands for.
fn escape(mark: u8) -> Option<(At, Option<u8>)> {
    let byte = match mark {
        b'x' => return Some((At::High, None)),
        b'n' => b'\n',
        b't' => b'\t',
        b'r' => b'\r',
        b's' => b' ',
        b'\\' => b'\\',
        _ => return None,
    };
    Some((At::Plain, Some(byte)))
}
