//! Whether gocryptfs has a claimed vault mounted.

use crate::claims::Claims;
use crate::places::Node;
use folder_model::FPath;
use std::alloc::{AllocError, Global};
use std::fs;

// Where the machine tells what is mounted.
const MOUNTS: &str = "/proc/self/mountinfo";

// What stands in a line between where something is mounted and its kind and source, and the kind of gocryptfs.
const MIDDLE: &str = " - ";

const KIND: &str = "fuse.gocryptfs";

/// A claimed directory that gocryptfs has mounted, if the machine tells of one.
pub fn mounted_of(rt: &HostRuntime, alloc: Global, claims: &Claims) -> Option<FPath> {
    let text = fs::read_to_string(rt, MOUNTS).ok()?;
    for line in text.as_str().lines() {
        if let Some(source) = source_of(line) {
            if let Some(node) = node_of(rt, alloc, source) {
                if let Some(at) = claims.path_of(node) {
                    return at.copy().ok();
                }
            }
        }
    }
    None
}

// The source of a line that tells of gocryptfs.
fn source_of(line: &str) -> Option<&str> {
    let (_, behind) = line.split_once(MIDDLE)?;
    let mut fields = behind.split(' ');
    if fields.next()? == KIND {
        fields.next()
    } else {
        None
    }
}

fn node_of(rt: &HostRuntime, alloc: Global, source: &str) -> Option<Node> {
    let text = unescaped(alloc, source).ok()?;
    let metadata = fs::metadata(rt, String::from_utf8(text).ok()?.as_str()).ok()?;
    Some(Node::of(&metadata))
}

// A field as bytes: a space, a tab, a line's end and a backslash stand there as three octal digits behind a backslash.
fn unescaped(alloc: Global, field: &str) -> Result<Vec<u8>, AllocError> {
    let bytes = field.as_bytes();
    let mut text = Vec::new(alloc);
    let mut passed = 0u8;
    for (at, byte) in bytes.iter().enumerate() {
        if passed > 0 {
            passed -= 1;
            continue;
        }
        match bytes.get(at..).and_then(escaped) {
            Some(byte) => {
                text.push(byte)?;
                passed = 3;
            }
            None => text.push(*byte)?,
        }
    }
    Ok(text)
}

// The byte that an escape writes, if one stands first.
fn escaped(bytes: &[u8]) -> Option<u8> {
    match bytes {
        [
            b'\\',
            high @ b'0'..=b'3',
            middle @ b'0'..=b'7',
            low @ b'0'..=b'7',
            ..
        ] => { Some((high & 3) << 6 | (middle & 7) << 3 | (low & 7)) }
        _ => None,
    }
}
