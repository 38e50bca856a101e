//! The bytes that a decoder holds.

ghost use Rattle.std.specs.Prelude.{◌≡◌, ◌≤◌, ◌+◌, ◌++◌, [], IfOk, length, drop};
ghost use Rattle.std.specs.Vec.{vec_capacity};

use crate::chunk_buf::CHUNK_BUFFER_SIZE;
use std::alloc::{AllocError, Global};
use std::marker::Model;

/// Up to 32,816 bytes, in room for so many that is taken at first. Contracts see them as a list.
#[derive(Drop)]
pub struct Held {
    bytes: Vec<u8>,
    // The bytes before this place are held no more.
    start: usize,
}

impl Model for Held {
    ghost use Rattle.std.specs.Prelude.{◌≤◌, ℕ, List, length, drop};
    ghost use Rattle.std.specs.Vec.{vec_capacity};

    ghost Value = { List ℕ };

    ghost view = { λ held. drop held.start held.bytes.items };

    ghost invariant = { λ held. (held.start ≤ length held.bytes.items) × (length held.bytes.items ≤ 32816) × (32816 ≤ vec_capacity held.bytes) };
}

impl Held {
    pub fn new(alloc: Global) -> Result<Held, AllocError>
        ensures { IfOk result (λ held. held ≡ []) }
    {
        let bytes = Vec::with_capacity(alloc, CHUNK_BUFFER_SIZE)?;
        Ok(Held { bytes, start: 0 })
    }

    // Holds nothing.
    pub fn clear(&mut self)
        ensures { self.new ≡ [] }
    {
        self.bytes.clear();
        self.start = 0;
    }

    pub fn len(&self) -> usize
        ensures count { result ≡ length self.now }
        ensures most { result ≤ CHUNK_BUFFER_SIZE }
    {
        self.bytes.len() - self.start
    }

    pub fn bytes(&self) -> &[u8]
        ensures { result.now ≡ self.now }
    {
        &self.bytes[self.start..]
    }

    pub fn push(&mut self, bytes: &[u8])
        requires { length self.old + length bytes.now ≤ CHUNK_BUFFER_SIZE }
        ensures { self.new ≡ self.old ++ bytes.now }
    {
        let start = with_room(&mut self.bytes, self.start, bytes.len());
        append(&mut self.bytes, bytes);
        self.start = start;
    }

    // Holds all but the first `count` bytes.
    pub fn skip(&mut self, count: usize)
        requires { count ≤ length self.old }
        ensures { self.new ≡ drop count self.old }
    {
        self.start += count;
    }
}

// Moves the bytes held to the front where there is too little room behind them, and answers where they begin then.
fn with_room(bytes: &mut Vec<u8>, start: usize, more: usize) -> usize
    requires start { start ≤ length bytes.old.items }
    requires size { length bytes.old.items ≤ CHUNK_BUFFER_SIZE }
    requires room { length (drop start bytes.old.items) + more ≤ CHUNK_BUFFER_SIZE }
    ensures start { result ≤ length bytes.new.items }
    ensures room { length bytes.new.items + more ≤ CHUNK_BUFFER_SIZE }
    ensures same { drop result bytes.new.items ≡ drop start bytes.old.items }
    ensures capacity { vec_capacity bytes.new ≡ vec_capacity bytes.old }
{
    if more <= CHUNK_BUFFER_SIZE - bytes.len() {
        return start;
    }
    let count = bytes.len() - start;
    bytes.copy_within(start.., 0);
    bytes.truncate(count);
    0
}

// Puts more bytes behind others, in whose room they fit, so that it always can.
fn append(bytes: &mut Vec<u8>, more: &[u8])
    requires { length bytes.old.items + length more.now ≤ vec_capacity bytes.old }
    ensures items { bytes.new.items ≡ bytes.old.items ++ more.now }
    ensures capacity { vec_capacity bytes.old ≤ vec_capacity bytes.new }
{
    let _done = bytes.extend_from_slice(more);
}
