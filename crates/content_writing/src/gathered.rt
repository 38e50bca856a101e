//! Bytes that are gathered piece by piece.
ghost use Rattle.std.specs.Prelude.{◌≡◌, ◌≤◌, ◌+◌, ◌++◌, length, [], IfOk};

use std::alloc::{AllocError, Global};
use std::marker::Model;

// No header and stored chunk of any layout are longer.
const ROOM: usize = 32_904;

// Up to 32,904 bytes, in room for so many that is taken at first. Contracts see them as a list.
#[derive(Drop)]
pub struct Gathered {
    bytes: Vec<u8>,
}

impl Model for Gathered {
    ghost use Rattle.std.specs.Prelude.{◌≤◌, ℕ, List};
    ghost use Rattle.std.specs.Vec.{vec_capacity};

    ghost Value = { List ℕ };

    ghost view = { λ gathered. gathered.bytes.items };

    ghost invariant = { λ gathered. 32904 ≤ vec_capacity gathered.bytes };
}

impl Gathered {
    // None, with room for all.
    pub(crate) fn new(alloc: Global) -> Result<Gathered, AllocError>
        ensures { IfOk result (λ gathered. gathered ≡ []) }
    {
        Ok(Gathered {
            bytes: Vec::with_capacity(alloc, ROOM)?,
        })
    }

    pub(crate) fn len(&self) -> usize
        ensures { result ≡ length self.now }
    {
        self.bytes.len()
    }

    pub(crate) fn bytes(&self) -> &[u8]
        ensures { result.now ≡ self.now }
    {
        &self.bytes
    }

    // Forgets what was gathered.
    pub(crate) fn clear(&mut self)
        ensures { self.new ≡ [] }
    {
        self.bytes.clear();
    }

    // Adds bytes behind those that were gathered.
    pub(crate) fn push(&mut self, bytes: &[u8])
        requires { length self.old + length bytes.now ≤ ROOM }
        ensures { self.new ≡ self.old ++ bytes.now }
    {
        // all that is gathered has room
        let _done = self.bytes.extend_from_slice(bytes);
    }
}
