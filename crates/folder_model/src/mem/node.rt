//! The bytes of a file, and how many of them are kept.
ghost use Rattle.std.specs.Prelude.{◌≡◌, ◌↔◌, ℕ, ◌+◌, ◌≤◌, [], ◌++◌, length, IfOk, OnOk, OnErr, IsTrue, take, drop, min, ◌-◌, slice_index_or};
ghost use Rattle.folder_spec.specs.State.{IsClean};
ghost use Rattle.folder_spec.specs.Event.{empty_node, grown, synced};

use std::alloc::{AllocError, Global};
use std::marker::Model;

#[derive(Drop)]
pub struct FileBytes {
    bytes: Vec<u8>,
    kept: usize,
}

impl Model for FileBytes {
    ghost use Rattle.std.specs.Prelude.{◌≤◌, take, length};
    ghost use Rattle.folder_spec.specs.State.{Node};

    ghost Value = { Node };

    ghost view = { λ f. record { now = f.bytes.items; kept = take f.kept f.bytes.items } };

    ghost invariant = { λ f. f.kept ≤ length f.bytes.items };
}

/// Fills the front of `out` with the bytes from `start` on, and says how many.
pub fn read_from(bytes: &[u8], start: u64, out: &mut [u8]) -> usize
    ensures count { result ≡ min (length out.old) (length bytes.now - start) }
    ensures front { out.new ≡ take result (drop start bytes.now) ++ drop result out.old }
{
    let start = start as usize;
    if bytes.len() <= start {
        return 0;
    }
    let rest = &bytes[start..];
    let count = out.len().min(rest.len());
    for i in 0..count {
        out[i] = rest[i];
    }
    count
}

/// Whether all bytes of each file are kept.
pub fn are_clean(nodes: &[FileBytes]) -> bool
    ensures { IsTrue result ↔ ((n : ℕ) → IsClean (slice_index_or nodes.now n empty_node)) }
{
    for node in nodes {
        if !node.is_clean() {
            return false;
        }
    }
    true
}

impl FileBytes {
    ghost use Rattle.folder_model.specs.Nodes.{KeepsFront};
    ghost use Rattle.folder_model.specs.Crash.{node_left};

    pub fn new(alloc: Global) -> Self
        ensures { result ≡ empty_node }
    {
        FileBytes {
            bytes: Vec::new(alloc),
            kept: 0,
        }
    }

    pub fn bytes(&self) -> &[u8]
        ensures { result.now ≡ self.now.now }
    {
        self.bytes.as_slice()
    }

    /// Whether all bytes are kept.
    pub fn is_clean(&self) -> bool
        ensures { IsTrue result ↔ IsClean self.now }
    {
        self.kept == self.bytes.len()
    }

    pub fn grow(&mut self, piece: &[u8]) -> Result<(), AllocError>
        ensures ok { OnOk result (self.new ≡ grown piece.now self.old) }
        ensures err { OnErr result (self.new ≡ self.old) }
        ensures front { KeepsFront self.new }
    {
        self.bytes.extend_from_slice(piece)
    }

    pub fn sync(&mut self)
        ensures synced { self.new ≡ synced self.old }
        ensures front { KeepsFront self.new }
    {
        self.kept = self.bytes.len();
    }

    /// What a crash leaves of it, with `tail` after the kept bytes where it is not clean.
    pub fn crashed(self, tail: &[u8]) -> Result<Self, AllocError>
        ensures { IfOk result (λ left. left ≡ node_left tail.now self) }
    {
        if self.kept == self.bytes.len() {
            return Ok(self);
        }
        let mut bytes = self.bytes;
        bytes.truncate(self.kept);
        bytes.extend_from_slice(tail)?;
        let kept = bytes.len();
        Ok(FileBytes { bytes, kept })
    }
}
