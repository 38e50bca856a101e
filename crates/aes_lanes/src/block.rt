// Blocks and byte strings: their sum, and whether two are the same.

ghost use Rattle.std.specs.Prelude.{◌≡◌, ◌↔◌, ◌+◌, ◌≤◌, length, IsTrue};
ghost use Rattle.aes_lanes.specs.Bytes.{xor_bytes};
ghost use Rattle.aes_lanes.specs.Private.{AreXoredAt, IsXoredAt};

use std::simd::prelude::*;

/// Sixteen bytes.
pub type Block = [u8; 16];

// Adds a block to the bytes from place `at` on, as far as they go.
pub(crate) fn xor_at(bytes: &mut [u8], at: usize, block: &Block)
    ensures { IsXoredAt at block.now bytes.old bytes.new }
{
    let rest = bytes.len().saturating_sub(at);
    if rest >= 16 {
        xor_block(bytes, at, block);
        return;
    }
    for i in 0..rest {
        bytes[at + i] ^= block[i];
    }
}

// Adds a block to the sixteen bytes from place `at` on, at once.
#[inline(always)]
fn xor_block(bytes: &mut [u8], at: usize, block: &Block)
    requires { at + 16 ≤ length bytes.old }
    ensures { IsXoredAt at block.now bytes.old bytes.new }
{
    let part = &mut bytes[at..at + 16];
    let sum = u8x16::from_slice(part) ^ u8x16::from_array(*block);
    sum.copy_to_slice(part);
}

// Adds sixteen blocks, end to end, to the bytes from place `at` on.
pub(crate) fn xor_sixteen(bytes: &mut [u8], at: usize, blocks: &[Block; 16])
    requires { at + 256 ≤ length bytes.old }
    ensures { AreXoredAt at 16 blocks.now bytes.old bytes.new }
{
    for i in 0..16 {
        xor_block(bytes, at + 16 * i, &blocks[i]);
    }
}

/// Adds `right` to `left`, bit by bit.
pub fn xor_into(left: &mut Block, right: &Block)
    ensures { left.new ≡ xor_bytes left.old right.now }
{
    xor_at(left, 0, right);
}

/// Whether two byte strings are the same. Each byte is looked at, wherever they differ.
pub fn same_bytes(left: &[u8], right: &[u8]) -> bool
    ensures { IsTrue result ↔ (left.now ≡ right.now) }
{
    if left.len() != right.len() {
        return false;
    }
    let mut differences = 0;
    for i in 0..left.len() {
        differences |= left[i] ^ right[i];
    }
    differences == 0
}
