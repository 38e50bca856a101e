// GHASH over byte strings, each padded with zeros to whole blocks.

ghost use Rattle.std.specs.Prelude.{◌≡◌, ◌*◌, ◌^◌, ◌≤◌, bit_xor, length};
ghost use Rattle.aes_lanes.specs.Bytes.{IsBlock};
ghost use Rattle.gcm_mode.specs.Field.{product};
ghost use Rattle.gcm_mode.specs.Hash.{block_number, blocks_of};
ghost use Rattle.gcm_mode.specs.Private.{ghash_from};

use super::products::Powers;
use std::simd::prelude::*;

// At most 16 bytes as a block, padded with zeros.
fn block_of(bytes: &[u8]) -> u8x16
    requires { length bytes.now ≤ 16 }
    ensures block { IsBlock result }
    ensures number { block_number result ≡ block_number bytes.now }
{
    let mut block = [0; 16];
    block[..bytes.len()].copy_from_slice(bytes);
    u8x16::from_array(block)
}

// GHASH goes on from `hash` over `bytes`, two blocks at a time.
fn hash_by_twos(powers: &Powers, mut hash: u8x16, bytes: &[u8]) -> u8x16
    requires { IsBlock hash }
    ensures block { IsBlock result }
    ensures steps { block_number result ≡ ghash_from powers.now (block_number hash) (blocks_of bytes.now) }
{
    let mut rest = bytes;
    while rest.len() > 16 {
        let (first, behind) = rest.split_at(16);
        let (second, others) = behind.split_at(behind.len().min(16));
        let next = powers.two_steps(hash, block_of(first), block_of(second));
        hash = next;
        rest = others;
    }
    if rest.is_empty() {
        return hash;
    }
    powers.times(hash ^ block_of(rest))
}

/// GHASH goes on from `hash` over `bytes`, eight blocks at a time.
pub fn hash_on(powers: &Powers, mut hash: u8x16, bytes: &[u8]) -> u8x16
    requires { IsBlock hash }
    ensures block { IsBlock result }
    ensures steps { block_number result ≡ ghash_from powers.now (block_number hash) (blocks_of bytes.now) }
{
    let mut rest = bytes;
    while rest.len() >= 128 {
        let (eight, others) = rest.split_at(128);
        let next = powers.eight_steps(hash, eight);
        hash = next;
        rest = others;
    }
    hash_by_twos(powers, hash, rest)
}

/// GHASH goes on from `hash` over `bytes`, and then over a last block.
pub fn hash_to_end(powers: &Powers, hash: u8x16, bytes: &[u8], last: u8x16) -> u8x16
    requires hash { IsBlock hash }
    requires last { IsBlock last }
    ensures block { IsBlock result }
    ensures steps { block_number result
        ≡ product (bit_xor (ghash_from powers.now (block_number hash) (blocks_of bytes.now)) (block_number last)) powers.now }
{
    let odd = bytes.len() % 32;
    if odd == 0 || odd > 16 {
        let next = hash_on(powers, hash, bytes);
        return powers.times(next ^ last);
    }
    let (front, block) = bytes.split_at(bytes.len() - odd);
    let next = hash_on(powers, hash, front);
    powers.two_steps(next, block_of(block), last)
}

pub fn bit_length(bytes: &[u8]) -> u128
    requires { length bytes.now ≤ 2 ^ 32 }
    ensures { result ≡ 8 * length bytes.now }
{
    8 * bytes.len() as u128
}
