// Counter mode (SP 800-38A, section 6.5).

ghost use Rattle.std.specs.Prelude.{◌≡◌, ℕ, ◌+◌, ◌*◌, ◌<◌, ◌≤◌, List, [], get_or, length};
ghost use Rattle.std.specs.Fn.{iterate};
ghost use Rattle.aes_lanes.specs.Cipher.{cipher};
ghost use Rattle.aes_lanes.specs.Counter.{AreFirstOfStream, counter_mode, ctr128, ctr32, increment128, increment32};
ghost use Rattle.aes_lanes.specs.PlaneList.{AreRoundKeys};
ghost use Rattle.aes_lanes.specs.RoundKeys.{AreKeyBlocks};

use crate::block::{Block, xor_at, xor_sixteen};
use crate::cipher::Cipher;
use crate::counter_planes::counted32;
use crate::plane_rounds::counter_images;
use crate::planes::Planes;
use crate::rounds::encrypt_block;

fn increment128(block: &mut Block)
    ensures { block.new ≡ increment128 block.old }
{
    *block = u128::from_be_bytes(*block).wrapping_add(1).to_be_bytes();
}

// Sixteen counter blocks from `counter` on, which becomes the one after them, where all bytes count.
fn next128(counter: &mut Block) -> [Block; 16]
    ensures sixteen { length result ≡ 16 }
    ensures counts { (i : ℕ) → i < 16 → get_or result i [] ≡ iterate increment128 i counter.old }
    ensures counter { counter.new ≡ iterate increment128 16 counter.old }
{
    let mut blocks = [[0; 16]; 16];
    for i in 0..16 {
        blocks[i] = *counter;
        increment128(counter);
    }
    blocks
}

// Adds to bytes as many blocks of a key stream as they need.
fn xor_stream(stream: &[Block], bytes: &mut [u8])
    requires { length bytes.old ≤ 16 * length stream.now }
    ensures { (image next : List ℕ → List ℕ) (start : List ℕ) → ((block : List ℕ) → length (image block) ≡ 16)
        → ((k : ℕ) → 16 * k < length bytes.old → get_or stream.now k [] ≡ image (iterate next k start))
        → bytes.new ≡ counter_mode image next start bytes.old }
{
    for k in 0..bytes.len().div_ceil(16) {
        xor_at(bytes, 16 * k, &stream[k]);
    }
}

// Counter mode on a few blocks, one after the other, where the last four bytes count, under round keys as blocks.
fn few32_xor(keys: &[Block], rounds: usize, start: &Block, bytes: &mut [u8])
    requires some { 0 < rounds }
    requires keys { length keys.now ≡ rounds + 1 }
    requires few { length bytes.old ≤ 256 }
    ensures { (words : List ℕ) → AreKeyBlocks words keys.now → bytes.new ≡ ctr32 (cipher rounds words) start.now bytes.old }
{
    for k in 0..bytes.len().div_ceil(16) {
        let mut block = counted32(start, k as u32);
        encrypt_block(keys, rounds, &mut block);
        xor_at(bytes, 16 * k, &block);
    }
}

// Up to so many counter blocks take less time one after the other than sixteen at once.
const FEW: usize = 3;

// Counter mode on at most sixteen blocks, where the last four bytes count, under round keys as blocks and as planes.
fn last32_xor(keys: &[Block], planes: &[Planes], rounds: usize, start: &Block, bytes: &mut [u8])
    requires some { 0 < rounds }
    requires keys { length keys.now ≡ rounds + 1 }
    requires planes { length planes.now ≡ rounds + 1 }
    requires sixteen { length bytes.old ≤ 256 }
    ensures { (words : List ℕ) → AreKeyBlocks words keys.now → AreRoundKeys words planes.now
        → bytes.new ≡ ctr32 (cipher rounds words) start.now bytes.old }
{
    if bytes.len() <= 16 * FEW {
        few32_xor(keys, rounds, start, bytes);
    } else {
        xor_stream(&counter_images(planes, rounds, start), bytes);
    }
}

// Counter mode on at most sixteen blocks, where all bytes count.
fn last128_xor<C: Cipher>(key: &C, start: &Block, bytes: &mut [u8])
    requires { length bytes.old ≤ 256 }
    ensures { bytes.new ≡ ctr128 (C.image key.now) start.now bytes.old }
{
    let count = bytes.len().div_ceil(16);
    let mut counter = *start;
    let mut stream = next128(&mut counter);
    key.encrypt_blocks(&mut stream[..count]);
    xor_stream(&stream, bytes);
}

/// Counter mode where the last four bytes count, under round keys as blocks and as planes.
pub(crate) fn ctr32_under(
    keys: &[Block],
    planes: &[Planes],
    rounds: usize,
    start: &Block,
    bytes: &mut [u8],
)
    requires some { 0 < rounds }
    requires keys { length keys.now ≡ rounds + 1 }
    requires planes { length planes.now ≡ rounds + 1 }
    ensures { (words : List ℕ) → AreKeyBlocks words keys.now → AreRoundKeys words planes.now
        → bytes.new ≡ ctr32 (cipher rounds words) start.now bytes.old }
{
    let mut counter = *start;
    let sets = bytes.len() / 256;
    for set in 0..sets {
        let stream = counter_images(planes, rounds, &counter);
        xor_sixteen(bytes, 256 * set, &stream);
        let next = counted32(&counter, 16);
        counter = next;
    }
    last32_xor(keys, planes, rounds, &counter, &mut bytes[256 * sets..]);
}

/// Xors the key stream that starts with the image of `start` into the bytes. Its counter blocks
/// count modulo 2^32 on the last four bytes (SP 800-38D, section 6.5).
pub fn ctr32_xor<C: Cipher>(key: &C, start: &Block, bytes: &mut [u8])
    ensures { bytes.new ≡ ctr32 (C.image key.now) start.now bytes.old }
{
    key.ctr32_xor(start, bytes);
}

/// Xors the key stream that starts with the image of the block after `start` into the bytes, where `stream`
/// is the first sixteen blocks of the one that starts with the image of `start`. Counter blocks count modulo
/// 2^32 on the last four bytes.
pub fn ctr32_xor_on<C: Cipher>(key: &C, start: &Block, stream: &[Block; 16], bytes: &mut [u8])
    ensures { AreFirstOfStream (C.image key.now) increment32 start.now stream.now
        → bytes.new ≡ ctr32 (C.image key.now) (increment32 start.now) bytes.old }
{
    if bytes.len() <= 240 {
        xor_stream(&stream[1..], bytes);
    } else {
        let (front, rest) = bytes.split_at_mut(240);
        xor_stream(&stream[1..], front);
        key.ctr32_xor(&counted32(start, 16), rest);
    }
}

/// Xors the key stream that starts with the image of `start` into the bytes. Its counter blocks
/// count modulo 2^128 on all sixteen bytes (SP 800-38A, appendix B.1).
pub fn ctr128_xor<C: Cipher>(key: &C, start: &Block, bytes: &mut [u8])
    ensures { bytes.new ≡ ctr128 (C.image key.now) start.now bytes.old }
{
    let mut counter = *start;
    let sets = bytes.len() / 256;
    for set in 0..sets {
        let mut stream = next128(&mut counter);
        key.encrypt_blocks(&mut stream);
        xor_sixteen(bytes, 256 * set, &stream);
    }
    last128_xor(key, &counter, &mut bytes[256 * sets..]);
}
