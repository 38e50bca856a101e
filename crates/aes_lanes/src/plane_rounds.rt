// The transformations of the rounds on sixteen blocks as planes (FIPS 197, section 5.1).

ghost use Rattle.std.specs.Prelude.{◌≡◌, ℕ, ◌+◌, ◌*◌, ◌<◌, ◌≤◌, ◌++◌, List, [], bit_xor, drop, get_or, length, map, take};
ghost use Rattle.std.specs.Fn.{iterate};
ghost use Rattle.aes_lanes.specs.Bytes.{xor_bytes};
ghost use Rattle.aes_lanes.specs.Cipher.{cipher, inverse_cipher};
ghost use Rattle.aes_lanes.specs.Counter.{increment32};
ghost use Rattle.aes_lanes.specs.Field.{inverse_affine_map};
ghost use Rattle.aes_lanes.specs.Planes.{block_of, byte_at};
ghost use Rattle.aes_lanes.specs.PlaneList.{AreRoundKeys, list_of, plane_key, sixty_threes};
ghost use Rattle.aes_lanes.specs.Private.{ciphered};
ghost use Rattle.aes_lanes.specs.Rounds.{add_round_key, inverse_mix_columns, inverse_shift_rows, inverse_sub_bytes, mix_columns, shift_rows, sub_bytes};

use crate::block::Block;
use crate::counter_planes::counter_planes;
use crate::direction::Direction;
use crate::gates::gates;
use crate::plane_blocks::{gather, gather_same, scatter};
use crate::planes::Planes;
use crate::schedule::key_block;
use std::simd::prelude::*;

// SUBBYTES, and 0x63 added to each byte.
#[inline(always)]
fn sub(s: &Planes) -> Planes
    ensures { (k : ℕ) → k < 16 → block_of (list_of result) k ≡ xor_bytes (sub_bytes (block_of (list_of s.now) k)) sixty_threes }
{
    gates(s)
}

// Adds 0x63 to each byte.
#[inline(always)]
fn add_63(s: &Planes) -> Planes
    ensures { (k : ℕ) → k < 16 → block_of (list_of result) k ≡ xor_bytes (block_of (list_of s.now) k) sixty_threes }
{
    let ones = u8x32::splat(0xff);
    Planes {
        p0: s.p0 ^ ones,
        p1: s.p1 ^ ones,
        p2: s.p2,
        p3: s.p3,
        p4: s.p4,
        p5: s.p5 ^ ones,
        p6: s.p6 ^ ones,
        p7: s.p7,
    }
}

// The linear part of the inverse affine map.
#[inline(always)]
fn linear(s: &Planes) -> Planes
    ensures { (k p : ℕ) → k < 8 → p < 32
        → byte_at (list_of result) k p ≡ bit_xor (inverse_affine_map (byte_at (list_of s.now) k p)) 0x05 }
{
    Planes {
        p0: s.p2 ^ s.p5 ^ s.p7,
        p1: s.p3 ^ s.p6 ^ s.p0,
        p2: s.p4 ^ s.p7 ^ s.p1,
        p3: s.p5 ^ s.p0 ^ s.p2,
        p4: s.p6 ^ s.p1 ^ s.p3,
        p5: s.p7 ^ s.p2 ^ s.p4,
        p6: s.p0 ^ s.p3 ^ s.p5,
        p7: s.p1 ^ s.p4 ^ s.p6,
    }
}

// The inverse affine map.
#[inline(always)]
fn unmapped(s: &Planes) -> Planes
    ensures { (k p : ℕ) → k < 8 → p < 32
        → byte_at (list_of result) k p ≡ inverse_affine_map (byte_at (list_of s.now) k p) }
{
    let ones = u8x32::splat(0xff);
    let l = linear(s);
    Planes {
        p0: l.p0 ^ ones,
        p1: l.p1,
        p2: l.p2 ^ ones,
        p3: l.p3,
        p4: l.p4,
        p5: l.p5,
        p6: l.p6,
        p7: l.p7,
    }
}

// INVSUBBYTES, by the gates of the S-box between the inverse affine map and its linear part.
#[inline(always)]
fn unsub(s: &Planes) -> Planes
    ensures { (k : ℕ) → k < 16 → block_of (list_of result) k ≡ inverse_sub_bytes (block_of (list_of s.now) k) }
{
    linear(&gates(&unmapped(s)))
}

// Which byte of a plane comes to each place when the rows are shifted.
const SHIFT: [usize; 32] = [
    0, 1, 2, 3, 5, 6, 7, 4, 10, 11, 8, 9, 15, 12, 13, 14, 16, 17, 18, 19, 21, 22, 23, 20, 26, 27,
    24, 25, 31, 28, 29, 30,
];

// SHIFTROWS.
#[inline(always)]
fn shift(s: &Planes) -> Planes
    ensures { (k : ℕ) → block_of (list_of result) k ≡ shift_rows (block_of (list_of s.now) k) }
{
    Planes {
        p0: s.p0.swizzle(SHIFT),
        p1: s.p1.swizzle(SHIFT),
        p2: s.p2.swizzle(SHIFT),
        p3: s.p3.swizzle(SHIFT),
        p4: s.p4.swizzle(SHIFT),
        p5: s.p5.swizzle(SHIFT),
        p6: s.p6.swizzle(SHIFT),
        p7: s.p7.swizzle(SHIFT),
    }
}

// Which byte of a plane comes to each place when the rows move up by one, and by two.
const TURN: [usize; 32] = [
    4, 5, 6, 7, 8, 9, 10, 11, 12, 13, 14, 15, 0, 1, 2, 3, 20, 21, 22, 23, 24, 25, 26, 27, 28, 29,
    30, 31, 16, 17, 18, 19,
];

const HALF_TURN: [usize; 32] = [
    8, 9, 10, 11, 12, 13, 14, 15, 0, 1, 2, 3, 4, 5, 6, 7, 24, 25, 26, 27, 28, 29, 30, 31, 16, 17,
    18, 19, 20, 21, 22, 23,
];

// MIXCOLUMNS: a column's byte a before b, c and d becomes 2 (a + b) + b + (c + d).
#[inline(always)]
fn mix(s: &Planes) -> Planes
    ensures { (k : ℕ) → block_of (list_of result) k ≡ mix_columns (block_of (list_of s.now) k) }
{
    let t0 = s.p0.swizzle(TURN);
    let a0 = s.p0 ^ t0;
    let t1 = s.p1.swizzle(TURN);
    let a1 = s.p1 ^ t1;
    let t2 = s.p2.swizzle(TURN);
    let a2 = s.p2 ^ t2;
    let t3 = s.p3.swizzle(TURN);
    let a3 = s.p3 ^ t3;
    let t4 = s.p4.swizzle(TURN);
    let a4 = s.p4 ^ t4;
    let t5 = s.p5.swizzle(TURN);
    let a5 = s.p5 ^ t5;
    let t6 = s.p6.swizzle(TURN);
    let a6 = s.p6 ^ t6;
    let t7 = s.p7.swizzle(TURN);
    let a7 = s.p7 ^ t7;
    Planes {
        p0: a7 ^ t0 ^ a0.swizzle(HALF_TURN),
        p1: a0 ^ a7 ^ t1 ^ a1.swizzle(HALF_TURN),
        p2: a1 ^ t2 ^ a2.swizzle(HALF_TURN),
        p3: a2 ^ a7 ^ t3 ^ a3.swizzle(HALF_TURN),
        p4: a3 ^ a7 ^ t4 ^ a4.swizzle(HALF_TURN),
        p5: a4 ^ t5 ^ a5.swizzle(HALF_TURN),
        p6: a5 ^ t6 ^ a6.swizzle(HALF_TURN),
        p7: a6 ^ t7 ^ a7.swizzle(HALF_TURN),
    }
}

// ADDROUNDKEY, with a round key as the planes of sixteen blocks.
#[inline(always)]
fn add(s: &Planes, key: &Planes) -> Planes
    ensures { (k : ℕ) → block_of (list_of result) k ≡ add_round_key (block_of (list_of s.now) k) (block_of (list_of key.now) k) }
{
    Planes {
        p0: s.p0 ^ key.p0,
        p1: s.p1 ^ key.p1,
        p2: s.p2 ^ key.p2,
        p3: s.p3 ^ key.p3,
        p4: s.p4 ^ key.p4,
        p5: s.p5 ^ key.p5,
        p6: s.p6 ^ key.p6,
        p7: s.p7 ^ key.p7,
    }
}

// Which byte of a plane comes to each place when the rows are shifted back.
const UNSHIFT: [usize; 32] = [
    0, 1, 2, 3, 7, 4, 5, 6, 10, 11, 8, 9, 13, 14, 15, 12, 16, 17, 18, 19, 23, 20, 21, 22, 26, 27,
    24, 25, 29, 30, 31, 28,
];

// INVSHIFTROWS.
#[inline(always)]
fn unshift(s: &Planes) -> Planes
    ensures { (k : ℕ) → block_of (list_of result) k ≡ inverse_shift_rows (block_of (list_of s.now) k) }
{
    Planes {
        p0: s.p0.swizzle(UNSHIFT),
        p1: s.p1.swizzle(UNSHIFT),
        p2: s.p2.swizzle(UNSHIFT),
        p3: s.p3.swizzle(UNSHIFT),
        p4: s.p4.swizzle(UNSHIFT),
        p5: s.p5.swizzle(UNSHIFT),
        p6: s.p6.swizzle(UNSHIFT),
        p7: s.p7.swizzle(UNSHIFT),
    }
}

// The state whose mixed columns are the columns unmixed: to each byte x it adds 4 (x + y), for the byte y two rows on.
#[inline(always)]
fn spread(s: &Planes) -> Planes
    ensures { (k : ℕ) → mix_columns (block_of (list_of result) k) ≡ inverse_mix_columns (block_of (list_of s.now) k) }
{
    let p0 = s.p0;
    let h0 = s.p0.swizzle(HALF_TURN);
    let p1 = s.p1;
    let h1 = s.p1.swizzle(HALF_TURN);
    let p2 = s.p2;
    let h2 = s.p2.swizzle(HALF_TURN);
    let p3 = s.p3;
    let h3 = s.p3.swizzle(HALF_TURN);
    let p4 = s.p4;
    let h4 = s.p4.swizzle(HALF_TURN);
    let p5 = s.p5;
    let h5 = s.p5.swizzle(HALF_TURN);
    let p6 = s.p6;
    let h6 = s.p6.swizzle(HALF_TURN);
    let p7 = s.p7;
    let h7 = s.p7.swizzle(HALF_TURN);
    let e0 = p0 ^ h0;
    let e1 = p1 ^ h1;
    let e2 = p2 ^ h2;
    let e3 = p3 ^ h3;
    let e4 = p4 ^ h4;
    let e5 = p5 ^ h5;
    let e6 = p6 ^ h6;
    let e7 = p7 ^ h7;
    let t = e6 ^ e7;
    let q2 = e0 ^ e7;
    let q3 = e1 ^ e6;
    let q4 = e2 ^ t;
    let q5 = e3 ^ e7;
    let n0 = p0 ^ e6;
    let n1 = p1 ^ t;
    let n2 = p2 ^ q2;
    let n3 = p3 ^ q3;
    let n4 = p4 ^ q4;
    let n5 = p5 ^ q5;
    let n6 = p6 ^ e4;
    let n7 = p7 ^ e5;
    Planes {
        p0: n0,
        p1: n1,
        p2: n2,
        p3: n3,
        p4: n4,
        p5: n5,
        p6: n6,
        p7: n7,
    }
}

// The key of a round as planes.
#[inline(always)]
fn key_planes(words: &[u32], round: usize) -> Planes
    requires { 4 * round + 4 ≤ length words.now }
    ensures { (k : ℕ) → k < 16 → block_of (list_of result) k ≡ plane_key words.now round }
{
    let planes = gather_same(&key_block(words, round));
    if round == 0 { planes } else { add_63(&planes) }
}

/// Writes the round keys of a key schedule's words as planes, as many as there is room for.
pub(crate) fn expand_planes(words: &[u32], keys: &mut [Planes])
    requires { 4 * length keys.old ≤ length words.now }
    ensures { AreRoundKeys words.now keys.new }
{
    for round in 0..keys.len() {
        keys[round] = key_planes(words, round);
    }
}

// The planes of the images, in so many rounds, of the blocks that planes hold, under round keys as planes.
#[inline(always)]
fn encrypted(keys: &[Planes], rounds: usize, blocks: &Planes) -> Planes
    requires some { 0 < rounds }
    requires keys { length keys.now ≡ rounds + 1 }
    ensures { (words : List ℕ) (k : ℕ) → AreRoundKeys words keys.now → k < 16
        → block_of (list_of result) k ≡ cipher rounds words (block_of (list_of blocks.now) k) }
{
    let mut state = add(blocks, &keys[0]);
    for round in 1..rounds {
        let next = add(&mix(&shift(&sub(&state))), &keys[round]);
        state = next;
    }
    add(&shift(&sub(&state)), &keys[rounds])
}

// Replaces sixteen blocks by their images in so many rounds, under round keys as planes.
fn encrypt_sixteen(keys: &[Planes], rounds: usize, blocks: &mut [Block; 16])
    requires some { 0 < rounds }
    requires keys { length keys.now ≡ rounds + 1 }
    ensures { (words : List ℕ) → AreRoundKeys words keys.now → blocks.new ≡ map (cipher rounds words) blocks.old }
{
    *blocks = scatter(&encrypted(keys, rounds, &gather(blocks)));
}

/// The images, in so many rounds, of sixteen counter blocks from `counter` on, under round keys as planes.
pub(crate) fn counter_images(keys: &[Planes], rounds: usize, counter: &Block) -> [Block; 16]
    requires some { 0 < rounds }
    requires keys { length keys.now ≡ rounds + 1 }
    ensures sixteen { length result ≡ 16 }
    ensures images { (words : List ℕ) (k : ℕ) → AreRoundKeys words keys.now → k < 16
        → get_or result k [] ≡ cipher rounds words (iterate increment32 k counter.now) }
{
    scatter(&encrypted(keys, rounds, &counter_planes(counter)))
}

// Replaces sixteen blocks by their preimages in so many rounds, under round keys as planes.
fn decrypt_sixteen(keys: &[Planes], rounds: usize, blocks: &mut [Block; 16])
    requires some { 0 < rounds }
    requires keys { length keys.now ≡ rounds + 1 }
    ensures { (words : List ℕ) → AreRoundKeys words keys.now → blocks.new ≡ map (inverse_cipher rounds words) blocks.old }
{
    let mut state = add_63(&add(&gather(blocks), &keys[rounds]));
    for undone in 1..rounds {
        let sum = add(&unsub(&unshift(&state)), &keys[rounds - undone]);
        let next = mix(&spread(&add_63(&sum)));
        state = next;
    }
    *blocks = scatter(&add(&unsub(&unshift(&state)), &keys[0]));
}

// Replaces sixteen blocks by what so many rounds make of them in a direction, under round keys as planes.
fn cipher_sixteen(direction: Direction, keys: &[Planes], rounds: usize, blocks: &mut [Block; 16])
    requires some { 0 < rounds }
    requires keys { length keys.now ≡ rounds + 1 }
    ensures { (words : List ℕ) → AreRoundKeys words keys.now → blocks.new ≡ map (ciphered direction rounds words) blocks.old }
{
    match direction {
        Direction::Forward => encrypt_sixteen(keys, rounds, blocks),
        Direction::Backward => decrypt_sixteen(keys, rounds, blocks),
    }
}

/// Replaces the sixteen blocks from place `at` on by what so many rounds make of them in a direction, under round keys as planes.
pub(crate) fn cipher_at(
    direction: Direction,
    keys: &[Planes],
    rounds: usize,
    blocks: &mut [Block],
    at: usize,
)
    requires some { 0 < rounds }
    requires keys { length keys.now ≡ rounds + 1 }
    requires within { at + 16 ≤ length blocks.old }
    ensures { (words : List ℕ) → AreRoundKeys words keys.now
        → blocks.new ≡ take at blocks.old ++ (map (ciphered direction rounds words) (take 16 (drop at blocks.old)) ++ drop (at + 16) blocks.old) }
{
    let mut sixteen = [[0; 16]; 16];
    sixteen.copy_from_slice(&blocks[at..at + 16]);
    cipher_sixteen(direction, keys, rounds, &mut sixteen);
    blocks[at..at + 16].copy_from_slice(&sixteen);
}

/// Replaces at most sixteen blocks by what so many rounds make of them in a direction, under round keys as planes, in the time of sixteen.
pub(crate) fn cipher_few(direction: Direction, keys: &[Planes], rounds: usize, blocks: &mut [Block])
    requires some { 0 < rounds }
    requires keys { length keys.now ≡ rounds + 1 }
    requires few { length blocks.old ≤ 16 }
    ensures { (words : List ℕ) → AreRoundKeys words keys.now → blocks.new ≡ map (ciphered direction rounds words) blocks.old }
{
    let count = blocks.len();
    let mut sixteen = [[0; 16]; 16];
    sixteen[..count].copy_from_slice(blocks);
    cipher_sixteen(direction, keys, rounds, &mut sixteen);
    blocks.copy_from_slice(&sixteen[..count]);
}
