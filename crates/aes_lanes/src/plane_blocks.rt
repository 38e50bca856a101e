// Sixteen blocks to planes of their bits, and back.

ghost use Rattle.std.specs.Prelude.{◌≡◌, ℕ, ◌+◌, ◌<◌, [], get_or, length, map, slice_index};
ghost use Rattle.std.specs.List.{range_with_len};
ghost use Rattle.aes_lanes.specs.Planes.{IsPlane, bit, bits_at, block_of, low_bits, high_bits, place};
ghost use Rattle.aes_lanes.specs.PlaneList.{list_of};

use crate::block::Block;
use crate::planes::Planes;
use std::simd::prelude::*;

// Two vectors of bytes.
#[derive(Clone, Copy)]
struct Pair {
    low: u8x32,
    high: u8x32,
    ghost low_plane: { IsPlane low },
    ghost high_plane: { IsPlane high },
}

// In each byte, bits 1, 3, 5 and 7 of the first vector exchanged for bits 0, 2, 4 and 6 of the second.
#[inline(always)]
fn exchanged1(a: u8x32, b: u8x32) -> Pair
    requires a { IsPlane a }
    requires b { IsPlane b }
    ensures low { (p : ℕ) → p < 32 → bits_at p result.low ≡ low_bits 1 (bits_at p a) (bits_at p b) }
    ensures high { (p : ℕ) → p < 32 → bits_at p result.high ≡ high_bits 1 (bits_at p a) (bits_at p b) }
{
    let part = ((a >> u8x32::splat(1)) ^ b) & u8x32::splat(0x55);
    Pair {
        low: a ^ (part << u8x32::splat(1)),
        high: b ^ part,
    }
}

// In each byte, bits 2, 3, 6 and 7 of the first vector exchanged for bits 0, 1, 4 and 5 of the second.
#[inline(always)]
fn exchanged2(a: u8x32, b: u8x32) -> Pair
    requires a { IsPlane a }
    requires b { IsPlane b }
    ensures low { (p : ℕ) → p < 32 → bits_at p result.low ≡ low_bits 2 (bits_at p a) (bits_at p b) }
    ensures high { (p : ℕ) → p < 32 → bits_at p result.high ≡ high_bits 2 (bits_at p a) (bits_at p b) }
{
    let part = ((a >> u8x32::splat(2)) ^ b) & u8x32::splat(0x33);
    Pair {
        low: a ^ (part << u8x32::splat(2)),
        high: b ^ part,
    }
}

// In each byte, the four high bits of the first vector exchanged for the four low bits of the second.
#[inline(always)]
fn exchanged4(a: u8x32, b: u8x32) -> Pair
    requires a { IsPlane a }
    requires b { IsPlane b }
    ensures low { (p : ℕ) → p < 32 → bits_at p result.low ≡ low_bits 4 (bits_at p a) (bits_at p b) }
    ensures high { (p : ℕ) → p < 32 → bits_at p result.high ≡ high_bits 4 (bits_at p a) (bits_at p b) }
{
    let part = ((a >> u8x32::splat(4)) ^ b) & u8x32::splat(0x0f);
    Pair {
        low: a ^ (part << u8x32::splat(4)),
        high: b ^ part,
    }
}

// Bit k of each byte of vector i becomes bit i of that of vector k.
#[inline(always)]
fn transposed(s: &Planes) -> Planes
    ensures { (p i k : ℕ) → p < 32 → i < 8 → k < 8
        → bit p k (get_or (list_of result) i []) ≡ bit p i (get_or (list_of s.now) k []) }
{
    let a01 = exchanged1(s.p0, s.p1);
    let a23 = exchanged1(s.p2, s.p3);
    let a45 = exchanged1(s.p4, s.p5);
    let a67 = exchanged1(s.p6, s.p7);
    let b02 = exchanged2(a01.low, a23.low);
    let b13 = exchanged2(a01.high, a23.high);
    let b46 = exchanged2(a45.low, a67.low);
    let b57 = exchanged2(a45.high, a67.high);
    let c04 = exchanged4(b02.low, b46.low);
    let c15 = exchanged4(b13.low, b57.low);
    let c26 = exchanged4(b02.high, b46.high);
    let c37 = exchanged4(b13.high, b57.high);
    Planes {
        p0: c04.low,
        p1: c15.low,
        p2: c26.low,
        p3: c37.low,
        p4: c04.high,
        p5: c15.high,
        p6: c26.high,
        p7: c37.high,
    }
}

// Which byte of two blocks comes to each place, row after row; and back.
const ROWS: [usize; 32] = [
    0, 4, 8, 12, 1, 5, 9, 13, 2, 6, 10, 14, 3, 7, 11, 15, 16, 20, 24, 28, 17, 21, 25, 29, 18, 22,
    26, 30, 19, 23, 27, 31,
];

const FIRST_ROWS: [usize; 16] = [0, 4, 8, 12, 1, 5, 9, 13, 2, 6, 10, 14, 3, 7, 11, 15];

const SECOND_ROWS: [usize; 16] = [
    16, 20, 24, 28, 17, 21, 25, 29, 18, 22, 26, 30, 19, 23, 27, 31,
];

// Two blocks as a vector, row after row.
#[inline(always)]
fn by_rows(first: u8x16, second: u8x16) -> u8x32
    ensures plane { IsPlane result }
    ensures first { (p : ℕ) → p < 16 → slice_index result p ≡ slice_index first (place p) }
    ensures second { (p : ℕ) → p < 16 → slice_index result (16 + p) ≡ slice_index second (place p) }
    ensures first_length { length first ≡ 16 }
    ensures second_length { length second ≡ 16 }
{
    first.shuffle(second, ROWS)
}

// The block in a vector's first lane, column after column.
#[inline(always)]
fn first_block(v: u8x32) -> Block
    requires { IsPlane v }
    ensures { result ≡ map (λ j. slice_index v (place j)) (range_with_len 0 16) }
{
    let block: u8x16 = v.swizzle(FIRST_ROWS);
    block.to_array()
}

// The block in a vector's second lane.
#[inline(always)]
fn second_block(v: u8x32) -> Block
    requires { IsPlane v }
    ensures { result ≡ map (λ j. slice_index v (16 + place j)) (range_with_len 0 16) }
{
    let block: u8x16 = v.swizzle(SECOND_ROWS);
    block.to_array()
}

/// The planes of sixteen blocks.
#[inline(always)]
pub(crate) fn gather(blocks: &[Block; 16]) -> Planes
    ensures { (k : ℕ) → k < 16 → block_of (list_of result) k ≡ get_or blocks.now k [] }
{
    transposed(&Planes {
        p0: by_rows(u8x16::from_array(blocks[0]), u8x16::from_array(blocks[1])),
        p1: by_rows(u8x16::from_array(blocks[2]), u8x16::from_array(blocks[3])),
        p2: by_rows(u8x16::from_array(blocks[4]), u8x16::from_array(blocks[5])),
        p3: by_rows(u8x16::from_array(blocks[6]), u8x16::from_array(blocks[7])),
        p4: by_rows(u8x16::from_array(blocks[8]), u8x16::from_array(blocks[9])),
        p5: by_rows(u8x16::from_array(blocks[10]), u8x16::from_array(blocks[11])),
        p6: by_rows(u8x16::from_array(blocks[12]), u8x16::from_array(blocks[13])),
        p7: by_rows(u8x16::from_array(blocks[14]), u8x16::from_array(blocks[15])),
    })
}

// Bit i of each byte of a vector, in each bit of the byte.
#[inline(always)]
fn repeated(v: u8x32, i: u8) -> u8x32
    requires i { i < 8 }
    requires v { IsPlane v }
    ensures plane { IsPlane result }
    ensures bits { (p k : ℕ) → p < 32 → k < 8 → bit p k result ≡ bit p i v }
{
    u8x32::splat(0) - ((v >> u8x32::splat(i)) & u8x32::splat(1))
}

/// The planes of one block, sixteen times.
#[inline(always)]
pub(crate) fn gather_same(block: &Block) -> Planes
    ensures { (k : ℕ) → k < 16 → block_of (list_of result) k ≡ block.now }
{
    let half = u8x16::from_array(*block);
    let both = by_rows(half, half);
    Planes {
        p0: repeated(both, 0),
        p1: repeated(both, 1),
        p2: repeated(both, 2),
        p3: repeated(both, 3),
        p4: repeated(both, 4),
        p5: repeated(both, 5),
        p6: repeated(both, 6),
        p7: repeated(both, 7),
    }
}

/// The sixteen blocks of planes.
#[inline(always)]
pub(crate) fn scatter(s: &Planes) -> [Block; 16]
    ensures sixteen { length result ≡ 16 }
    ensures blocks { (k : ℕ) → k < 16 → get_or result k [] ≡ block_of (list_of s.now) k }
{
    let t = transposed(s);
    [
        first_block(t.p0),
        second_block(t.p0),
        first_block(t.p1),
        second_block(t.p1),
        first_block(t.p2),
        second_block(t.p2),
        first_block(t.p3),
        second_block(t.p3),
        first_block(t.p4),
        second_block(t.p4),
        first_block(t.p5),
        second_block(t.p5),
        first_block(t.p6),
        second_block(t.p6),
        first_block(t.p7),
        second_block(t.p7),
    ]
}
