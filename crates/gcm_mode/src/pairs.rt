// Vectors of two blocks, each in a lane of sixteen bytes.

ghost use Rattle.std.specs.Prelude.{◌≡◌, ℕ, ◌+◌, ◌*◌, ◌/◌, ◌^◌, ◌<◌, ◌≤◌, bit_xor, length, slice_index};
ghost use Rattle.aes_lanes.specs.Bytes.{IsBlock};
ghost use Rattle.gcm_mode.specs.Field.{times_u as u_times};
ghost use Rattle.gcm_mode.specs.Hash.{block_number};
ghost use Rattle.gcm_mode.specs.Pairs.{AreNibbles, IsPair, lane};
ghost use Rattle.gcm_mode.specs.Tables.{block_in};

use super::vectors::Nibbles;
use std::simd::prelude::*;

/// The nibbles of two blocks.
#[inline(always)]
pub fn nibbles_of(v: u8x32) -> Nibbles
    requires { IsPair v }
    ensures { (l : ℕ) → l < 2 → block_in l result ≡ lane l v }
{
    Nibbles {
        high: v >> u8x32::splat(4),
        low: v & u8x32::splat(15),
    }
}

/// In each lane, the table's bytes at the places that the nibbles give.
#[inline(always)]
pub fn look(table: u8x32, nibbles: u8x32) -> u8x32
    requires table { IsPair table }
    requires nibbles { AreNibbles nibbles }
    ensures pair { IsPair result }
    ensures each { (l p : ℕ) → l < 2 → p < 16
        → slice_index result (16 * l + p) ≡ slice_index table (16 * l + slice_index nibbles (16 * l + p)) }
{
    table.swizzle_dyn_within::<16>(nibbles)
}

const BOTH: [usize; 32] = [
    0, 1, 2, 3, 4, 5, 6, 7, 8, 9, 10, 11, 12, 13, 14, 15, 16, 17, 18, 19, 20, 21, 22, 23, 24, 25,
    26, 27, 28, 29, 30, 31,
];

const FIRST: [usize; 16] = [0, 1, 2, 3, 4, 5, 6, 7, 8, 9, 10, 11, 12, 13, 14, 15];

const SECOND: [usize; 16] = [
    16, 17, 18, 19, 20, 21, 22, 23, 24, 25, 26, 27, 28, 29, 30, 31,
];

/// Two blocks as a vector.
#[inline(always)]
pub fn of_two(first: u8x16, second: u8x16) -> u8x32
    requires first { IsBlock first }
    requires second { IsBlock second }
    ensures pair { IsPair result }
    ensures first_lane { lane 0 result ≡ block_number first }
    ensures second_lane { lane 1 result ≡ block_number second }
{
    first.shuffle(second, BOTH)
}

// The first of a vector's two blocks.
#[inline(always)]
fn first_of(v: u8x32) -> u8x16
    requires { IsPair v }
    ensures block { IsBlock result }
    ensures first { block_number result ≡ lane 0 v }
{
    v.swizzle(FIRST)
}

/// The second of a vector's two blocks.
#[inline(always)]
pub fn second_of(v: u8x32) -> u8x16
    requires { IsPair v }
    ensures block { IsBlock result }
    ensures second { block_number result ≡ lane 1 v }
{
    v.swizzle(SECOND)
}

/// The sum of a vector's two blocks.
#[inline(always)]
pub fn sum_of_two(v: u8x32) -> u8x16
    requires { IsPair v }
    ensures block { IsBlock result }
    ensures sum { block_number result ≡ bit_xor (lane 0 v) (lane 1 v) }
{
    let first = first_of(v);
    let second = second_of(v);
    first ^ second
}

/// Two blocks of a byte string, from a place on.
#[inline(always)]
pub fn loaded(bytes: &[u8], at: usize) -> u8x32
    requires { at + 32 ≤ length bytes.now }
    ensures pair { IsPair result }
    ensures each { (k : ℕ) → k < 32 → slice_index result k ≡ slice_index bytes.now (at + k) }
{
    u8x32::from_slice(&bytes[at..])
}

// Which byte of two vectors comes to each place when a lane moves on by a byte.
const ONE_ON: [usize; 32] = [
    15, 32, 33, 34, 35, 36, 37, 38, 39, 40, 41, 42, 43, 44, 45, 46, 31, 48, 49, 50, 51, 52, 53, 54,
    55, 56, 57, 58, 59, 60, 61, 62,
];

/// Each lane moved on by a byte, behind the last byte of the same lane of `before`.
#[inline(always)]
pub fn one_on(before: u8x32, v: u8x32) -> u8x32
    requires before { IsPair before }
    requires v { IsPair v }
    ensures pair { IsPair result }
    ensures first { (l : ℕ) → l < 2 → slice_index result (16 * l) ≡ slice_index before (16 * l + 15) }
    ensures others { (l p : ℕ) → l < 2 → p < 15 → slice_index result (16 * l + (p + 1)) ≡ slice_index v (16 * l + p) }
{
    before.shuffle(v, ONE_ON)
}

// Each lane as a number, divided by 2^bits.
#[inline(always)]
fn shifted(v: u8x32, bits: u8) -> u8x32
    requires v { IsPair v }
    requires some { 0 < bits }
    requires few { bits < 8 }
    ensures pair { IsPair result }
    ensures lanes { (l : ℕ) → l < 2 → lane l result ≡ lane l v / 2 ^ bits }
{
    let moved = one_on(u8x32::splat(0), v);
    (v >> u8x32::splat(bits)) ^ (moved << u8x32::splat(8 - bits))
}

const LAST: [usize; 32] = [
    15, 15, 15, 15, 15, 15, 15, 15, 15, 15, 15, 15, 15, 15, 15, 15, 31, 31, 31, 31, 31, 31, 31, 31,
    31, 31, 31, 31, 31, 31, 31, 31,
];

const REDUCTION: [u8; 32] = [
    0xe1, 0, 0, 0, 0, 0, 0, 0, 0, 0, 0, 0, 0, 0, 0, 0, 0xe1, 0, 0, 0, 0, 0, 0, 0, 0, 0, 0, 0, 0, 0,
    0, 0,
];

/// u times each block.
#[inline(always)]
pub fn times_u(v: u8x32) -> u8x32
    requires { IsPair v }
    ensures pair { IsPair result }
    ensures lanes { (l : ℕ) → l < 2 → lane l result ≡ u_times (lane l v) }
{
    let half = shifted(v, 1);
    let last = v.swizzle(LAST) & u8x32::splat(1);
    half ^ (last * u8x32::from_array(REDUCTION))
}

/// u^128 times each block of which the last byte is 0.
#[inline(always)]
pub fn times_u128(v: u8x32) -> u8x32
    requires { IsPair v }
    ensures pair { IsPair result }
    ensures lanes { (l : ℕ) → l < 2
        → lane l result ≡ bit_xor (bit_xor (bit_xor (lane l v) (lane l v / 2 ^ 1)) (lane l v / 2 ^ 2)) (lane l v / 2 ^ 7) }
{
    let once = shifted(v, 1);
    let twice = shifted(v, 2);
    let seven_times = shifted(v, 7);
    v ^ once ^ twice ^ seven_times
}
