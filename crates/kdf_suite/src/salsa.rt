// The Salsa20/8 core (RFC 7914, section 3), on the diagonals of a block, which take the steps of its four columns or rows at once.

ghost use Rattle.std.specs.Prelude.{◌≡◌, ◌≤◌, List, ℕ, bit_xor, length};
ghost use Rattle.kdf_suite.specs.Diagonals.{IsWhole, combined, diagonals_of, in_order, quartered, turned, words_of};
ghost use Rattle.kdf_suite.specs.Salsa.{add32, column_round, double_rounds, row_round, salsa20_8};

use std::simd::prelude::*;

// The words of a block by their diagonals: of the four columns, each from the diagonal down, the first words, the second ones, and so on.
#[derive(Clone, Copy)]
pub(crate) struct Diagonals {
    first: u32x4,
    second: u32x4,
    third: u32x4,
    fourth: u32x4,
}

// x ^= R(y + z, turn) in each place.
#[inline(always)]
fn turned(x: u32x4, y: u32x4, z: u32x4, turn: u32) -> u32x4
    requires some { 1 ≤ turn }
    requires few { turn ≤ 31 }
    ensures { result ≡ turned turn x y z }
{
    let sum = y + z;
    x ^ ((sum << u32x4::splat(turn)) | (sum >> u32x4::splat(32 - turn)))
}

// The steps on each of the four.
#[inline(always)]
fn quartered(s: Diagonals) -> Diagonals
    ensures { result ≡ quartered s }
{
    let second = turned(s.second, s.first, s.fourth, 7);
    let third = turned(s.third, second, s.first, 9);
    let fourth = turned(s.fourth, third, second, 13);
    let first = turned(s.first, fourth, third, 18);
    Diagonals {
        first,
        second,
        third,
        fourth,
    }
}

#[inline(always)]
fn column_round(s: Diagonals) -> Diagonals
    ensures { (x : List ℕ) → s ≡ diagonals_of x → result ≡ diagonals_of (column_round x) }
{
    quartered(s)
}

// The places of a diagonal, moved by one, two and three.
const NEXT: [usize; 4] = [1, 2, 3, 0];

const SECOND: [usize; 4] = [2, 3, 0, 1];

const THIRD: [usize; 4] = [3, 0, 1, 2];

// The diagonals, moved so that those of the columns become those of the rows, and back.
#[inline(always)]
fn row_round(s: Diagonals) -> Diagonals
    ensures { (x : List ℕ) → s ≡ diagonals_of x → result ≡ diagonals_of (row_round x) }
{
    let t = quartered(Diagonals {
        first: s.first,
        second: s.fourth.swizzle(NEXT),
        third: s.third.swizzle(SECOND),
        fourth: s.second.swizzle(THIRD),
    });
    Diagonals {
        first: t.first,
        second: t.fourth.swizzle(NEXT),
        third: t.third.swizzle(SECOND),
        fourth: t.second.swizzle(THIRD),
    }
}

// Four double rounds.
#[inline(always)]
fn eight_rounds(block: Diagonals) -> Diagonals
    requires { IsWhole block }
    ensures whole { IsWhole result }
    ensures rounds { words_of result ≡ double_rounds 4 (words_of block) }
{
    let mut s = block;
    'rounds: for _round in 0..4u32 {
        let next = row_round(column_round(s));
        s = next;
    }
    s
}

// The Salsa20/8 core.
#[inline(always)]
pub(crate) fn salsa20_8(block: Diagonals) -> Diagonals
    requires { IsWhole block }
    ensures whole { IsWhole result }
    ensures core { words_of result ≡ salsa20_8 (words_of block) }
{
    let mixed = eight_rounds(block);
    added(block, mixed)
}

#[inline(always)]
fn added(s: Diagonals, t: Diagonals) -> Diagonals
    ensures { result ≡ combined add32 s t }
{
    Diagonals {
        first: s.first + t.first,
        second: s.second + t.second,
        third: s.third + t.third,
        fourth: s.fourth + t.fourth,
    }
}

#[inline(always)]
pub(crate) fn xored(s: Diagonals, t: Diagonals) -> Diagonals
    ensures { result ≡ combined bit_xor s t }
{
    Diagonals {
        first: s.first ^ t.first,
        second: s.second ^ t.second,
        third: s.third ^ t.third,
        fourth: s.fourth ^ t.fourth,
    }
}

// The diagonals of a block that has them one after another.
#[inline(always)]
pub(crate) fn diagonals_at(block: &[u32]) -> Diagonals
    requires { length block.now ≡ 16 }
    ensures whole { IsWhole result }
    ensures words { words_of result ≡ in_order 16 block.now }
{
    Diagonals {
        first: u32x4::from_slice(block),
        second: u32x4::from_slice(&block[4..]),
        third: u32x4::from_slice(&block[8..]),
        fourth: u32x4::from_slice(&block[12..]),
    }
}

// Writes the diagonals one after another.
#[inline(always)]
pub(crate) fn put_diagonals(s: Diagonals, block: &mut [u32])
    requires whole { IsWhole s }
    requires room { length block.old ≡ 16 }
    ensures { in_order 16 block.new ≡ words_of s }
{
    s.first.copy_to_slice(block);
    s.second.copy_to_slice(&mut block[4..]);
    s.third.copy_to_slice(&mut block[8..]);
    s.fourth.copy_to_slice(&mut block[12..]);
}
