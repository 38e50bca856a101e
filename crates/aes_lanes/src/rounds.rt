// The rounds of AES on a block as a vector, column after column (FIPS 197, section 5.1).

ghost use Rattle.std.specs.Prelude.{◌≡◌, ℕ, ◌+◌, ◌*◌, ◌<◌, ◌≤◌, List, length, map};
ghost use Rattle.aes_lanes.specs.Field.{multiply};
ghost use Rattle.aes_lanes.specs.Rounds.{inverse_mix_columns, inverse_shift_rows, mix_columns, shift_rows};
ghost use Rattle.aes_lanes.specs.PlaneList.{AreRoundKeys};
ghost use Rattle.aes_lanes.specs.RoundKeys.{AreKeyBlocks};
ghost use Rattle.aes_lanes.specs.Cipher.{cipher, inverse_cipher};
ghost use Rattle.aes_lanes.specs.Private.{ciphered};

use crate::block::Block;
use crate::direction::Direction;
use crate::plane_rounds::{cipher_at, cipher_few};
use crate::planes::Planes;
use crate::shuffles::{sub, unsub};
use std::simd::prelude::*;

// 2 times each byte.
#[inline(always)]
fn doubled(v: u8x16) -> u8x16
    ensures { result ≡ map (multiply 2) v }
{
    let carried = u8x16::splat(0) - (v >> u8x16::splat(7));
    (v + v) ^ (carried & u8x16::splat(0x1b))
}

// 4 times each byte.
#[inline(always)]
fn quadrupled(v: u8x16) -> u8x16
    ensures { result ≡ map (multiply 4) v }
{
    doubled(doubled(v))
}

// Which byte of a block comes to each place when the rows are shifted, and shifted back.
const SHIFT: [usize; 16] = [0, 5, 10, 15, 4, 9, 14, 3, 8, 13, 2, 7, 12, 1, 6, 11];

const UNSHIFT: [usize; 16] = [0, 13, 10, 7, 4, 1, 14, 11, 8, 5, 2, 15, 12, 9, 6, 3];

// SHIFTROWS.
#[inline(always)]
fn shifted(v: u8x16) -> u8x16
    ensures { result ≡ shift_rows v }
{
    v.swizzle(SHIFT)
}

// INVSHIFTROWS.
#[inline(always)]
fn unshifted(v: u8x16) -> u8x16
    ensures { result ≡ inverse_shift_rows v }
{
    v.swizzle(UNSHIFT)
}

// Which byte of a block comes to each place when the columns move up by one row, and by two.
const TURN: [usize; 16] = [1, 2, 3, 0, 5, 6, 7, 4, 9, 10, 11, 8, 13, 14, 15, 12];

const HALF_TURN: [usize; 16] = [2, 3, 0, 1, 6, 7, 4, 5, 10, 11, 8, 9, 14, 15, 12, 13];

// MIXCOLUMNS: a column's byte a before b, c and d becomes 2 (a + b) + b + (c + d).
#[inline(always)]
fn mixed(v: u8x16) -> u8x16
    ensures { result ≡ mix_columns v }
{
    let turned: u8x16 = v.swizzle(TURN);
    let sum = v ^ turned;
    let far: u8x16 = sum.swizzle(HALF_TURN);
    doubled(sum) ^ turned ^ far
}

// INVMIXCOLUMNS: the columns, mixed, of the state that has 4 (x + y) added to each byte x, for the byte y two rows on.
#[inline(always)]
fn unmixed(v: u8x16) -> u8x16
    ensures { result ≡ inverse_mix_columns v }
{
    let far: u8x16 = v.swizzle(HALF_TURN);
    mixed(v ^ quadrupled(v ^ far))
}

/// Replaces a block by its image in so many rounds, under round keys as blocks.
pub(crate) fn encrypt_block(keys: &[Block], rounds: usize, block: &mut Block)
    requires some { 0 < rounds }
    requires keys { length keys.now ≡ rounds + 1 }
    ensures { (words : List ℕ) → AreKeyBlocks words keys.now → block.new ≡ cipher rounds words block.old }
{
    let mut state = u8x16::from_array(*block) ^ u8x16::from_array(keys[0]);
    for round in 1..rounds {
        let next = mixed(shifted(sub(state))) ^ u8x16::from_array(keys[round]);
        state = next;
    }
    let last = shifted(sub(state)) ^ u8x16::from_array(keys[rounds]);
    *block = last.to_array();
}

// Replaces a block by its preimage in so many rounds, under round keys as blocks.
fn decrypt_block(keys: &[Block], rounds: usize, block: &mut Block)
    requires some { 0 < rounds }
    requires keys { length keys.now ≡ rounds + 1 }
    ensures { (words : List ℕ) → AreKeyBlocks words keys.now → block.new ≡ inverse_cipher rounds words block.old }
{
    let mut state = u8x16::from_array(*block) ^ u8x16::from_array(keys[rounds]);
    for undone in 1..rounds {
        let next = unmixed(unsub(unshifted(state)) ^ u8x16::from_array(keys[rounds - undone]));
        state = next;
    }
    let last = unsub(unshifted(state)) ^ u8x16::from_array(keys[0]);
    *block = last.to_array();
}

// Replaces a block by what so many rounds make of it in a direction, under round keys as blocks.
fn cipher_block(direction: Direction, keys: &[Block], rounds: usize, block: &mut Block)
    requires some { 0 < rounds }
    requires keys { length keys.now ≡ rounds + 1 }
    ensures { (words : List ℕ) → AreKeyBlocks words keys.now → block.new ≡ ciphered direction rounds words block.old }
{
    match direction {
        Direction::Forward => encrypt_block(keys, rounds, block),
        Direction::Backward => decrypt_block(keys, rounds, block),
    }
}

// Replaces each block by what so many rounds make of it in a direction, one after the other.
fn cipher_singly(direction: Direction, keys: &[Block], rounds: usize, blocks: &mut [Block])
    requires some { 0 < rounds }
    requires keys { length keys.now ≡ rounds + 1 }
    ensures { (words : List ℕ) → AreKeyBlocks words keys.now → blocks.new ≡ map (ciphered direction rounds words) blocks.old }
{
    for i in 0..blocks.len() {
        cipher_block(direction, keys, rounds, &mut blocks[i]);
    }
}

// Up to so many blocks take less time one after the other than at once.
const FEW: usize = 6;

// Replaces at most sixteen blocks by what so many rounds make of them in a direction, under round keys as blocks and as planes.
fn cipher_rest(
    direction: Direction,
    keys: &[Block],
    planes: &[Planes],
    rounds: usize,
    blocks: &mut [Block],
)
    requires some { 0 < rounds }
    requires keys { length keys.now ≡ rounds + 1 }
    requires planes { length planes.now ≡ rounds + 1 }
    requires sixteen { length blocks.old ≤ 16 }
    ensures { (words : List ℕ) → AreKeyBlocks words keys.now → AreRoundKeys words planes.now
        → blocks.new ≡ map (ciphered direction rounds words) blocks.old }
{
    if blocks.len() <= FEW {
        cipher_singly(direction, keys, rounds, blocks);
    } else {
        cipher_few(direction, planes, rounds, blocks);
    }
}

/// Replaces each block by what so many rounds make of it in a direction, under round keys as blocks and as planes.
pub(crate) fn cipher_all(
    direction: Direction,
    keys: &[Block],
    planes: &[Planes],
    rounds: usize,
    blocks: &mut [Block],
)
    requires some { 0 < rounds }
    requires keys { length keys.now ≡ rounds + 1 }
    requires planes { length planes.now ≡ rounds + 1 }
    ensures { (words : List ℕ) → AreKeyBlocks words keys.now → AreRoundKeys words planes.now
        → blocks.new ≡ map (ciphered direction rounds words) blocks.old }
{
    let sets = blocks.len() / 16;
    for set in 0..sets {
        cipher_at(direction, planes, rounds, blocks, 16 * set);
    }
    cipher_rest(direction, keys, planes, rounds, &mut blocks[16 * sets..]);
}
