// The products of blocks with powers of a hash subkey, by shuffles of the products with nibbles.

ghost use Rattle.std.specs.Prelude.{◌≡◌, ℕ, ◌+◌, ◌*◌, ◌^◌, ◌<◌, bit_and, bit_xor, length, slice_index};
ghost use Rattle.aes_lanes.specs.Bytes.{IsBlock};
ghost use Rattle.gcm_mode.specs.Field.{product, times_u as u_times};
ghost use Rattle.gcm_mode.specs.Hash.{block_number, blocks_of};
ghost use Rattle.gcm_mode.specs.Pairs.{IsPair, byte_of, bytes_with, lane, nibble_sum};
ghost use Rattle.gcm_mode.specs.Private.{ghash_from};
ghost use Rattle.gcm_mode.specs.Products.{ArePowers, HaveRows, bytes_sum, products_sum};
ghost use Rattle.gcm_mode.specs.Tables.{AreRows, byte_in};

use super::pairs::{
    loaded, look, nibbles_of, of_two, one_on, second_of, sum_of_two, times_u, times_u128,
};
use super::tables::Pair;
use super::vectors::{Bits, Nibbles, Row};
use aes_lanes::Block;
use std::marker::Model;
use std::simd::prelude::*;
use std::slice::from_ref;

fn bits_of(eight: u8x32) -> Bits
    requires { IsPair eight }
    ensures eight { result.eight ≡ eight }
    ensures four { (l : ℕ) → l < 2 → lane l result.four ≡ u_times (lane l eight) }
    ensures two { (l : ℕ) → l < 2 → lane l result.two ≡ u_times (lane l result.four) }
    ensures one { (l : ℕ) → l < 2 → lane l result.one ≡ u_times (lane l result.two) }
{
    let four = times_u(eight);
    let two = times_u(four);
    let one = times_u(two);
    Bits {
        eight,
        four,
        two,
        one,
    }
}

const EIGHTS: [u8; 32] = [
    0, 0, 0, 0, 0, 0, 0, 0, 255, 255, 255, 255, 255, 255, 255, 255, 0, 0, 0, 0, 0, 0, 0, 0, 255,
    255, 255, 255, 255, 255, 255, 255,
];

const FOURS: [u8; 32] = [
    0, 0, 0, 0, 255, 255, 255, 255, 0, 0, 0, 0, 255, 255, 255, 255, 0, 0, 0, 0, 255, 255, 255, 255,
    0, 0, 0, 0, 255, 255, 255, 255,
];

const TWOS: [u8; 32] = [
    0, 0, 255, 255, 0, 0, 255, 255, 0, 0, 255, 255, 0, 0, 255, 255, 0, 0, 255, 255, 0, 0, 255, 255,
    0, 0, 255, 255, 0, 0, 255, 255,
];

const ONES: [u8; 32] = [
    0, 255, 0, 255, 0, 255, 0, 255, 0, 255, 0, 255, 0, 255, 0, 255, 0, 255, 0, 255, 0, 255, 0, 255,
    0, 255, 0, 255, 0, 255, 0, 255,
];

// Byte b of a vector's lanes, at the places of the nibbles that `mask` has.
#[inline(always)]
fn byte_where(v: u8x32, b: u8, mask: u8x32) -> u8x32
    requires v { IsPair v }
    requires b { b < 16 }
    requires mask { IsPair mask }
    ensures pair { IsPair result }
    ensures each { (l n : ℕ) → l < 2 → n < 16
        → slice_index result (16 * l + n) ≡ bit_and (byte_of b (lane l v)) (slice_index mask (16 * l + n)) }
{
    let spread = look(v, u8x32::splat(b));
    spread & mask
}

// Byte b of the products with each nibble.
#[inline(always)]
fn row_of(bits: &Bits, b: u8) -> u8x32
    requires { b < 16 }
    ensures pair { IsPair result }
    ensures each { (l n : ℕ) → l < 2 → n < 16
        → slice_index result (16 * l + n)
        ≡ byte_of b (nibble_sum n (lane l bits.now.eight) (lane l bits.now.four) (lane l bits.now.two) (lane l bits.now.one)) }
{
    let eight = byte_where(bits.eight, b, u8x32::from_array(EIGHTS));
    let four = byte_where(bits.four, b, u8x32::from_array(FOURS));
    let two = byte_where(bits.two, b, u8x32::from_array(TWOS));
    let one = byte_where(bits.one, b, u8x32::from_array(ONES));
    eight ^ four ^ two ^ one
}

// Writes the bytes of the products of two powers with each nibble, row by row.
fn write_rows(powers: u8x32, rows: &mut [Row; 16])
    requires { IsPair powers }
    ensures { AreRows powers rows.new }
{
    let first_bits = bits_of(powers);
    let fifth = times_u(first_bits.one);
    let last_bits = bits_of(fifth);
    for b in 0..16usize {
        let high = row_of(&first_bits, b as u8);
        let low = row_of(&last_bits, b as u8);
        rows[b] = Row { high, low };
    }
}

// Makes the tables of two powers in the place of the last ones.
fn write_pair(powers: u8x32, pair: &mut Pair)
    requires { IsPair powers }
    ensures powers { pair.new.powers ≡ powers }
    ensures rows { AreRows pair.new.powers pair.new.rows }
{
    pair.powers = powers;
    write_rows(powers, &mut pair.rows);
}

// Byte b of the products of each byte of two blocks, in its first place, with two powers.
#[inline(always)]
fn bytes_of(pair: &Pair, blocks: &Nibbles, b: usize) -> u8x32
    requires rows { AreRows pair.now.powers pair.now.rows }
    requires b { b < 16 }
    ensures pair { IsPair result }
    ensures lanes { (l : ℕ) → l < 2 → lane l result ≡ bytes_with b (lane l pair.now.powers) (byte_in l blocks.now) }
{
    let row = pair.rows[b];
    let high = look(row.high, blocks.high);
    let low = look(row.low, blocks.low);
    high ^ low
}

#[inline(always)]
fn sum_of_bytes(pairs: &[Pair], blocks: &[Nibbles], b: usize) -> u8x32
    requires rows { HaveRows pairs.now }
    requires b { b < 16 }
    requires as_many { length blocks.now ≡ length pairs.now }
    ensures pair { IsPair result }
    ensures lanes { (l : ℕ) → l < 2 → lane l result ≡ bytes_sum b l pairs.now blocks.now }
{
    let mut sum = u8x32::splat(0);
    for i in 0..pairs.len() {
        let more = bytes_of(&pairs[i], &blocks[i], b);
        sum = sum ^ more;
    }
    sum
}

// The sums of the products of blocks and powers, in each lane.
#[inline(always)]
fn sum_of_products(pairs: &[Pair], blocks: &[Nibbles]) -> u8x32
    requires rows { HaveRows pairs.now }
    requires as_many { length blocks.now ≡ length pairs.now }
    ensures pair { IsPair result }
    ensures lanes { (l : ℕ) → l < 2 → lane l result ≡ products_sum l pairs.now blocks.now }
{
    let none = u8x32::splat(0);
    let mut low = sum_of_bytes(pairs, blocks, 15);
    let mut high = none;
    for done in 0..15usize {
        let more = sum_of_bytes(pairs, blocks, 14 - done);
        let moved = one_on(none, low);
        let carried = one_on(low, high);
        low = moved ^ more;
        high = carried;
    }
    let folded = times_u128(high);
    low ^ folded
}

// The products of two blocks, each with one of two powers.
#[inline(always)]
fn products(pair: &Pair, blocks: u8x32) -> u8x32
    requires rows { AreRows pair.now.powers pair.now.rows }
    requires blocks { IsPair blocks }
    ensures pair { IsPair result }
    ensures lanes { (l : ℕ) → l < 2 → lane l result ≡ product (lane l blocks) (lane l pair.now.powers) }
{
    let nibbles = nibbles_of(blocks);
    sum_of_products(from_ref(pair), from_ref(&nibbles))
}

// The product of a block with the second of two powers.
#[inline(always)]
fn times(pair: &Pair, x: u8x16) -> u8x16
    requires rows { AreRows pair.now.powers pair.now.rows }
    requires x { IsBlock x }
    ensures block { IsBlock result }
    ensures product { block_number result ≡ product (block_number x) (lane 1 pair.now.powers) }
{
    let both = products(pair, of_two(x, x));
    second_of(both)
}

fn no_pair() -> Pair {
    let none = u8x32::splat(0);
    Pair {
        powers: none,
        rows: [Row {
            high: none,
            low: none,
        }; 16],
    }
}

// Makes the tables of the first eight powers of a hash subkey in the place of the last ones. Those of the
// first power alone give the second, and it gives two more from each two.
fn write_powers(subkey: &Block, pairs: &mut [Pair; 4])
    ensures { ArePowers (block_number subkey.now) pairs.new }
{
    let first = u8x16::from_array(*subkey);
    write_pair(of_two(first, first), &mut pairs[3]);
    let second = times(&pairs[3], first);
    write_pair(of_two(second, first), &mut pairs[3]);
    let step = of_two(second, second);
    let fourth = products(&pairs[3], step);
    write_pair(fourth, &mut pairs[2]);
    let sixth = products(&pairs[2], step);
    write_pair(sixth, &mut pairs[1]);
    let eighth = products(&pairs[1], step);
    write_pair(eighth, &mut pairs[0]);
}

/// The tables of the first eight powers of a hash subkey, the highest first. A clause sees the hash subkey.
#[derive(Drop)]
pub struct Powers {
    subkey: Block,
    pairs: [Pair; 4],
}

impl Model for Powers {
    ghost use Rattle.std.specs.Prelude.{ℕ};
    ghost use Rattle.aes_lanes.specs.Bytes.{IsBlock};
    ghost use Rattle.gcm_mode.specs.Hash.{block_number};
    ghost use Rattle.gcm_mode.specs.Products.{ArePowers};

    ghost Value = { ℕ };

    ghost view = { λ p. block_number p.subkey };

    ghost invariant = { λ p. record {
      block : IsBlock p.subkey;
      powers : ArePowers (block_number p.subkey) p.pairs;
    } };
}

impl Powers {
    pub fn new(subkey: &Block) -> Powers
        ensures { result ≡ block_number subkey.now }
    {
        let mut pairs = [no_pair(); 4];
        write_powers(subkey, &mut pairs);
        Powers {
            subkey: *subkey,
            pairs,
        }
    }

    /// Becomes the tables of another hash subkey, made in the place of the last ones.
    pub fn renew(&mut self, subkey: &Block)
        ensures { self.new ≡ block_number subkey.now }
    {
        self.subkey = *subkey;
        write_powers(subkey, &mut self.pairs);
    }

    /// x • the subkey
    pub fn times(&self, x: u8x16) -> u8x16
        requires { IsBlock x }
        ensures block { IsBlock result }
        ensures product { block_number result ≡ product (block_number x) self.now }
    {
        times(&self.pairs[3], x)
    }

    /// GHASH goes on from `hash` over two blocks.
    pub fn two_steps(&self, hash: u8x16, first: u8x16, second: u8x16) -> u8x16
        requires hash { IsBlock hash }
        requires first { IsBlock first }
        requires second { IsBlock second }
        ensures block { IsBlock result }
        ensures steps { block_number result
            ≡ product (bit_xor (product (bit_xor (block_number hash) (block_number first)) self.now) (block_number second)) self.now }
    {
        let sum = products(&self.pairs[3], of_two(hash ^ first, second));
        sum_of_two(sum)
    }

    /// GHASH goes on from `hash` over eight blocks.
    pub fn eight_steps(&self, hash: u8x16, bytes: &[u8]) -> u8x16
        requires hash { IsBlock hash }
        requires eight { length bytes.now ≡ 128 }
        ensures block { IsBlock result }
        ensures steps { block_number result ≡ ghash_from self.now (block_number hash) (blocks_of bytes.now) }
    {
        let before = of_two(hash, u8x16::splat(0));
        let first = loaded(bytes, 0);
        let second = loaded(bytes, 32);
        let third = loaded(bytes, 64);
        let fourth = loaded(bytes, 96);
        let blocks = [
            nibbles_of(before ^ first),
            nibbles_of(second),
            nibbles_of(third),
            nibbles_of(fourth),
        ];
        let sum = sum_of_products(&self.pairs, &blocks);
        sum_of_two(sum)
    }
}
