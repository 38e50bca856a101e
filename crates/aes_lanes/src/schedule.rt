// The key schedule, over words of which the first byte is highest (FIPS 197, section 5.2).

ghost use Rattle.std.specs.Prelude.{◌≡◌, ◌+◌, ◌-◌, ◌*◌, ◌/◌, ◌^◌, ◌<◌, ◌≤◌, length};
ghost use Rattle.aes_lanes.specs.RoundKeys.{AreKeyBlocks};
ghost use Rattle.aes_lanes.specs.Schedule.{expanded_key, rot_word, round_constant, round_key, schedule_step, sub_word, word_at};

use crate::block::Block;
use crate::shuffles::sub;
use std::simd::prelude::*;

#[inline(always)]
pub(crate) fn load_word(bytes: &[u8], i: usize) -> u32
    requires { 4 * i + 4 ≤ length bytes.now }
    ensures { result ≡ word_at bytes.now i }
{
    u32::from_be_bytes([
        bytes[4 * i],
        bytes[4 * i + 1],
        bytes[4 * i + 2],
        bytes[4 * i + 3],
    ])
}

fn rot_word(word: u32) -> u32
    ensures { result ≡ rot_word word }
{
    word.rotate_left(8)
}

fn sub_word(word: u32) -> u32
    ensures { result ≡ sub_word word }
{
    let [a, b, c, d] = word.to_be_bytes();
    let bytes = sub(u8x16::from_array([a, b, c, d, 0, 0, 0, 0, 0, 0, 0, 0, 0, 0, 0, 0])).to_array();
    u32::from_be_bytes([bytes[0], bytes[1], bytes[2], bytes[3]])
}

// The bytes x^(j-1) of the constants, from j = 1 on.
const ROUND_CONSTANTS: [u8; 10] = [0x01, 0x02, 0x04, 0x08, 0x10, 0x20, 0x40, 0x80, 0x1b, 0x36];

fn round_constant(j: usize) -> u32
    requires low { 1 ≤ j }
    requires high { j ≤ 10 }
    ensures { result ≡ round_constant j }
{
    (ROUND_CONSTANTS[j - 1] as u32) << 24
}

// What is added to the word a key's length back, to give word `i`.
fn schedule_step(key_words: usize, i: usize, last: u32) -> u32
    requires length { 4 ≤ key_words }
    requires first { key_words ≤ i }
    requires end { i < 11 * key_words }
    ensures { result ≡ schedule_step key_words i last }
{
    if i % key_words == 0 {
        sub_word(rot_word(last)) ^ round_constant(i / key_words)
    } else if 6 < key_words && i % key_words == 4 {
        sub_word(last)
    } else {
        last
    }
}

/// The key of a round as a block.
#[inline(always)]
pub(crate) fn key_block(words: &[u32], round: usize) -> Block
    requires { 4 * round + 4 ≤ length words.now }
    ensures { result ≡ round_key words.now round }
{
    let [a0, a1, a2, a3] = words[4 * round].to_be_bytes();
    let [b0, b1, b2, b3] = words[4 * round + 1].to_be_bytes();
    let [c0, c1, c2, c3] = words[4 * round + 2].to_be_bytes();
    let [d0, d1, d2, d3] = words[4 * round + 3].to_be_bytes();
    [
        a0, a1, a2, a3, b0, b1, b2, b3, c0, c1, c2, c3, d0, d1, d2, d3,
    ]
}

/// Writes the round keys of a key schedule's words as blocks, as many as there is room for.
pub(crate) fn expand_blocks(words: &[u32], keys: &mut [Block])
    requires { 4 * length keys.old ≤ length words.now }
    ensures { AreKeyBlocks words.now keys.new }
{
    for round in 0..keys.len() {
        keys[round] = key_block(words, round);
    }
}

/// Writes the schedule of a key of `key_words` words, as many words as there is room for.
pub(crate) fn expand_key(key: &[u8], key_words: usize, words: &mut [u32])
    requires key { length key.now ≡ 4 * key_words }
    requires length { 4 ≤ key_words }
    requires low { key_words ≤ length words.old }
    requires high { length words.old ≤ 11 * key_words }
    ensures { words.new ≡ expanded_key key_words key.now (length words.old - key_words) }
{
    for i in 0..key_words {
        words[i] = load_word(key, i);
    }
    for i in key_words..words.len() {
        words[i] = words[i - key_words] ^ schedule_step(key_words, i, words[i - 1]);
    }
}
