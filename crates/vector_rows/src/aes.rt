//! Calls of aes_lanes.

ghost use Rattle.std.specs.Prelude.{◌≤◌, length};

use crate::answer::Answer;
use crate::arguments::Arguments;
use aes_lanes::lanes::{sub, unsub};
use aes_lanes::{
    Block, Cipher, Key128, Key256, ctr32_xor, ctr128_xor, inverse_sbox, same_bytes, sbox, xor_into,
};
use std::alloc::{AllocError, Global};
use std::simd::prelude::*;

/// The most bytes of a text whose lengths a call goes through.
pub const LONGEST: usize = 10_000;

/// Makes a call of this module, and says whether there is one of this name.
pub fn answer(name: &str, args: &mut Arguments, answer: &mut Answer) -> bool {
    match name {
        "aes-128" => aes_128(args, answer),
        "aes-256" => aes_256(args, answer),
        "ctr32-256" => twice_in_four_bytes(args, answer),
        "ctr32-256-end" => end_of_stream(args, answer),
        "ctr128-128" => twice_in_sixteen_bytes(args, answer),
        "streams" => streams(args, answer),
        "blocks-at-once" => at_once(args, answer),
        "xor" => sum(args, answer),
        "same" => same(args, answer),
        "s-boxes" => s_boxes(answer),
        _ => return false,
    }
    true
}

fn aes_128(args: &mut Arguments, answer: &mut Answer) {
    both_ways(&Key128::new(&args.array(0)), args, answer);
}

fn aes_256(args: &mut Arguments, answer: &mut Answer) {
    both_ways(&Key256::new(&args.array(0)), args, answer);
}

// The images of blocks, which are decrypted again.
fn both_ways<C: Cipher>(cipher: &C, args: &mut Arguments, answer: &mut Answer) {
    let changed = args.changed_blocks(1);
    cipher.encrypt_blocks(changed);
    answer.bytes(changed.as_flattened());
    cipher.decrypt_blocks(changed);
    answer.unless(args.is_given_back(1), "images that decrypt to others");
}

// A text in counter mode on four bytes, which a second time gives the text again.
fn twice_in_four_bytes(args: &mut Arguments, answer: &mut Answer) {
    let (key, start) = (Key256::new(&args.array(0)), args.array(1));
    let changed = args.changed(2);
    ctr32_xor(&key, &start, changed);
    answer.bytes(changed);
    ctr32_xor(&key, &start, changed);
    answer.unless(args.is_given_back(2), "a text that isn't given back");
}

// A text in counter mode on sixteen bytes, which a second time gives the text again.
fn twice_in_sixteen_bytes(args: &mut Arguments, answer: &mut Answer) {
    let (key, start) = (Key128::new(&args.array(0)), args.array(1));
    let changed = args.changed(2);
    ctr128_xor(&key, &start, changed);
    answer.bytes(changed);
    ctr128_xor(&key, &start, changed);
    answer.unless(args.is_given_back(2), "a text that isn't given back");
}

// The last bytes of a text in counter mode on four bytes.
fn end_of_stream(args: &mut Arguments, answer: &mut Answer) {
    let size = args.up_to(0, args.bytes(3).len());
    let (key, start) = (Key256::new(&args.array(1)), args.array(2));
    let changed = args.changed(3);
    ctr32_xor(&key, &start, changed);
    answer.bytes(&changed[changed.len().saturating_sub(size)..]);
}

/// Xors the stream into bytes block by block, each by itself; the counter doesn't pass four bytes.
pub fn plain_stream(key: &Key256, start: &Block, bytes: &mut [u8]) {
    let mut counter = u128::from_be_bytes(*start);
    for chunk in bytes.chunks_mut(16) {
        let mut stream = [counter.to_be_bytes()];
        key.encrypt_blocks(&mut stream);
        xor(chunk, &stream[0]);
        counter = counter.wrapping_add(1);
    }
}

fn xor(bytes: &mut [u8], stream: &Block) {
    let count = bytes.len().min(16);
    let sum = block_number(bytes) ^ u128::from_be_bytes(*stream);
    bytes[..count].copy_from_slice(&sum.to_be_bytes()[..count]);
}

/// The number of at most sixteen bytes, padded with zeros behind.
pub fn block_number(bytes: &[u8]) -> u128 {
    let count = bytes.len().min(16);
    let mut block = [0; 16];
    block[..count].copy_from_slice(&bytes[..count]);
    u128::from_be_bytes(block)
}

// Whether the two streams of some bytes are the plain one.
fn streams_are_plain(key: &Key256, start: &Block, bytes: &mut [u8], plain: &mut [u8]) -> bool {
    ctr32_xor(key, start, bytes);
    plain_stream(key, start, plain);
    let in_four = same_bytes(bytes, plain);
    ctr128_xor(key, start, bytes);
    plain_stream(key, start, plain);
    in_four && same_bytes(bytes, plain)
}

// Compares the streams of each length from one to another with the plain ones.
fn streams(args: &mut Arguments, answer: &mut Answer) {
    let (key, start) = (Key256::new(&args.array(0)), args.array(1));
    let value = args.byte(2);
    let (least, most) = (args.up_to(3, LONGEST), args.up_to(4, LONGEST));
    if least > most {
        return args.refuse("a range of no lengths");
    }
    let alloc = answer.alloc();
    for length in least..=most {
        let same = are_plain(alloc, &key, &start, value, length);
        if !answer.goes_on(same, "other streams of", length) {
            return;
        }
    }
    answer.word("plain");
}

// Whether the two streams of a byte, so many times, are the plain one.
fn are_plain(
    alloc: Global,
    key: &Key256,
    start: &Block,
    value: u8,
    length: usize,
) -> Result<bool, AllocError>
    requires { length ≤ LONGEST }
{
    let mut one = vec![in alloc; value; length]?;
    let mut other = vec![in alloc; value; length]?;
    Ok(streams_are_plain(key, start, one.as_mut_slice(), other.as_mut_slice()))
}

// Encrypts blocks one by one.
fn one_by_one(key: &Key256, blocks: &mut [Block]) {
    for block in blocks.chunks_mut(1) {
        key.encrypt_blocks(block);
    }
}

// Whether blocks at once have the first of these images, and are decrypted again.
fn are_images(
    alloc: Global,
    key: &Key256,
    plain: &[Block],
    images: &[Block],
) -> Result<bool, AllocError> {
    let mut changed = plain.to_vec(alloc)?;
    let blocks = changed.as_mut_slice();
    key.encrypt_blocks(blocks);
    let are_same = images.starts_with(blocks);
    key.decrypt_blocks(blocks);
    Ok(are_same && *blocks == *plain)
}

// Compares the images of the first blocks at once with those one by one, for each number of them.
fn at_once(args: &Arguments, answer: &mut Answer) {
    let (key, plain) = (Key256::new(&args.array(0)), args.blocks(1));
    let Ok(mut images) = plain.to_vec(answer.alloc()) else {
        return answer.lacks();
    };
    one_by_one(&key, images.as_mut_slice());
    have_images(&key, plain, images.as_slice(), answer);
}

fn have_images(key: &Key256, plain: &[Block], images: &[Block], answer: &mut Answer) {
    let alloc = answer.alloc();
    for count in 0..=plain.len() {
        let same = are_images(alloc, key, &plain[..count], images);
        if !answer.goes_on(same, "other images of", count) {
            return;
        }
    }
    answer.word("one by one");
}

fn same(args: &Arguments, answer: &mut Answer) {
    answer.yes_or_no(same_bytes(args.bytes(0), args.bytes(1)));
}

fn sum(args: &Arguments, answer: &mut Answer) {
    let mut sum = args.array(0);
    xor_into(&mut sum, &args.array(1));
    answer.bytes(&sum);
}

// Whether the S-box and its inverse on 64 bytes from this one on are the published tables.
fn are_tables(first: u8) -> bool
    requires { first ≤ 192 }
{
    let mut bytes = [0; 64];
    let mut images = [0; 64];
    let mut preimages = [0; 64];
    for place in 0..64u8 {
        bytes[place as usize] = first + place;
        images[place as usize] = sbox(first + place);
        preimages[place as usize] = inverse_sbox(first + place);
    }
    let bytes = u8x64::from_array(bytes);
    sub(bytes).to_array() == images && unsub(bytes).to_array() == preimages
}

fn s_boxes(answer: &mut Answer) {
    for quarter in 0..4u8 {
        if !are_tables(64 * quarter) {
            return answer.word("others");
        }
    }
    answer.word("tables");
}
