//! AES-256 in Galois/Counter Mode (NIST SP 800-38D), with tags of sixteen bytes.
//!
//! Nothing here takes memory.
#![tactic(auto)]

ghost use Rattle.std.specs.Prelude.{◌≡◌, ℕ, ◌^◌, ◌<◌, ◌≤◌, ◌↔◌, List, [], bit_xor, get_or, length, IsOk, OnOk, OnErr};
ghost use Rattle.aes_lanes.specs.Bytes.{IsBlock, xor_bytes};
ghost use Rattle.aes_lanes.specs.Cipher.{aes256};
ghost use Rattle.aes_lanes.specs.Counter.{AreFirstOfStream, ctr32, increment32};
ghost use Rattle.gcm_mode.specs.Field.{product as product_of};
ghost use Rattle.gcm_mode.specs.Hash.{block_bytes, block_number, blocks_of};
ghost use Rattle.gcm_mode.specs.Private.{ghash_from};
ghost use Rattle.gcm_mode.specs.Gcm.{hash_subkey, hashed, pre_counter, tag_of, sealed, Opens, OpensToNothing};

use aes_lanes::{Block, Cipher, Key256, ctr32_xor, ctr32_xor_on, same_bytes, xor_into};
use std::marker::Model;
use std::simd::prelude::*;

mod counter;
mod field;
mod hash;
pub mod laws;
mod pairs;
mod products;
mod tables;
mod vectors;

use counter::{next_counter, short_counter};
pub use field::product;
use hash::{bit_length, hash_on, hash_to_end};
use products::Powers;

/// The tag isn't that of the text, its associated data and its initialization vector.
#[derive(Clone, Copy, PartialEq, Eq)]
pub struct BadTag;

// A text of up to so many bytes takes less time block by block, beside the pre-counter block, than in a set of sixteen.
const SHORT: usize = 32;

/// GCM under one AES-256 key, with four kilobytes of tables for it. A clause sees the key's 32 bytes.
#[derive(Drop)]
pub struct Gcm {
    cipher: Key256,
    powers: Powers,
}

impl Model for Gcm {
    ghost Value = { List ℕ };

    ghost view = { λ g. g.cipher };

    ghost invariant = { λ g. g.powers ≡ hash_subkey (aes256 g.cipher) };
}

impl Gcm {
    /// GCM under a key, whose tables are made here.
    pub fn new(key: Key256) -> Gcm
        ensures { result ≡ key }
    {
        let powers = Powers::new(&subkey_of(&key));
        Gcm {
            cipher: key,
            powers,
        }
    }

    /// Becomes GCM under the key of these bytes, whose tables are made in the place of the last ones.
    pub fn rekey(&mut self, key: &[u8; 32])
        ensures { self.new ≡ key.now }
    {
        self.cipher.renew(key);
        self.powers.renew(&subkey_of(&self.cipher));
    }

    /// Encrypts `text` in place, and gives its tag (section 7.1). `iv` has 1 to 2^32 bytes, and
    /// `ad` and `text` have at most 2^32.
    pub fn seal(&self, iv: &[u8], ad: &[u8], text: &mut [u8]) -> [u8; 16]
        requires some_iv { 0 < length iv.now }
        requires iv_within { length iv.now ≤ 2 ^ 32 }
        requires ad_within { length ad.now ≤ 2 ^ 32 }
        requires text_within { length text.old ≤ 2 ^ 32 }
        ensures { sealed (aes256 self.now) iv.now ad.now text.old
            ≡ record { text = text.new; tag = result } }
    {
        let counter = self.pre_counter(iv);
        let stream = self.stream(&counter, text.len());
        self.add_stream(&counter, &stream, text);
        self.tag(&stream[0], ad, text)
    }

    /// Decrypts `text` in place where `tag` is its tag, and else leaves it as it is (section 7.2).
    /// `iv` has 1 to 2^32 bytes, and `ad` and `text` have at most 2^32.
    pub fn unseal(
        &self,
        iv: &[u8],
        ad: &[u8],
        text: &mut [u8],
        tag: &[u8; 16],
    ) -> Result<(), BadTag>
        requires some_iv { 0 < length iv.now }
        requires iv_within { length iv.now ≤ 2 ^ 32 }
        requires ad_within { length ad.now ≤ 2 ^ 32 }
        requires text_within { length text.old ≤ 2 ^ 32 }
        ensures right_tag { IsOk result ↔ (tag.now ≡ tag_of (aes256 self.now) iv.now ad.now text.old) }
        ensures opened { OnOk result
            (Opens (aes256 self.now) iv.now ad.now (record { text = text.old; tag = tag.now }) text.new) }
        ensures bad_tag { OnErr result
            (OpensToNothing (aes256 self.now) iv.now ad.now (record { text = text.old; tag = tag.now })) }
        ensures unchanged { OnErr result (text.new ≡ text.old) }
    {
        let counter = self.pre_counter(iv);
        let stream = self.stream(&counter, text.len());
        if !same_bytes(&self.tag(&stream[0], ad, text), tag) {
            return Err(BadTag);
        }
        self.add_stream(&counter, &stream, text);
        Ok(())
    }

    fn pre_counter(&self, iv: &[u8]) -> Block
        requires { length iv.now ≤ 2 ^ 32 }
        ensures { result ≡ pre_counter (aes256 self.now) iv.now }
    {
        if iv.len() == 12 {
            return short_counter(iv);
        }
        self.last_steps(u8x16::splat(0), iv, bit_length(iv))
    }

    // The first block of the key stream from the pre-counter block on, and the fifteen after it where a text of
    // so many bytes is longer than `SHORT`.
    fn stream(&self, counter: &Block, length: usize) -> [Block; 16]
        ensures first { get_or result 0 [] ≡ aes256 self.now counter.now }
        ensures others { 32 < length → AreFirstOfStream (aes256 self.now) increment32 counter.now result }
    {
        if length > SHORT {
            return self.cipher.ctr32_stream(counter);
        }
        let mut blocks = [[0; 16]; 16];
        blocks[0] = *counter;
        self.cipher.encrypt_blocks(&mut blocks[..1]);
        blocks
    }

    // Encrypts or decrypts a text, given its pre-counter block and what `stream` gives for its length.
    fn add_stream(&self, counter: &Block, stream: &[Block; 16], text: &mut [u8])
        requires { 32 < length text.old → AreFirstOfStream (aes256 self.now) increment32 counter.now stream.now }
        ensures { text.new ≡ ctr32 (aes256 self.now) (increment32 counter.now) text.old }
    {
        if text.len() > SHORT {
            ctr32_xor_on(&self.cipher, counter, stream, text);
        } else {
            ctr32_xor(&self.cipher, &next_counter(counter), text);
        }
    }

    // The tag of an encrypted text, given the image of its pre-counter block.
    fn tag(&self, mask: &Block, ad: &[u8], text: &[u8]) -> Block
        requires ad_within { length ad.now ≤ 2 ^ 32 }
        requires text_within { length text.now ≤ 2 ^ 32 }
        ensures { result ≡ xor_bytes (block_bytes (hashed (aes256 self.now) ad.now text.now)) mask.now }
    {
        let mut tag = self.hash(ad, text);
        xor_into(&mut tag, mask);
        tag
    }

    // GHASH of the associated data and the encrypted text, with their lengths.
    fn hash(&self, ad: &[u8], text: &[u8]) -> Block
        requires ad_within { length ad.now ≤ 2 ^ 32 }
        requires text_within { length text.now ≤ 2 ^ 32 }
        ensures { result ≡ block_bytes (hashed (aes256 self.now) ad.now text.now) }
    {
        let hash = hash_on(&self.powers, u8x16::splat(0), ad);
        let lengths = (bit_length(ad) << 64) + bit_length(text);
        self.last_steps(hash, text, lengths)
    }

    // GHASH goes on from `hash` over `bytes` and a block of lengths, and ends.
    fn last_steps(&self, hash: u8x16, bytes: &[u8], lengths: u128) -> Block
        requires { IsBlock hash }
        ensures { result ≡ block_bytes (product_of
            (bit_xor (ghash_from (hash_subkey (aes256 self.now)) (block_number hash) (blocks_of bytes.now)) lengths)
            (hash_subkey (aes256 self.now))) }
    {
        let block = u8x16::from_array(lengths.to_be_bytes());
        hash_to_end(&self.powers, hash, bytes, block).to_array()
    }
}

// The hash subkey, which is the image of a block of zeros.
fn subkey_of(key: &Key256) -> Block
    ensures { block_number result ≡ hash_subkey (aes256 key.now) }
{
    let mut blocks = [[0; 16]];
    key.encrypt_blocks(&mut blocks);
    blocks[0]
}
