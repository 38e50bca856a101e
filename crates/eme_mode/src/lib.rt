//! EME over AES-256 (Halevi and Rogaway): a wide-block mode that encrypts 1 to 128 blocks as one, under a tweak.
//!
//! Nothing here takes memory.
#![tactic(auto)]

ghost use Rattle.std.specs.Prelude.{◌≡◌, ◌<◌, ◌≤◌, ℕ, List, length, All};
ghost use Rattle.eme_mode.specs.Eme.{times_two, with_masks, sum_from, ccc_of, first_mask, eme256, inverse_eme256};
ghost use Rattle.aes_lanes.specs.Bytes.{xor_bytes, IsBlock};

use aes_lanes::{Block, Cipher, Key256, xor_into};
use laws::directions_undo_each_other;
use std::marker::Model;

pub mod laws;

/// EME under one AES-256 key, with the first mask made of it. A clause sees the key's 32 bytes.
#[derive(Drop)]
pub struct Eme {
    key: Key256,
    mask: Block,
}

impl Model for Eme {
    ghost use Rattle.std.specs.Prelude.{◌≡◌, ℕ, List};
    ghost use Rattle.eme_mode.specs.Eme.{first_mask};

    ghost Value = { List ℕ };

    ghost view = { λ eme. eme.key };

    ghost invariant = { λ eme. eme.mask ≡ first_mask eme.key };
}

impl Eme {
    pub fn new(key: Key256) -> Eme
        ensures { result ≡ key }
    {
        let mask = first_mask(&key);
        Eme { key, mask }
    }

    /// Encrypts 1 to 128 blocks in place.
    pub fn encrypt(&self, tweak: &Block, blocks: &mut [Block])
        requires some { 0 < length blocks.old }
        requires most { length blocks.old ≤ 128 }
        ensures { blocks.new ≡ eme256 self.now tweak.now blocks.old }
    {
        add_masks(blocks, &self.mask);
        self.key.encrypt_blocks(blocks);
        let sum = sum_of(tweak, blocks);
        let mut inner = [sum];
        self.key.encrypt_blocks(&mut inner);
        mix(tweak, &sum, &inner[0], blocks);
        self.key.encrypt_blocks(blocks);
        add_masks(blocks, &self.mask);
    }

    /// Decrypts 1 to 128 blocks in place: they become those that encrypt to them.
    pub fn decrypt(&self, tweak: &Block, blocks: &mut [Block])
        requires some { 0 < length blocks.old }
        requires most { length blocks.old ≤ 128 }
        ensures decrypted { blocks.new ≡ inverse_eme256 self.now tweak.now blocks.old }
        ensures back { eme256 self.now tweak.now blocks.new ≡ blocks.old }
    {
        are_blocks(blocks);
        directions_undo_each_other();
        add_masks(blocks, &self.mask);
        self.key.decrypt_blocks(blocks);
        let sum = sum_of(tweak, blocks);
        let mut inner = [sum];
        self.key.decrypt_blocks(&mut inner);
        mix(tweak, &sum, &inner[0], blocks);
        self.key.decrypt_blocks(blocks);
        add_masks(blocks, &self.mask);
    }
}

// The first mask: the zero block's image times two.
fn first_mask(key: &Key256) -> Block
    ensures { result ≡ first_mask key.now }
{
    let mut blocks = [[0; 16]];
    key.encrypt_blocks(&mut blocks);
    double(&blocks[0])
}

// The block times two.
#[tactic(auto, unfolding(crate::specs::Eme::times_two))]
fn double(block: &Block) -> Block
    ensures { result ≡ times_two block.now }
{
    let number = u128::from_le_bytes(*block);
    ((number << 1) ^ ((number >> 127) * 0x87)).to_le_bytes()
}

// Adds a mask to the first block, and to each next one the mask's double.
fn add_masks(blocks: &mut [Block], first: &Block)
    ensures { blocks.new ≡ with_masks first.now blocks.old }
{
    let mut mask = *first;
    for block in blocks.iter_mut() {
        xor_into(block, &mask);
        let next = double(&mask);
        mask = next;
    }
}

// All blocks added to a first one.
fn sum_of(first: &Block, blocks: &[Block]) -> Block
    ensures { result ≡ sum_from first.now blocks.now }
{
    let mut sum = *first;
    for block in blocks {
        xor_into(&mut sum, block);
    }
    sum
}

// Makes CCC of PPP, whose sum with the tweak is MP, `sum`, of which MC is the `image`.
fn mix(tweak: &Block, sum: &Block, image: &Block, blocks: &mut [Block])
    ensures { blocks.new ≡ ccc_of tweak.now image.now (xor_bytes sum.now image.now) blocks.old }
{
    let mut step = *sum;
    xor_into(&mut step, image);
    let Some((first, rest)) = blocks.split_first_mut() else {
        return;
    };
    add_masks(rest, &double(&step));
    let mut start = *image;
    xor_into(&mut start, tweak);
    *first = sum_of(&start, rest);
}

// Each of these is sixteen bytes, as its type says.
fn are_blocks(blocks: &[Block])
    ensures { All IsBlock blocks.now }
{
    for block in blocks {
        is_block(block);
    }
}

fn is_block(block: &Block)
    ensures { IsBlock block.now }
{
    let _bytes = block.as_slice();
}
