// The keys of AES, which hold their key schedules.

ghost use Rattle.std.specs.Prelude.{◌≡◌};

use crate::block::Block;
use crate::cipher::Cipher;
use crate::counter::ctr32_under;
use crate::direction::Direction;
use crate::plane_rounds::{counter_images, expand_planes};
use crate::planes::{Planes, no_planes};
use crate::rounds::cipher_all;
use crate::schedule::{expand_blocks, expand_key};
use std::marker::Model;

/// A key of AES-128, of 16 bytes. A contract sees it as those bytes.
#[derive(Drop)]
pub struct Key128 {
    words: [u32; 44],
    blocks: [Block; 11],
    planes: [Planes; 11],
}

impl Model for Key128 {
    ghost use Rattle.std.specs.Prelude.{◌≡◌, ℕ, List};
    ghost use Rattle.aes_lanes.specs.PlaneList.{AreRoundKeys};
    ghost use Rattle.aes_lanes.specs.RoundKeys.{AreKeyBlocks};
    ghost use Rattle.aes_lanes.specs.Private.{key_of};
    ghost use Rattle.aes_lanes.specs.Cipher.{key_schedule};

    ghost Value = { List ℕ };

    ghost view = { λ key. key_of 4 key.words };

    ghost invariant = { λ key. record {
      schedule : key.words ≡ key_schedule 4 (key_of 4 key.words);
      blocks : AreKeyBlocks key.words key.blocks;
      planes : AreRoundKeys key.words key.planes;
    } };
}

impl Key128 {
    /// The key of these bytes, expanded.
    pub fn new(key: &[u8; 16]) -> Key128
        ensures { result ≡ key.now }
    {
        let mut words = [0; 44];
        expand_key(key, 4, &mut words);
        let mut blocks = [[0; 16]; 11];
        expand_blocks(&words, &mut blocks);
        let mut planes = [no_planes(); 11];
        expand_planes(&words, &mut planes);
        Key128 {
            words,
            blocks,
            planes,
        }
    }
}

impl Cipher for Key128 {
    ghost use Rattle.aes_lanes.specs.Cipher.{aes128, inverse_aes128};
    ghost use Rattle.aes_lanes.specs.Laws.Cipher.{aes-undone, length-aes};

    ghost image = { aes128 };

    ghost preimage = { inverse_aes128 };

    ghost length_image = { length-aes 4 };

    ghost undone = { aes-undone 4 };

    fn encrypt_blocks(&self, blocks: &mut [Block]) {
        cipher_all(Direction::Forward, &self.blocks, &self.planes, 10, blocks);
    }

    fn decrypt_blocks(&self, blocks: &mut [Block]) {
        cipher_all(Direction::Backward, &self.blocks, &self.planes, 10, blocks);
    }

    fn ctr32_xor(&self, start: &Block, bytes: &mut [u8]) {
        ctr32_under(&self.blocks, &self.planes, 10, start, bytes);
    }

    fn ctr32_stream(&self, start: &Block) -> [Block; 16] {
        counter_images(&self.planes, 10, start)
    }
}

/// A key of AES-256, of 32 bytes. A contract sees it as those bytes.
#[derive(Drop)]
pub struct Key256 {
    words: [u32; 60],
    blocks: [Block; 15],
    planes: [Planes; 15],
}

impl Model for Key256 {
    ghost use Rattle.std.specs.Prelude.{◌≡◌, ℕ, List};
    ghost use Rattle.aes_lanes.specs.PlaneList.{AreRoundKeys};
    ghost use Rattle.aes_lanes.specs.RoundKeys.{AreKeyBlocks};
    ghost use Rattle.aes_lanes.specs.Private.{key_of};
    ghost use Rattle.aes_lanes.specs.Cipher.{key_schedule};

    ghost Value = { List ℕ };

    ghost view = { λ key. key_of 8 key.words };

    ghost invariant = { λ key. record {
      schedule : key.words ≡ key_schedule 8 (key_of 8 key.words);
      blocks : AreKeyBlocks key.words key.blocks;
      planes : AreRoundKeys key.words key.planes;
    } };
}

impl Key256 {
    /// The key of these bytes, expanded.
    pub fn new(key: &[u8; 32]) -> Key256
        ensures { result ≡ key.now }
    {
        let mut words = [0; 60];
        expand_key(key, 8, &mut words);
        let mut blocks = [[0; 16]; 15];
        expand_blocks(&words, &mut blocks);
        let mut planes = [no_planes(); 15];
        expand_planes(&words, &mut planes);
        Key256 {
            words,
            blocks,
            planes,
        }
    }

    /// Becomes the key of these bytes, expanded in the place of the last one.
    pub fn renew(&mut self, key: &[u8; 32])
        ensures { self.new ≡ key.now }
    {
        expand_key(key, 8, &mut self.words);
        expand_blocks(&self.words, &mut self.blocks);
        expand_planes(&self.words, &mut self.planes);
    }
}

impl Cipher for Key256 {
    ghost use Rattle.aes_lanes.specs.Cipher.{aes256, inverse_aes256};
    ghost use Rattle.aes_lanes.specs.Laws.Cipher.{aes-undone, length-aes};

    ghost image = { aes256 };

    ghost preimage = { inverse_aes256 };

    ghost length_image = { length-aes 8 };

    ghost undone = { aes-undone 8 };

    fn encrypt_blocks(&self, blocks: &mut [Block]) {
        cipher_all(Direction::Forward, &self.blocks, &self.planes, 14, blocks);
    }

    fn decrypt_blocks(&self, blocks: &mut [Block]) {
        cipher_all(Direction::Backward, &self.blocks, &self.planes, 14, blocks);
    }

    fn ctr32_xor(&self, start: &Block, bytes: &mut [u8]) {
        ctr32_under(&self.blocks, &self.planes, 14, start, bytes);
    }

    fn ctr32_stream(&self, start: &Block) -> [Block; 16] {
        counter_images(&self.planes, 14, start)
    }
}
