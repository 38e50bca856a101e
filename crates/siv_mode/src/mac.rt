// CMAC (RFC 4493).

ghost use Rattle.std.specs.Prelude.{◌≡◌, ◌≤◌, length};
ghost use Rattle.aes_lanes.specs.Bytes.{xor_bytes};
ghost use Rattle.siv_mode.specs.Cmac.{cmac as cmac_of, first_subkey, last_block as last_block_of};
ghost use Rattle.siv_mode.specs.Private.{cmac_from as cmac_from_of};

use super::blocks::{doubled, padded, sum, whole};
use aes_lanes::{Block, Cipher};
use std::marker::Model;

/// CMAC under a cipher's key, with the first of the two subkeys made of it.
#[derive(Drop)]
pub struct Cmac<C: Cipher> {
    cipher: C,
    subkey: Block,
}

impl<C: Cipher> Model for Cmac<C> {
    ghost use Rattle.std.specs.Prelude.{◌≡◌};
    ghost use Rattle.siv_mode.specs.Cmac.{first_subkey};

    ghost Value = { C };

    ghost view = { λ m. m.cipher };

    ghost invariant = { λ m. m.subkey ≡ first_subkey (C.image m.cipher) };
}

impl<C: Cipher> Cmac<C> {
    /// CMAC under the cipher's key, whose subkey is made here (section 2.3).
    pub fn new(cipher: C) -> Cmac<C>
        ensures { result ≡ cipher }
    {
        let subkey = first_subkey(&cipher);
        Cmac { cipher, subkey }
    }

    /// CMAC of a text (section 2.4).
    pub fn of(&self, text: &[u8]) -> Block
        ensures { result ≡ cmac_of (C.image self.now) text.now }
    {
        self.from(&[0; 16], text)
    }

    // CMAC of a text, from a value on.
    pub(crate) fn from(&self, start: &Block, text: &[u8]) -> Block
        ensures { result ≡ cmac_from_of (C.image self.now) start.now text.now }
    {
        let mut value = *start;
        let mut rest = text;
        while rest.len() > 16 {
            let (block, others) = rest.split_at(16);
            let next = self.chained(&value, &whole(block));
            value = next;
            rest = others;
        }
        self.chained(&value, &self.last_block(rest))
    }

    // The value after one more block.
    pub(crate) fn chained(&self, value: &Block, block: &Block) -> Block
        ensures { result ≡ C.image self.now (xor_bytes value.now block.now) }
    {
        image(&self.cipher, &sum(value, block))
    }

    // The last block of a text, with the subkey that it takes.
    fn last_block(&self, bytes: &[u8]) -> Block
        requires { length bytes.now ≤ 16 }
        ensures { result ≡ last_block_of (C.image self.now) bytes.now }
    {
        if bytes.len() == 16 {
            return sum(&whole(bytes), &self.subkey);
        }
        sum(&padded(bytes), &doubled(&self.subkey))
    }
}

fn first_subkey<C: Cipher>(cipher: &C) -> Block
    ensures { result ≡ first_subkey (C.image cipher.now) }
{
    doubled(&image(cipher, &[0; 16]))
}

fn image<C: Cipher>(cipher: &C, block: &Block) -> Block
    ensures { result ≡ C.image cipher.now block.now }
{
    let mut blocks = [*block];
    cipher.encrypt_blocks(&mut blocks);
    blocks[0]
}
