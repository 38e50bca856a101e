// HMAC (RFC 2104) over SHA-256, SHA-384 and SHA-512.

ghost use Rattle.std.specs.Prelude.{◌≡◌, ℕ, ◌≤◌, List, [], ◌++◌, length};
ghost use Rattle.sha2.specs.Sha512.{sha384, sha512};
ghost use Rattle.kdf_suite.specs.HmacPieces.{HoldsText, HoldsUnder};
ghost use Rattle.kdf_suite.specs.Hmac.{hmac_of_block, hmac_sha256, hmac_sha384, hmac_sha512, xored_with, zero_padded};

use sha2::{Digest, Sha256, Sha384, Sha512};
use std::marker::Model;

// The block lengths of SHA-256, and of SHA-384 and SHA-512, in bytes.
const SHA256_BLOCK: usize = 64;

const SHA512_BLOCK: usize = 128;

const INNER_PAD: u8 = 0x36;

const OUTER_PAD: u8 = 0x5C;

// A key of at most one block, filled up with zeros, with each byte xored with the pad.
fn padded_key<const BLOCK: usize>(key: &[u8], pad: u8) -> [u8; BLOCK]
    requires { length key.now ≤ BLOCK }
    ensures { result ≡ xored_with pad (zero_padded BLOCK key.now) }
{
    let mut out = [0u8; BLOCK];
    out[..key.len()].copy_from_slice(key);
    'bytes: for i in 0..BLOCK {
        out[i] ^= pad;
    }
    out
}

/// HMAC-SHA-256 (RFC 2104) of `text` under `key`, each of any length.
pub fn hmac256(key: &[u8], text: &[u8]) -> [u8; 32]
    ensures { result ≡ hmac_sha256 key.now text.now }
{
    let mut pieces = HmacPieces::new(key);
    pieces.update(text);
    pieces.finish()
}

/// HMAC-SHA-384 (RFC 2104) of `text` under `key`, each of any length.
pub fn hmac384(key: &[u8], text: &[u8]) -> [u8; 48]
    ensures { result ≡ hmac_sha384 key.now text.now }
{
    if key.len() > SHA512_BLOCK {
        return hmac384_under(&Sha384::digest(key), text);
    }
    hmac384_under(key, text)
}

// HMAC-SHA-384 under a key of at most one block.
fn hmac384_under(key: &[u8], text: &[u8]) -> [u8; 48]
    requires { length key.now ≤ 128 }
    ensures { result ≡ hmac_of_block sha384 (zero_padded 128 key.now) text.now }
{
    let mut inner = Sha384::new();
    inner.update(padded_key::<SHA512_BLOCK>(key, INNER_PAD));
    inner.update(text);
    let mut outer = Sha384::new();
    outer.update(padded_key::<SHA512_BLOCK>(key, OUTER_PAD));
    outer.update(inner.finalize());
    outer.finalize()
}

/// HMAC-SHA-512 (RFC 2104) of `text` under `key`, each of any length.
pub fn hmac512(key: &[u8], text: &[u8]) -> [u8; 64]
    ensures { result ≡ hmac_sha512 key.now text.now }
{
    if key.len() > SHA512_BLOCK {
        return hmac512_under(&Sha512::digest(key), text);
    }
    hmac512_under(key, text)
}

// HMAC-SHA-512 under a key of at most one block.
fn hmac512_under(key: &[u8], text: &[u8]) -> [u8; 64]
    requires { length key.now ≤ 128 }
    ensures { result ≡ hmac_of_block sha512 (zero_padded 128 key.now) text.now }
{
    let mut inner = Sha512::new();
    inner.update(padded_key::<SHA512_BLOCK>(key, INNER_PAD));
    inner.update(text);
    let mut outer = Sha512::new();
    outer.update(padded_key::<SHA512_BLOCK>(key, OUTER_PAD));
    outer.update(inner.finalize());
    outer.finalize()
}

/// HMAC-SHA-256 (RFC 2104) of a text that comes in pieces. A contract sees it as its two hashes.
#[derive(Drop)]
pub struct HmacPieces {
    inner: Sha256,
    outer: Sha256,
}

impl Model for HmacPieces {
    ghost use Rattle.kdf_suite.specs.HmacPieces.{TwoHashes};

    ghost Value = { TwoHashes };

    ghost view = { λ pieces. record { inner = pieces.inner; outer = pieces.outer } };
}

impl HmacPieces {
    /// Begins an HMAC under `key`, of any length, with no text yet.
    pub fn new(key: &[u8]) -> HmacPieces
        ensures { HoldsText result key.now [] }
    {
        if key.len() > SHA256_BLOCK {
            return HmacPieces::under(&Sha256::digest(key));
        }
        HmacPieces::under(key)
    }

    // Under a key of at most one block.
    fn under(key: &[u8]) -> HmacPieces
        requires { length key.now ≤ 64 }
        ensures { HoldsUnder result (zero_padded 64 key.now) [] }
    {
        let mut inner = Sha256::new();
        inner.update(padded_key::<SHA256_BLOCK>(key, INNER_PAD));
        let mut outer = Sha256::new();
        outer.update(padded_key::<SHA256_BLOCK>(key, OUTER_PAD));
        HmacPieces { inner, outer }
    }

    /// Appends `piece` to the text.
    pub fn update(&mut self, piece: &[u8])
        ensures { (key text : List ℕ) → HoldsText self.old key text
            → HoldsText self.new key (text ++ piece.now) }
    {
        self.inner.update(piece);
    }

    /// The HMAC of the text.
    pub fn finish(self) -> [u8; 32]
        ensures { (key text : List ℕ) → HoldsText self key text → result ≡ hmac_sha256 key text }
    {
        let HmacPieces { inner, mut outer } = self;
        outer.update(inner.finalize());
        outer.finalize()
    }
}
