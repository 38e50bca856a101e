//! Texts in counter mode, stored with their nonce and a tag by HMAC.

ghost use Rattle.std.specs.Prelude.{◌≡◌, ◌≤◌, ◌-◌, ◌++◌, length};
ghost use Rattle.kdf_suite.specs.Hmac.{hmac_sha256};
ghost use Rattle.chunk_files.specs.Tagged.{is_long_tag_right, restored_text};

use aes_lanes::{Key256, ctr128_xor, same_bytes};
use kdf_suite::HmacPieces;

/// The length of a nonce in bytes.
pub const NONCE_SIZE: usize = 16;

/// The length of a tag in bytes.
pub const LONG_TAG_SIZE: usize = 32;

// The tag of some bytes with associated data.
pub fn long_tag_of(mac: &[u8; 32], associated: &[u8], bytes: &[u8]) -> [u8; LONG_TAG_SIZE]
    ensures { result ≡ hmac_sha256 mac.now (associated.now ++ bytes.now) }
{
    let mut pieces = HmacPieces::new(mac);
    pieces.update(associated);
    pieces.update(bytes);
    pieces.finish()
}

// Whether the tag at the end of what is stored is that of the bytes before it.
pub fn is_long_tag_right(mac: &[u8; 32], associated: &[u8], stored: &[u8]) -> bool
    requires { LONG_TAG_SIZE ≤ length stored.now }
    ensures { result ≡ is_long_tag_right mac.now associated.now stored.now }
{
    let end = stored.len() - LONG_TAG_SIZE;
    let tag = long_tag_of(mac, associated, &stored[..end]);
    same_bytes(&stored[end..], &tag)
}

// Puts the plain text of what is stored into `text`.
#[tactic(auto, unfolding(crate::specs::Tagged::restored_text))]
pub fn restore_text(key: &Key256, stored: &[u8], text: &mut [u8])
    requires least { 48 ≤ length stored.now }
    requires size { length text.old ≡ length stored.now - 48 }
    ensures { text.new ≡ restored_text key.now stored.now }
{
    let end = stored.len() - LONG_TAG_SIZE;
    let mut nonce = [0; NONCE_SIZE];
    nonce.copy_from_slice(&stored[..NONCE_SIZE]);
    text.copy_from_slice(&stored[NONCE_SIZE..end]);
    ctr128_xor(key, &nonce, text);
}
