// HKDF (RFC 5869) over HMAC-SHA-256.

ghost use Rattle.std.specs.Prelude.{◌≡◌, ◌+◌, ◌*◌, ◌≤◌, [], ◌∷◌, ◌++◌, length};
ghost use Rattle.kdf_suite.specs.Hkdf.{hkdf_sha256};
ghost use Rattle.kdf_suite.specs.Hmac.{hmac_sha256};

use crate::blocks::{BLOCK_LEN, write_front};
use crate::hmac::{HmacPieces, hmac256};

/// HKDF-SHA-256 (RFC 5869): fills `out`, of at most 8,160 bytes, with the key made of `secret`,
/// `salt` and `info`. An empty salt stands for no salt.
pub fn hkdf256(secret: &[u8], salt: &[u8], info: &[u8], out: &mut [u8])
    requires { length out.old ≤ 8160 }
    ensures { out.new ≡ hkdf_sha256 secret.now salt.now info.now (length out.old) }
{
    let key = hmac256(salt, secret);
    let mut block = [0u8; BLOCK_LEN];
    // T(0) is empty, and each later block has 32 bytes.
    let mut block_len = 0;
    let count = out.len().div_ceil(BLOCK_LEN);
    'numbered: for index in 0..count {
        let next = next_block(&key, &block[..block_len], info, (index + 1) as u8);
        write_front(out, BLOCK_LEN * index, &next);
        block = next;
        block_len = BLOCK_LEN;
    }
}

// The block of this number, after the block before it.
fn next_block(key: &[u8], before: &[u8], info: &[u8], number: u8) -> [u8; 32]
    ensures { result ≡ hmac_sha256 key.now (before.now ++ info.now ++ number ∷ []) }
{
    let mut pieces = HmacPieces::new(key);
    pieces.update(before);
    pieces.update(info);
    pieces.update(&[number]);
    pieces.finish()
}
