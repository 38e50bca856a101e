// PBKDF2 (RFC 8018, section 5.2) over HMAC-SHA-256.

ghost use Rattle.std.specs.Prelude.{◌≡◌, ◌+◌, ◌*◌, ◌^◌, ◌≤◌, length};
ghost use Rattle.kdf_suite.specs.Pbkdf2.{pbkdf2_block, pbkdf2_sha256, pbkdf2_u};

use crate::blocks::{BLOCK_LEN, write_front, xor_into};
use crate::hmac::{HmacPieces, hmac256};

/// PBKDF2-HMAC-SHA-256 (RFC 8018, section 5.2): fills `out`, of at most 2^24 bytes, with the key
/// made of `pass` and `salt` in `rounds` rounds, at least one.
pub fn pbkdf2_256(pass: &[u8], salt: &[u8], rounds: u32, out: &mut [u8])
    requires some_round { 1 ≤ rounds }
    requires short { length out.old ≤ 2 ^ 24 }
    ensures { out.new ≡ pbkdf2_sha256 pass.now salt.now rounds (length out.old) }
{
    let count = out.len().div_ceil(BLOCK_LEN);
    'numbered: for index in 0..count {
        let block = derived_block(pass, salt, rounds, (index + 1) as u32);
        write_front(out, BLOCK_LEN * index, &block);
    }
}

// The block of this number.
fn derived_block(pass: &[u8], salt: &[u8], rounds: u32, number: u32) -> [u8; 32]
    requires { 1 ≤ rounds }
    ensures { result ≡ pbkdf2_block pass.now salt.now rounds number }
{
    let mut last = first_round(pass, salt, number);
    let mut block = last;
    'rounds: for _round in 1..rounds {
        let next = hmac256(pass, &last);
        xor_into(&mut block, &next);
        last = next;
    }
    block
}

fn first_round(pass: &[u8], salt: &[u8], number: u32) -> [u8; 32]
    ensures { result ≡ pbkdf2_u pass.now salt.now number 1 }
{
    let mut pieces = HmacPieces::new(pass);
    pieces.update(salt);
    pieces.update(&number.to_be_bytes());
    pieces.finish()
}
