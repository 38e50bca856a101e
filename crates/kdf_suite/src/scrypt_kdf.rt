// scrypt (RFC 7914, section 6).

ghost use Rattle.std.specs.Prelude.{◌≡◌, ◌+◌, ◌*◌, ◌^◌, ◌<◌, ◌≤◌, ◌++◌, length, IfOk, OnOk, OnErr};
ghost use Rattle.std.specs.Int.{IsPowerOfTwo};
ghost use Rattle.kdf_suite.specs.Blocks.{joined};
ghost use Rattle.kdf_suite.specs.Scrypt.{bytes_of, mixed_part, scrypt_key, word_at, words_of};

use crate::pbkdf2::pbkdf2_256;
use crate::ro_mix::ro_mix;
use crate::scrypt_cost::ScryptCost;
use std::alloc::{AllocError, Global};

/// scrypt (RFC 7914): fills `out`, of at most 2^24 bytes, with the key made of `pass` and `salt` at
/// this cost.
///
/// It takes a table of 128 · n · r bytes, and little more. After an `Err`, for want of memory, `out`
/// is unchanged.
pub fn scrypt(
    alloc: Global,
    pass: &[u8],
    salt: &[u8],
    cost: &ScryptCost,
    out: &mut [u8],
) -> Result<(), AllocError>
    requires { length out.old ≤ 2 ^ 24 }
    ensures key { OnOk result (out.new
        ≡ scrypt_key pass.now salt.now cost.now.n cost.now.r cost.now.p (length out.old)) }
    ensures err { OnErr result (out.new ≡ out.old) }
{
    let n = cost.n() as usize;
    let r = cost.r() as usize;
    let p = cost.p() as usize;
    let mut parts = vec![in alloc; 0u8; 128 * r * p]?;
    pbkdf2_256(pass, salt, 1, &mut parts);
    let mixed = mix_parts(alloc, &parts, n, r, p)?;
    pbkdf2_256(pass, &mixed, 1, out);
    Ok(())
}

// Each of the p parts through ROMix, one after another.
fn mix_parts(
    alloc: Global,
    parts: &[u8],
    n: usize,
    r: usize,
    p: usize,
) -> Result<Vec<u8>, AllocError>
    requires low { 1 ≤ r }
    requires power { IsPowerOfTwo n }
    requires fits { 32 * r * n < 2 ^ 32 }
    requires parts { length parts.now ≡ 128 * r * p }
    ensures { IfOk result (λ mixed. mixed.items ≡ joined (mixed_part n r parts.now) p) }
{
    let mut mixed = Vec::with_capacity(alloc, parts.len())?;
    'parts: for i in 0..p {
        let start = 128 * r * i;
        let mut words = words_of(alloc, &parts[start..start + 128 * r], 32 * r)?;
        ro_mix(alloc, &mut words, n, r)?;
        append_bytes(&mut mixed, &words)?;
    }
    Ok(mixed)
}

// The n words of `bytes`, low byte first.
fn words_of(alloc: Global, bytes: &[u8], n: usize) -> Result<Vec<u32>, AllocError>
    requires { length bytes.now ≡ 4 * n }
    ensures words { IfOk result (λ words. words.items ≡ words_of n bytes.now) }
    ensures count { IfOk result (λ words. length words.items ≡ n) }
{
    let mut words = Vec::with_capacity(alloc, n)?;
    'words: for i in 0..n {
        words.push(word_at(bytes, i))?;
    }
    Ok(words)
}

// The word of this place.
fn word_at(bytes: &[u8], i: usize) -> u32
    requires { 4 * i + 4 ≤ length bytes.now }
    ensures { result ≡ word_at bytes.now i }
{
    u32::from_le_bytes([
        bytes[4 * i],
        bytes[4 * i + 1],
        bytes[4 * i + 2],
        bytes[4 * i + 3],
    ])
}

// Appends the bytes of `words`, low byte first.
fn append_bytes(bytes: &mut Vec<u8>, words: &[u32]) -> Result<(), AllocError>
    ensures { OnOk result (bytes.new.items ≡ bytes.old.items ++ bytes_of words.now) }
{
    for word in words {
        bytes.extend_from_slice(&word.to_le_bytes())?;
    }
    Ok(())
}
