//! The signature of `vault.cryptomator`.

ghost use Rattle.std.specs.Prelude.{◌≡◌, ◌↔◌, ◌++◌, IsOk, IsTrue};
ghost use Rattle.cryptomator_conf.specs.Signature.{signature_of};

use crate::conf::{Alg, VaultFile};
use crate::fault::BadSignature;
use aes_lanes::same_bytes;
use kdf_suite::{hmac256, hmac384, hmac512};
use vault_values::CmKeys;

/// Whether the signature of `vault.cryptomator` is the keys'. It takes no memory.
pub fn check_signature(file: &VaultFile, keys: &CmKeys) -> Result<(), BadSignature>
    ensures { IsOk result ↔ (file.now.signature ≡ signature_of file.now.alg keys.now file.now.signed) }
{
    if is_signature(
        file.alg,
        keys,
        file.signed.as_slice(),
        file.signature.as_slice(),
    ) {
        Ok(())
    } else {
        Err(BadSignature)
    }
}

// Whether some bytes are the keys' signature of a text.
fn is_signature(alg: Alg, keys: &CmKeys, text: &[u8], bytes: &[u8]) -> bool
    ensures { IsTrue result ↔ (bytes.now ≡ signature_of alg keys.now text.now) }
{
    let key = signing_key(keys);
    match alg {
        Alg::Hs256 => same_bytes(bytes, &hmac256(&key, text)),
        Alg::Hs384 => same_bytes(bytes, &hmac384(&key, text)),
        Alg::Hs512 => same_bytes(bytes, &hmac512(&key, text)),
    }
}

// The two keys as one.
pub(crate) fn signing_key(keys: &CmKeys) -> [u8; 64]
    ensures { result ≡ keys.now.enc ++ keys.now.mac }
{
    let mut key = [0; 64];
    let (enc, mac) = key.split_at_mut(32);
    enc.copy_from_slice(&keys.enc);
    mac.copy_from_slice(&keys.mac);
    key
}
