//! The keys of a Cryptomator vault.

ghost use Rattle.std.specs.Prelude.{◌≡◌, IfOk};
ghost use Rattle.cryptomator_conf.specs.Keys.{passphrase, wrapping_key};

use kdf_suite::{ScryptCost, scrypt};
use std::alloc::{AllocError, Global};
use std::str;
use unicode_normalization::to_nfc;

// The key that both keys are wrapped under.
#[tactic(auto, unfolding(crate::specs::Keys::wrapping_key))]
pub(crate) fn wrapping_key(
    alloc: Global,
    pass: &[u8],
    salt: &[u8],
    cost: &ScryptCost,
) -> Result<[u8; 32], AllocError>
    ensures { IfOk result (λ key. key ≡ wrapping_key pass.now salt.now cost.now) }
{
    let pass = passphrase(alloc, pass)?;
    let mut key = [0; 32];
    scrypt(alloc, pass.as_slice(), salt, cost, &mut key)?;
    Ok(key)
}

// The passphrase as it is used.
#[tactic(auto, unfolding(crate::specs::Keys::passphrase))]
fn passphrase(alloc: Global, pass: &[u8]) -> Result<Vec<u8>, AllocError>
    ensures { IfOk result (λ used. used.items ≡ passphrase pass.now) }
{
    match str::from_utf8(pass) {
        Ok(text) => Ok(to_nfc(alloc, text)?.into_bytes()),
        Err(_) => Vec::from_slice(alloc, pass),
    }
}
