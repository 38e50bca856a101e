//! The keys of a gocryptfs vault.

ghost use Rattle.std.specs.Prelude.{◌≡◌, IfOk};
ghost use Rattle.gocrypt_conf.specs.Keys.{derived_key, keys_of, unlocking_key};

use kdf_suite::{ScryptCost, hkdf256, scrypt};
use std::alloc::{AllocError, Global};
use vault_values::GoKeys;

const CONTENT_INFO: &[u8] = b"AES-GCM file content encryption";

const NAMES_INFO: &[u8] = b"EME filename encryption";

// The keys of a vault with this master key.
pub(crate) fn keys_of(master: &[u8; 32]) -> GoKeys
    ensures { result ≡ keys_of master.now }
{
    GoKeys {
        content: derived_key(master, CONTENT_INFO),
        names: derived_key(master, NAMES_INFO),
    }
}

// The key that the master key is sealed under.
#[tactic(auto, unfolding(crate::specs::Keys::unlocking_key))]
pub(crate) fn unlocking_key(
    alloc: Global,
    pass: &[u8],
    salt: &[u8],
    cost: &ScryptCost,
) -> Result<[u8; 32], AllocError>
    ensures { IfOk result (λ key. key ≡ unlocking_key pass.now salt.now cost.now) }
{
    let mut stretched = [0; 32];
    scrypt(alloc, pass, salt, cost, &mut stretched)?;
    Ok(derived_key(&stretched, CONTENT_INFO))
}

#[tactic(auto, unfolding(crate::specs::Keys::derived_key))]
fn derived_key(secret: &[u8; 32], info: &[u8]) -> [u8; 32]
    ensures { result ≡ derived_key secret.now info.now }
{
    let mut key = [0; 32];
    hkdf256(secret, &[], info, &mut key);
    key
}
