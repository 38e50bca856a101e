//! The keys that a configuration and a passphrase give.

ghost use Rattle.std.specs.Prelude.{◌≡◌, ℕ, List, IfOk, Err};
ghost use Rattle.vault_values.specs.declared.keys.GoKeys.{GoKeys};
ghost use Rattle.gocrypt_conf.specs.declared.fault.UnlockFault.TheVariants.{WrongPass};
ghost use Rattle.gocrypt_conf.specs.MasterKey.{Holds, Unlocks};

use crate::conf::GoConf;
use crate::fault::UnlockFault;
use crate::keys::{keys_of, unlocking_key};
use crate::master_key::unseal_master;
use std::alloc::Global;
use vault_values::GoKeys;

/// The keys of a vault, from its configuration and passphrase.
///
/// It takes the memory of scrypt, 128 · n · r bytes and little more.
pub fn unlock(alloc: Global, conf: &GoConf, pass: &[u8]) -> Result<GoKeys, UnlockFault>
    ensures keys { IfOk result (λ keys. Unlocks conf.now pass.now keys) }
    ensures wrong_pass { result ≡ Err WrongPass → (keys : GoKeys) → ¬ Unlocks conf.now pass.now keys }
{
    let master = master_in(alloc, conf, pass)?;
    Ok(keys_of(&master))
}

// The master key that a configuration holds under the passphrase.
pub(crate) fn master_in(alloc: Global, conf: &GoConf, pass: &[u8]) -> Result<[u8; 32], UnlockFault>
    ensures master { IfOk result (λ master. Holds conf.now pass.now master) }
    ensures wrong_pass { result ≡ Err WrongPass → (master : List ℕ) → ¬ Holds conf.now pass.now master }
{
    let key = unlocking_key(alloc, pass, conf.salt.as_slice(), &conf.cost)?;
    match unseal_master(&key, &conf.sealed) {
        Ok(master) => Ok(master),
        Err(_) => Err(UnlockFault::WrongPass),
    }
}
