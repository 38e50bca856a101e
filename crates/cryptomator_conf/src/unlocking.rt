//! The keys that `masterkey.cryptomator` and a passphrase give.

ghost use Rattle.std.specs.Prelude.{◌≡◌, IfOk, Err};
ghost use Rattle.vault_values.specs.declared.keys.CmKeys.{CmKeys};
ghost use Rattle.cryptomator_conf.specs.declared.fault.UnlockFault.TheVariants.{WrongPass};
ghost use Rattle.cryptomator_conf.specs.Keys.{AreKeys, Unlocks};

use crate::conf::MasterFile;
use crate::fault::UnlockFault;
use crate::keys::wrapping_key;
use aes_lanes::Key256;
use key_wrap::unwrap_key;
use std::alloc::Global;
use vault_values::CmKeys;

/// The keys of a vault, from its `masterkey.cryptomator` and passphrase. A passphrase that is UTF-8 is used in NFC, one
/// that isn't as its bytes.
///
/// It takes the memory of scrypt, 128 · n · r bytes and little more.
pub fn unlock(alloc: Global, file: &MasterFile, pass: &[u8]) -> Result<CmKeys, UnlockFault>
    ensures keys { IfOk result (λ keys. Unlocks file.now pass.now keys) }
    ensures wrong_pass { result ≡ Err WrongPass → (keys : CmKeys) → AreKeys keys → ¬ Unlocks file.now pass.now keys }
{
    let key = Key256::new(&wrapping_key(alloc, pass, file.salt.as_slice(), &file.cost)?);
    let Ok(enc) = unwrap_key(&key, &file.primary) else {
        return Err(UnlockFault::WrongPass);
    };
    let Ok(mac) = unwrap_key(&key, &file.hmac) else {
        return Err(UnlockFault::WrongPass);
    };
    Ok(CmKeys { enc, mac })
}
