//! The texts of a new configuration, and of one with another passphrase.

ghost use Rattle.std.specs.Prelude.{◌≡◌, IfOk, Err, string_bytes};
ghost use Rattle.vault_values.specs.declared.keys.GoKeys.{GoKeys};
ghost use Rattle.gocrypt_conf.specs.declared.fault.UnlockFault.TheVariants.{WrongPass};
ghost use Rattle.gocrypt_conf.specs.MasterKey.{Unlocks};
ghost use Rattle.gocrypt_conf.specs.Text.{Reseals, conf_text, made_conf};

use crate::conf::{GoConf, GoDraw};
use crate::fault::UnlockFault;
use crate::keys::unlocking_key;
use crate::master_key::seal_master;
use crate::unlocking::master_in;
use base64::display::Base64Display;
use base64::engine::general_purpose::STANDARD;
use kdf_suite::ScryptCost;
use std::alloc::{AllocError, Global};

/// The text of `gocryptfs.conf` for a new vault, whose master key, salt and nonce are drawn.
///
/// It takes the memory of scrypt, 128 · n · r bytes and little more.
pub fn make(
    alloc: Global,
    pass: &[u8],
    cost: &ScryptCost,
    drawn: &GoDraw,
) -> Result<Vec<u8>, AllocError>
    ensures { IfOk result (λ text. text.items ≡ conf_text (made_conf pass.now cost.now drawn.now)) }
{
    let key = unlocking_key(alloc, pass, &drawn.salt, cost)?;
    let sealed = seal_master(&key, &drawn.nonce, &drawn.master);
    let text = text_of(alloc, &drawn.salt, cost, &sealed)?;
    Ok(text.into_bytes())
}

/// The text of `gocryptfs.conf` for another passphrase: its master key, sealed under a salt and a nonce that are drawn anew.
/// Other fields of the old text aren't kept.
///
/// It takes the memory of scrypt at the dearer of both costs, 128 · n · r bytes and little more.
pub fn reseal(
    alloc: Global,
    conf: &GoConf,
    pass: &[u8],
    new_pass: &[u8],
    cost: &ScryptCost,
    salt: &[u8; 32],
    nonce: &[u8; 16],
) -> Result<Vec<u8>, UnlockFault>
    ensures text { IfOk result (λ text. Reseals conf.now pass.now new_pass.now cost.now salt.now nonce.now text.items) }
    ensures wrong_pass { result ≡ Err WrongPass → (keys : GoKeys) → ¬ Unlocks conf.now pass.now keys }
{
    let drawn = GoDraw {
        master: master_in(alloc, conf, pass)?,
        salt: *salt,
        nonce: *nonce,
    };
    let text = make(alloc, new_pass, cost, &drawn)?;
    Ok(text)
}

// The text of a configuration. Base64 stands in a JSON string as it is.
fn text_of(
    alloc: Global,
    salt: &[u8],
    cost: &ScryptCost,
    sealed: &[u8; 64],
) -> Result<String, AllocError>
    ensures { IfOk result (λ text. string_bytes text
        ≡ conf_text (record { salt = salt.now; cost = cost.now; sealed = sealed.now })) }
{
    let sealed = Base64Display::new(sealed, &STANDARD);
    let salt = Base64Display::new(salt, &STANDARD);
    let (n, r, p) = (cost.n(), cost.r(), cost.p());
    format!(in alloc;
        "{{\"Creator\":\"vaultmove 1\",\"EncryptedKey\":\"{sealed}\",\
         \"FeatureFlags\":[\"GCMIV128\",\"HKDF\",\"DirIV\",\"EMENames\",\"LongNames\",\"Raw64\"],\
         \"ScryptObject\":{{\"KeyLen\":32,\"N\":{n},\"P\":{p},\"R\":{r},\"Salt\":\"{salt}\"}},\"Version\":2}}"
    )
}
