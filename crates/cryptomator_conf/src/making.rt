//! The texts of new configuration files, and of one with another passphrase.

ghost use Rattle.std.specs.Prelude.{◌≡◌, IfOk, Err, string_bytes};
ghost use Rattle.vault_values.specs.declared.keys.CmKeys.{CmKeys};
ghost use Rattle.cryptomator_conf.specs.declared.fault.UnlockFault.TheVariants.{WrongPass};
ghost use Rattle.cryptomator_conf.specs.Keys.{AreKeys, Unlocks};
ghost use Rattle.cryptomator_conf.specs.Text.{Rewraps, made_master, master_of, master_text, payload_text, signed_text, vault_text, version_mac, version_bytes};

use crate::conf::{CmDraw, CmFiles, Combo, MasterFile};
use crate::fault::UnlockFault;
use crate::keys::wrapping_key;
use crate::signing::signing_key;
use crate::unlocking::unlock;
use aes_lanes::Key256;
use base64::display::Base64Display;
use base64::engine::general_purpose::{STANDARD, URL_SAFE_NO_PAD};
use kdf_suite::{ScryptCost, hmac256};
use key_wrap::wrap_key;
use std::alloc::{AllocError, Global};
use vault_values::{Bytes, CmKeys, id_text};

const HEADER: &str =
    "{\"alg\":\"HS256\",\"kid\":\"masterkeyfile:masterkey.cryptomator\",\"typ\":\"JWT\"}";

const VERSION: u32 = 999;

/// The texts of `masterkey.cryptomator` and `vault.cryptomator` for a new vault with SIV_GCM: those of `make_combo`.
pub fn make(
    alloc: Global,
    pass: &[u8],
    cost: &ScryptCost,
    drawn: &CmDraw,
) -> Result<CmFiles, AllocError>
    ensures master { IfOk result (λ files. files.master
        ≡ master_text (made_master pass.now cost.now drawn.now) (version_mac drawn.now.mac version_bytes)) }
    ensures vault { IfOk result (λ files. files.vault ≡ vault_text Combo.SivGcm drawn.now) }
{
    make_combo(alloc, pass, cost, Combo::SivGcm, drawn)
}

/// The texts of `masterkey.cryptomator` and `vault.cryptomator` for a new vault with these ciphers, whose keys, salt and id
/// are drawn. The keys are wrapped at the cost's n and r, with one part.
///
/// It takes the memory of scrypt, 128 · n · r bytes and little more.
pub fn make_combo(
    alloc: Global,
    pass: &[u8],
    cost: &ScryptCost,
    combo: Combo,
    drawn: &CmDraw,
) -> Result<CmFiles, AllocError>
    ensures master { IfOk result (λ files. files.master
        ≡ master_text (made_master pass.now cost.now drawn.now) (version_mac drawn.now.mac version_bytes)) }
    ensures vault { IfOk result (λ files. files.vault ≡ vault_text combo drawn.now) }
{
    let keys = CmKeys {
        enc: drawn.enc,
        mac: drawn.mac,
    };
    let master = wrapped_text(alloc, pass, cost, &drawn.salt, &keys)?;
    Ok(CmFiles {
        master: Bytes::new(master.into_bytes()),
        vault: Bytes::new(vault_text(alloc, combo, drawn)?.into_bytes()),
    })
}

/// The text of `masterkey.cryptomator` for another passphrase: its two keys, wrapped under a salt that is drawn anew, at the
/// cost's n and r, with one part. `vault.cryptomator` stays as it is.
///
/// It takes the memory of scrypt at the dearer of both costs, 128 · n · r bytes and little more.
pub fn rewrap(
    alloc: Global,
    file: &MasterFile,
    pass: &[u8],
    new_pass: &[u8],
    cost: &ScryptCost,
    salt: &[u8; 8],
) -> Result<Vec<u8>, UnlockFault>
    ensures text { IfOk result (λ text. Rewraps file.now pass.now new_pass.now cost.now salt.now text.items) }
    ensures wrong_pass { result ≡ Err WrongPass → (keys : CmKeys) → AreKeys keys → ¬ Unlocks file.now pass.now keys }
{
    let keys = unlock(alloc, file, pass)?;
    let text = wrapped_text(alloc, new_pass, cost, salt, &keys)?;
    Ok(text.into_bytes())
}

// The text of `masterkey.cryptomator` with these keys, wrapped under the passphrase's key.
fn wrapped_text(
    alloc: Global,
    pass: &[u8],
    cost: &ScryptCost,
    salt: &[u8; 8],
    keys: &CmKeys,
) -> Result<String, AllocError>
    ensures { IfOk result (λ text. string_bytes text
        ≡ master_text (master_of pass.now cost.now salt.now keys.now) (version_mac keys.now.mac version_bytes)) }
{
    let cost = one_part(cost);
    let key = Key256::new(&wrapping_key(alloc, pass, salt, &cost)?);
    let primary = wrap_key(&key, &keys.enc);
    let hmac = wrap_key(&key, &keys.mac);
    let tag = hmac256(&keys.mac, &VERSION.to_be_bytes());
    master_text(alloc, &cost, salt, &primary, &hmac, &tag)
}

// The same cost with one part.
fn one_part(cost: &ScryptCost) -> ScryptCost
    ensures { result ≡ record { n = cost.now.n; r = cost.now.r; p = 1 } }
{
    match ScryptCost::new(cost.n(), cost.r(), 1) {
        Ok(cost) => cost,
        Err(_) => *cost,
    }
}

// The text of `masterkey.cryptomator`, with the tag of its version. Base64 stands in a JSON string as it is.
fn master_text(
    alloc: Global,
    cost: &ScryptCost,
    salt: &[u8; 8],
    primary: &[u8; 40],
    hmac: &[u8; 40],
    tag: &[u8; 32],
) -> Result<String, AllocError>
    ensures { IfOk result (λ text. string_bytes text
        ≡ master_text (record { salt = salt.now; cost = cost.now; primary = primary.now; hmac = hmac.now }) tag.now) }
{
    let hmac = Base64Display::new(hmac, &STANDARD);
    let primary = Base64Display::new(primary, &STANDARD);
    let salt = Base64Display::new(salt, &STANDARD);
    let tag = Base64Display::new(tag, &STANDARD);
    let (r, n) = (cost.r(), cost.n());
    format!(in alloc;
        "{{\"hmacMasterKey\":\"{hmac}\",\"primaryMasterKey\":\"{primary}\",\
         \"scryptBlockSize\":{r},\"scryptCostParam\":{n},\"scryptSalt\":\"{salt}\",\
         \"version\":999,\"versionMac\":\"{tag}\"}}"
    )
}

// The text of `vault.cryptomator`.
#[tactic(auto, unfolding(crate::specs::Text::vault_text))]
fn vault_text(alloc: Global, combo: Combo, drawn: &CmDraw) -> Result<String, AllocError>
    ensures { IfOk result (λ text. string_bytes text ≡ vault_text combo drawn.now) }
{
    let id = id_text(alloc, &drawn.jti)?;
    let mut text = signed_text(alloc, combo, id.as_str())?;
    let keys = CmKeys {
        enc: drawn.enc,
        mac: drawn.mac,
    };
    let signature = hmac256(&signing_key(&keys), text.as_bytes());
    text.push_str(".")?;
    URL_SAFE_NO_PAD.encode_string(&signature, &mut text)?;
    Ok(text)
}

// What is signed: the two objects, with a dot between them.
fn signed_text(alloc: Global, combo: Combo, id: &str) -> Result<String, AllocError>
    ensures { IfOk result (λ text. string_bytes text ≡ signed_text combo id.now) }
{
    let payload = payload_text(alloc, combo, id)?;
    let header = Base64Display::new(HEADER.as_bytes(), &URL_SAFE_NO_PAD);
    let payload = Base64Display::new(payload.as_bytes(), &URL_SAFE_NO_PAD);
    format!(in alloc; "{header}.{payload}")
}

// The text of the token's second object.
#[tactic(auto, unfolding(crate::specs::Text::payload_text))]
fn payload_text(alloc: Global, combo: Combo, id: &str) -> Result<String, AllocError>
    ensures { IfOk result (λ text. string_bytes text ≡ payload_text combo id.now) }
{
    let name = combo.name();
    format!(in alloc;
        "{{\"cipherCombo\":\"{name}\",\"format\":8,\"jti\":\"{id}\",\"shorteningThreshold\":220}}"
    )
}
