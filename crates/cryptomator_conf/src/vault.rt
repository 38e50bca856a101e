//! Reading `vault.cryptomator`.

ghost use Rattle.std.specs.Prelude.{◌≡◌, ◌⊎◌, Ok, Err, IfOk, IfErr};
ghost use Rattle.cryptomator_conf.specs.declared.fault.CmConfFault.TheVariants.{NoMemory};
ghost use Rattle.cryptomator_conf.specs.Combo.{combo_of};
ghost use Rattle.cryptomator_conf.specs.Vault.{after, alg_of, vault_fields_of, settings_of, vault_in};
ghost use Rattle.cryptomator_conf.specs.Views.{jwt_view, fields_view, settings_view};

use crate::conf::{Alg, Combo, VaultFile};
use crate::fault::CmConfFault;
use crate::jwt::{Jwt, jwt_in};
use json_fields::{number_at, text_at};
use std::alloc::Global;
use vault_values::{Bytes, Text};

const KID: &str = "masterkeyfile:masterkey.cryptomator";

// The fields of the token's two objects.
#[derive(Clone, Copy)]
struct VaultFields<'v> {
    alg: &'v str,
    kid: &'v str,
    format: u64,
    combo: &'v str,
    threshold: u64,
}

// What the tests leave of them.
#[derive(Clone, Copy)]
struct Settings {
    alg: Alg,
    combo: Combo,
    threshold: u32,
}

/// What the bytes of `vault.cryptomator` say, or the first of their tests that they fail. The signature isn't tested.
#[tactic(auto, unfolding(crate::specs::Vault::vault_in))]
pub fn read_vault(alloc: Global, bytes: &[u8]) -> Result<VaultFile, CmConfFault>
    ensures file { IfOk result (λ file. vault_in bytes.now ≡ Ok file) }
    ensures fault { IfErr result (λ fault. (fault ≡ NoMemory) ⊎ (vault_in bytes.now ≡ Err fault)) }
{
    let Some(jwt) = jwt_in(alloc, bytes)? else {
        return Err(CmConfFault::NotJwt);
    };
    let settings = settings_in(alloc, &jwt)?;
    Ok(VaultFile {
        alg: settings.alg,
        combo: settings.combo,
        threshold: settings.threshold,
        signed: Bytes::new(jwt.signed),
        signature: Bytes::new(jwt.signature),
    })
}

// What the token's fields set, or the first of their tests that fails.
fn settings_in(alloc: Global, jwt: &Jwt) -> Result<Settings, CmConfFault>
    ensures settings { IfOk result (λ settings. after settings_of (vault_fields_of (jwt_view jwt.now)) ≡ Ok (settings_view settings)) }
    ensures fault { IfErr result (λ fault. (fault ≡ NoMemory)
        ⊎ (after settings_of (vault_fields_of (jwt_view jwt.now)) ≡ Err fault)) }
{
    let fields = vault_fields_of(alloc, jwt)?;
    settings_of(alloc, &fields)
}

// The fields of the token.
fn vault_fields_of<'v>(alloc: Global, jwt: &'v Jwt) -> Result<VaultFields<'v>, CmConfFault>
    ensures fields { IfOk result (λ fields. vault_fields_of (jwt_view jwt.now) ≡ Ok (fields_view fields)) }
    ensures fault { IfErr result (λ fault. (fault ≡ NoMemory)
        ⊎ (vault_fields_of (jwt_view jwt.now) ≡ Err fault)) }
{
    let alg = text_at(alloc, "alg", &jwt.header)?;
    let kid = text_at(alloc, "kid", &jwt.header)?;
    let format = number_at(alloc, "format", &jwt.payload)?;
    let combo = text_at(alloc, "cipherCombo", &jwt.payload)?;
    let threshold = number_at(alloc, "shorteningThreshold", &jwt.payload)?;
    Ok(VaultFields {
        alg,
        kid,
        format,
        combo,
        threshold,
    })
}

// What the fields set, or the first of their tests that fails.
fn settings_of(alloc: Global, fields: &VaultFields) -> Result<Settings, CmConfFault>
    ensures settings { IfOk result (λ settings. settings_of (fields_view fields.now) ≡ Ok (settings_view settings)) }
    ensures fault { IfErr result (λ fault. (fault ≡ NoMemory)
        ⊎ (settings_of (fields_view fields.now) ≡ Err fault)) }
{
    let Some(alg) = alg_of(fields.alg) else {
        return Err(CmConfFault::Alg(Text::copy_of(alloc, fields.alg)?));
    };
    if fields.kid != KID {
        return Err(CmConfFault::Kid(Text::copy_of(alloc, fields.kid)?));
    }
    if fields.format != 8 {
        return Err(CmConfFault::Format(fields.format));
    }
    let Some(combo) = combo_of(fields.combo) else {
        return Err(CmConfFault::Combo(Text::copy_of(alloc, fields.combo)?));
    };
    if fields.threshold < 36 || 1000 < fields.threshold {
        return Err(CmConfFault::Threshold(fields.threshold));
    }
    Ok(Settings {
        alg,
        combo,
        threshold: fields.threshold as u32,
    })
}

// The hash of a signature by its name.
fn alg_of(name: &str) -> Option<Alg>
    ensures { result ≡ alg_of name.now }
{
    match name {
        "HS256" => Some(Alg::Hs256),
        "HS384" => Some(Alg::Hs384),
        "HS512" => Some(Alg::Hs512),
        _ => None,
    }
}

// The ciphers of a vault by their name.
fn combo_of(name: &str) -> Option<Combo>
    ensures { result ≡ combo_of name.now }
{
    match name {
        "SIV_GCM" => Some(Combo::SivGcm),
        "SIV_CTRMAC" => Some(Combo::SivCtrMac),
        _ => None,
    }
}
