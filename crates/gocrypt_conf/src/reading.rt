//! Reading `gocryptfs.conf`.

ghost use Rattle.std.specs.Prelude.{◌≡◌, ◌⊎◌, Ok, Err, IfOk, IfErr, option_map};
ghost use Rattle.gocrypt_conf.specs.declared.fault.GoConfFault.TheVariants.{Flag, Length, NoMemory};
ghost use Rattle.std.specs.List.{list_any};
ghost use Rattle.std.specs.Str.{bytes_eq};
ghost use Rattle.gocrypt_conf.specs.Tests.{Checks, ReadsAs, first_outside};
ghost use Rattle.json_fields.specs.Views.{texts_view};
ghost use Rattle.gocrypt_conf.specs.Views.{fields_view};

use crate::conf::GoConf;
use crate::fault::GoConfFault;
use crate::fields::{Fields, fields_of};
use json_fields::json_object;
use kdf_suite::ScryptCost;
use std::alloc::Global;
use vault_values::{Bytes, Text};

// The flags that must all be there, and no others.
const KNOWN_FLAGS: [&str; 6] = [
    "GCMIV128",
    "HKDF",
    "DirIV",
    "EMENames",
    "LongNames",
    "Raw64",
];

/// The configuration that the bytes of `gocryptfs.conf` are, or the first of its tests that they fail.
#[tactic(auto, unfolding(crate::specs::Fields::fields_in))]
pub fn read(alloc: Global, bytes: &[u8]) -> Result<GoConf, GoConfFault>
    ensures conf { IfOk result (λ conf. ReadsAs bytes.now (Ok conf)) }
    ensures fault { IfErr result (λ fault. (fault ≡ NoMemory) ⊎ ReadsAs bytes.now (Err fault)) }
{
    let Some(conf) = json_object(alloc, bytes)? else {
        return Err(GoConfFault::NotJson);
    };
    let fields = fields_of(alloc, &conf)?;
    conf_of(alloc, fields)
}

// The configuration that the fields make, or the first of their tests that fails.
fn conf_of(alloc: Global, fields: Fields) -> Result<GoConf, GoConfFault>
    ensures conf { IfOk result (λ conf. Checks (fields_view fields.entry) (Ok conf)) }
    ensures fault { IfErr result (λ fault. (fault ≡ NoMemory) ⊎ Checks (fields_view fields.entry) (Err fault)) }
{
    if fields.version != 2 {
        return Err(GoConfFault::Version(fields.version));
    }
    if let Some(unknown) = first_outside(&KNOWN_FLAGS, &fields.flags) {
        return Err(flag_fault(alloc, unknown));
    }
    if let Some(missing) = first_outside(&fields.flags, &KNOWN_FLAGS) {
        return Err(flag_fault(alloc, missing));
    }
    let Ok(cost) = ScryptCost::new(fields.scrypt.n, fields.scrypt.r, fields.scrypt.p) else {
        return Err(GoConfFault::Cost);
    };
    if fields.sealed.len() != 64 {
        return Err(length_fault(alloc, "EncryptedKey"));
    }
    if fields.scrypt.key_len != 32 {
        return Err(length_fault(alloc, "KeyLen"));
    }
    let mut sealed = [0; 64];
    sealed.copy_from_slice(fields.sealed.as_slice());
    Ok(GoConf {
        salt: Bytes::new(fields.scrypt.salt),
        cost,
        sealed,
    })
}

// The first of some texts that isn't among others.
fn first_outside<'t>(others: &[&str], texts: &[&'t str]) -> Option<&'t str>
    ensures { option_map (λ text. text.now) result
        ≡ first_outside (texts_view others.now) (texts_view texts.now) }
{
    for text in texts {
        if !contains(others, text) {
            return Some(text);
        }
    }
    None
}

fn contains(texts: &[&str], text: &str) -> bool
    ensures { result ≡ list_any (λ other. bytes_eq other text.now) (texts_view texts.now) }
{
    texts.contains(&text)
}

// The fault of this flag.
fn flag_fault(alloc: Global, flag: &str) -> GoConfFault
    ensures { (result ≡ NoMemory) ⊎ (result ≡ Flag flag.now) }
{
    match Text::copy_of(alloc, flag) {
        Ok(flag) => GoConfFault::Flag(flag),
        Err(_) => GoConfFault::NoMemory,
    }
}

// The fault of the length of the field of this name.
fn length_fault(alloc: Global, name: &str) -> GoConfFault
    ensures { (result ≡ NoMemory) ⊎ (result ≡ Length name.now) }
{
    match Text::copy_of(alloc, name) {
        Ok(name) => GoConfFault::Length(name),
        Err(_) => GoConfFault::NoMemory,
    }
}
