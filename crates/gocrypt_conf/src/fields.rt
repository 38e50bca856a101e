// The fields of a configuration, as they stand in its JSON.

ghost use Rattle.std.specs.Prelude.{◌≡◌, ◌⊎◌, Ok, Err, IfOk, IfErr};
ghost use Rattle.serde_json.specs.View.{view};
ghost use Rattle.gocrypt_conf.specs.declared.fault.GoConfFault.TheVariants.{NoMemory};
ghost use Rattle.gocrypt_conf.specs.Fields.{scrypt_fields_of, fields_of};
ghost use Rattle.gocrypt_conf.specs.Views.{scrypt_view, fields_view};

use crate::fault::GoConfFault;
use json_fields::{Alphabet, bytes_at, number_at, object_at, texts_at};
use serde_json::Value;
use std::alloc::Global;

// The fields of `ScryptObject`.
#[derive(Drop)]
pub(crate) struct ScryptFields {
    pub salt: Vec<u8>,
    pub n: u64,
    pub r: u64,
    pub p: u64,
    pub key_len: u64,
}

// The fields of a configuration.
#[derive(Drop)]
pub(crate) struct Fields<'v> {
    pub version: u64,
    pub flags: Vec<&'v str>,
    pub sealed: Vec<u8>,
    pub scrypt: ScryptFields,
}

// The fields of the object.
pub(crate) fn fields_of<'v>(alloc: Global, conf: &'v Value) -> Result<Fields<'v>, GoConfFault>
    ensures fields { IfOk result (λ fields. fields_of (view conf.now) ≡ Ok (fields_view fields)) }
    ensures fault { IfErr result (λ fault. (fault ≡ NoMemory)
        ⊎ (fields_of (view conf.now) ≡ Err fault)) }
{
    let version = number_at(alloc, "Version", conf)?;
    let flags = texts_at(alloc, "FeatureFlags", conf)?;
    let sealed = bytes_at(alloc, Alphabet::Standard, "EncryptedKey", conf)?;
    let object = object_at(alloc, "ScryptObject", conf)?;
    let scrypt = scrypt_fields_of(alloc, object)?;
    Ok(Fields {
        version,
        flags,
        sealed,
        scrypt,
    })
}

// The fields of the object at `ScryptObject`.
fn scrypt_fields_of(alloc: Global, object: &Value) -> Result<ScryptFields, GoConfFault>
    ensures fields { IfOk result
        (λ fields. scrypt_fields_of (view object.now) ≡ Ok (scrypt_view fields)) }
    ensures fault { IfErr result (λ fault. (fault ≡ NoMemory)
        ⊎ (scrypt_fields_of (view object.now) ≡ Err fault)) }
{
    let salt = bytes_at(alloc, Alphabet::Standard, "Salt", object)?;
    let n = number_at(alloc, "N", object)?;
    let r = number_at(alloc, "R", object)?;
    let p = number_at(alloc, "P", object)?;
    let key_len = number_at(alloc, "KeyLen", object)?;
    Ok(ScryptFields {
        salt,
        n,
        r,
        p,
        key_len,
    })
}
