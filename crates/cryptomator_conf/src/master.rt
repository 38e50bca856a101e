//! Reading `masterkey.cryptomator`.

ghost use Rattle.std.specs.Prelude.{◌≡◌, ◌⊎◌, Ok, Err, Some, None, IfOk, IfErr};
ghost use Rattle.serde_json.specs.View.{view};
ghost use Rattle.cryptomator_conf.specs.declared.fault.CmConfFault.TheVariants.{Field, NoMemory};
ghost use Rattle.cryptomator_conf.specs.Master.{Checks, ReadsMaster, master_fields_of, wrapped_at};
ghost use Rattle.cryptomator_conf.specs.Views.{master_view};

use crate::conf::MasterFile;
use crate::fault::CmConfFault;
use json_fields::{Alphabet, bytes_at, json_object, number_at};
use kdf_suite::ScryptCost;
use serde_json::Value;
use std::alloc::Global;
use vault_values::{Bytes, Text};

// The fields of the file.
#[derive(Drop)]
struct MasterFields {
    salt: Vec<u8>,
    n: u64,
    r: u64,
    primary: [u8; 40],
    hmac: [u8; 40],
}

/// What the bytes of `masterkey.cryptomator` say, or the first of their tests that they fail.
#[tactic(auto, unfolding(crate::specs::Master::master_fields_in))]
pub fn read_master(alloc: Global, bytes: &[u8]) -> Result<MasterFile, CmConfFault>
    ensures file { IfOk result (λ file. ReadsMaster bytes.now (Ok file)) }
    ensures fault { IfErr result (λ fault. (fault ≡ NoMemory) ⊎ ReadsMaster bytes.now (Err fault)) }
{
    let Some(object) = json_object(alloc, bytes)? else {
        return Err(CmConfFault::NotJson);
    };
    let fields = master_fields_of(alloc, &object)?;
    master_of(fields)
}

// The fields of the object.
fn master_fields_of(alloc: Global, object: &Value) -> Result<MasterFields, CmConfFault>
    ensures fields { IfOk result (λ fields. master_fields_of (view object.now) ≡ Ok (master_view fields)) }
    ensures fault { IfErr result (λ fault. (fault ≡ NoMemory)
        ⊎ (master_fields_of (view object.now) ≡ Err fault)) }
{
    let salt = bytes_at(alloc, Alphabet::Standard, "scryptSalt", object)?;
    let n = number_at(alloc, "scryptCostParam", object)?;
    let r = number_at(alloc, "scryptBlockSize", object)?;
    let primary = wrapped_at(alloc, "primaryMasterKey", object)?;
    let hmac = wrapped_at(alloc, "hmacMasterKey", object)?;
    Ok(MasterFields {
        salt,
        n,
        r,
        primary,
        hmac,
    })
}

// The wrapped key at a name.
fn wrapped_at(alloc: Global, name: &str, object: &Value) -> Result<[u8; 40], CmConfFault>
    ensures key { IfOk result (λ key. wrapped_at name.now (view object.now) ≡ Some key) }
    ensures fault { IfErr result (λ fault. (fault ≡ NoMemory)
        ⊎ ((fault ≡ Field name.now) × (wrapped_at name.now (view object.now) ≡ None))) }
{
    let bytes = bytes_at(alloc, Alphabet::Standard, name, object)?;
    if bytes.len() != 40 {
        return Err(CmConfFault::Field(Text::copy_of(alloc, name)?));
    }
    let mut key = [0; 40];
    key.copy_from_slice(bytes.as_slice());
    Ok(key)
}

// What the fields say, or that they are of no cost.
fn master_of(fields: MasterFields) -> Result<MasterFile, CmConfFault>
    ensures file { IfOk result (λ file. Checks (master_view fields) (Ok file)) }
    ensures fault { IfErr result (λ fault. Checks (master_view fields) (Err fault)) }
{
    let MasterFields {
        salt,
        n,
        r,
        primary,
        hmac,
    } = fields;
    let Ok(cost) = ScryptCost::new(n, r, 1) else {
        return Err(CmConfFault::Cost);
    };
    Ok(MasterFile {
        salt: Bytes::new(salt),
        cost,
        primary,
        hmac,
    })
}
