//! The text of the file that holds a vault's keys, for another passphrase.
ghost use Rattle.std.specs.Prelude.{◌≡◌, ◌≢◌, ◌⊎◌, IfOk, IfErr, Err};
ghost use Rattle.kdf_suite.specs.ScryptCost.{IsCost};
ghost use Rattle.port_model.specs.Counts.{Blames};
ghost use Rattle.passwd_core.specs.declared.reading.KeyFile.TheVariants as files;
ghost use Rattle.passwd_core.specs.Steps.{DrawsText};

use crate::drawing::{draw, draw_go};
use crate::fault::PassFault;
use crate::reading::KeyFile;
use cryptomator_conf::{MasterFile, rewrap};
use gocrypt_conf::{GoConf, reseal};
use kdf_suite::ScryptCost;
use port_model::Randoms;
use std::alloc::Global;
use vault_read::LoadFault;
use vault_values::Bytes;

// The text for another passphrase, under what is drawn.
pub(crate) fn rewritten<R: Randoms>(
    alloc: Global,
    file: &KeyFile,
    pass: &[u8],
    new_pass: &[u8],
    random: &mut R,
) -> Result<Bytes, PassFault>
    ensures text { DrawsText file.now pass.now new_pass.now (R.left random.old) (R.left random.new) result }
    ensures blames { Blames (result ≡ Err PassFault.Random) (R.faults random.old) (R.faults random.new) }
{
    match file {
        KeyFile::Gocryptfs(conf) => resealed(alloc, conf, pass, new_pass, random),
        KeyFile::Cryptomator(file) => rewrapped(alloc, file, pass, new_pass, random),
    }
}

fn resealed<R: Randoms>(
    alloc: Global,
    conf: &GoConf,
    pass: &[u8],
    new_pass: &[u8],
    random: &mut R,
) -> Result<Bytes, PassFault>
    ensures text { DrawsText (files.Gocryptfs conf.now) pass.now new_pass.now (R.left random.old) (R.left random.new) result }
    ensures blames { Blames (result ≡ Err PassFault.Random) (R.faults random.old) (R.faults random.new) }
{
    gocrypt_conf::laws::resealed_texts_give_back_their_keys();
    cost_is_one(&conf.cost);
    let fresh = draw_go(random)?;
    match reseal(
        alloc,
        conf,
        pass,
        new_pass,
        &conf.cost,
        &fresh.salt,
        &fresh.nonce,
    ) {
        Ok(text) => Ok(Bytes::new(text)),
        Err(gocrypt_conf::UnlockFault::WrongPass) => Err(PassFault::Load(LoadFault::WrongPass)),
        Err(gocrypt_conf::UnlockFault::NoMemory) => Err(PassFault::NoMemory),
    }
}

fn rewrapped<R: Randoms>(
    alloc: Global,
    file: &MasterFile,
    pass: &[u8],
    new_pass: &[u8],
    random: &mut R,
) -> Result<Bytes, PassFault>
    ensures text { DrawsText (files.Cryptomator file.now) pass.now new_pass.now (R.left random.old) (R.left random.new) result }
    ensures blames { Blames (result ≡ Err PassFault.Random) (R.faults random.old) (R.faults random.new) }
{
    cryptomator_conf::laws::rewrapped_texts_give_back_their_keys();
    cost_is_one(&file.cost);
    let salt = draw::<8, R>(random)?;
    match rewrap(alloc, file, pass, new_pass, &file.cost, &salt) {
        Ok(text) => Ok(Bytes::new(text)),
        Err(cryptomator_conf::UnlockFault::WrongPass) => {
            Err(PassFault::Load(LoadFault::WrongPass))
        }
        Err(cryptomator_conf::UnlockFault::NoMemory) => Err(PassFault::NoMemory),
    }
}

// A cost is one at which scrypt works.
fn cost_is_one(cost: &ScryptCost)
    ensures { IsCost cost.now }
{
    let _n = cost.n();
}
