//! Reading the file that holds a vault's keys.
ghost use Rattle.std.specs.Prelude.{◌≡◌, ◌≢◌, ◌⊎◌, ℕ, List, IfOk, IfErr, Err};
ghost use Rattle.folder_spec.specs.Seen.{IfSeen, under};
ghost use Rattle.folder_spec.specs.View.{Found};
ghost use Rattle.folder_model.specs.Answers.{OnlyLooks};
ghost use Rattle.vault_read.specs.Loading.{IsSmallFile, IsRefused, RefusesLoading};
ghost use Rattle.vault_spec.specs.Vault.{Loads};
ghost use Rattle.passwd_core.specs.Faults.{IsOfMachine};
ghost use Rattle.passwd_core.specs.KeyFiles.{HoldsKeys, ReadsKeys, key_name, kind_of_file};
ghost use Rattle.passwd_core.specs.Steps.{HoldsSome, OpensAs};

use cryptomator_conf::{CmConfFault, MasterFile, read_master};
use folder_model::{FPath, Folder};
use gocrypt_conf::{GoConf, GoConfFault};
use std::alloc::Global;
use vault_read::{LoadFault, SmallFile, Vault, VaultKind, read_small};
use vault_values::Bytes;

// The most bytes of a configuration file.
const MAX_SIZE: usize = 65_536;

/// What the file that holds a vault's keys says.
#[derive(Drop)]
pub enum KeyFile {
    /// `gocryptfs.conf`.
    Gocryptfs(GoConf),
    /// `masterkey.cryptomator`.
    Cryptomator(MasterFile),
}

// No file of keys says two things.
pub(crate) fn key_files_have_one_answer()
    ensures { (kind : VaultKind) (there : Found) (one other : KeyFile) → HoldsKeys kind there one → HoldsKeys kind there other → one ≡ other }
{
    gocrypt_conf::laws::bytes_have_one_answer();
    cryptomator_conf::laws::bytes_have_one_answer();
}

// The name of that file.
pub(crate) fn key_name(kind: VaultKind) -> &'static str
    ensures { result.now ≡ key_name kind }
{
    match kind {
        VaultKind::Gocryptfs => "gocryptfs.conf",
        VaultKind::Cryptomator => "masterkey.cryptomator",
    }
}

// The kind of the vault that a root and a passphrase are.
pub(crate) fn kind_at<F: Folder>(
    alloc: Global,
    folder: &mut F,
    root: &FPath,
    pass: &[u8],
) -> Result<VaultKind, LoadFault>
    ensures looks { OnlyLooks (F.told folder.old) (F.told folder.new) (result ≡ Err LoadFault.Failed) (F.faults folder.old) (F.faults folder.new) }
    ensures kind { IfOk result (λ kind. IfSeen (F.told folder.old) (λ v. OpensAs kind (under root.now v) pass.now)) }
    ensures fault { IfErr result (λ fault. IfSeen (F.told folder.old) (λ v. RefusesLoading root.now (Loads (under root.now v) pass.now) fault)) }
{
    let vault = Vault::load(alloc, folder, root, pass)?;
    Ok(vault.kind())
}

// What the file at this path says. It has been read before.
pub(crate) fn read_keys<F: Folder>(
    alloc: Global,
    folder: &mut F,
    kind: VaultKind,
    at: &FPath,
) -> Result<KeyFile, LoadFault>
    requires { IfSeen (F.told folder.old) (λ v. HoldsSome kind (v at.now)) }
    ensures looks { OnlyLooks (F.told folder.old) (F.told folder.new) (result ≡ Err LoadFault.Failed) (F.faults folder.old) (F.faults folder.new) }
    ensures kind { IfOk result (λ file. kind_of_file file ≡ kind) }
    ensures file { IfOk result (λ file. IfSeen (F.told folder.old) (λ v. HoldsKeys kind (v at.now) file)) }
    ensures fault { IfErr result (λ fault. IfSeen (F.told folder.old) (λ v. IsOfMachine fault)) }
{
    let bytes = read_bytes(alloc, folder, at)?;
    keys_in(alloc, kind, at, bytes.as_slice())
}

// The bytes of a small file that has been read before.
fn read_bytes<F: Folder>(alloc: Global, folder: &mut F, at: &FPath) -> Result<Bytes, LoadFault>
    requires { IfSeen (F.told folder.old) (λ v. (bytes : List ℕ) × IsSmallFile (v at.now) bytes) }
    ensures looks { OnlyLooks (F.told folder.old) (F.told folder.new) (result ≡ Err LoadFault.Failed) (F.faults folder.old) (F.faults folder.new) }
    ensures bytes { IfOk result (λ bytes. IfSeen (F.told folder.old) (λ v. IsSmallFile (v at.now) bytes)) }
    ensures fault { IfErr result (λ fault. IfSeen (F.told folder.old) (λ v. IsOfMachine fault)) }
{
    match read_small(alloc, folder, at, MAX_SIZE)? {
        SmallFile::Missing => Err(LoadFault::Missing(at.copy()?)),
        SmallFile::Other => Err(LoadFault::WrongKind(at.copy()?)),
        SmallFile::TooLarge => Err(LoadFault::TooLarge(at.copy()?)),
        SmallFile::Whole(bytes) => Ok(bytes),
    }
}

// What these bytes of the file at a path say.
fn keys_in(alloc: Global, kind: VaultKind, at: &FPath, bytes: &[u8]) -> Result<KeyFile, LoadFault>
    ensures kind { IfOk result (λ file. kind_of_file file ≡ kind) }
    ensures keys { IfOk result (λ file. ReadsKeys kind bytes.now file) }
    ensures fault { IfErr result (λ fault. IsOfMachine fault ⊎ ((file : KeyFile) → ¬ ReadsKeys kind bytes.now file)) }
    ensures tested { result ≢ Err LoadFault.Failed }
{
    match kind {
        VaultKind::Gocryptfs => go_keys(alloc, bytes),
        VaultKind::Cryptomator => cm_keys(alloc, at, bytes),
    }
}

fn go_keys(alloc: Global, bytes: &[u8]) -> Result<KeyFile, LoadFault>
    ensures kind { IfOk result (λ file. kind_of_file file ≡ VaultKind.Gocryptfs) }
    ensures keys { IfOk result (λ file. ReadsKeys VaultKind.Gocryptfs bytes.now file) }
    ensures fault { IfErr result (λ fault. IsOfMachine fault ⊎ ((file : KeyFile) → ¬ ReadsKeys VaultKind.Gocryptfs bytes.now file)) }
    ensures tested { result ≢ Err LoadFault.Failed }
{
    gocrypt_conf::laws::bytes_have_one_answer();
    match gocrypt_conf::read(alloc, bytes) {
        Ok(conf) => Ok(KeyFile::Gocryptfs(conf)),
        Err(GoConfFault::NoMemory) => Err(LoadFault::NoMemory),
        Err(fault) => Err(LoadFault::Go(fault)),
    }
}

fn cm_keys(alloc: Global, at: &FPath, bytes: &[u8]) -> Result<KeyFile, LoadFault>
    ensures kind { IfOk result (λ file. kind_of_file file ≡ VaultKind.Cryptomator) }
    ensures keys { IfOk result (λ file. ReadsKeys VaultKind.Cryptomator bytes.now file) }
    ensures fault { IfErr result (λ fault. IsOfMachine fault ⊎ ((file : KeyFile) → ¬ ReadsKeys VaultKind.Cryptomator bytes.now file)) }
    ensures tested { result ≢ Err LoadFault.Failed }
{
    cryptomator_conf::laws::bytes_have_one_answer();
    match read_master(alloc, bytes) {
        Ok(file) => Ok(KeyFile::Cryptomator(file)),
        Err(fault) => Err(refused(at, fault)),
    }
}

// That the file at a path is refused.
fn refused(at: &FPath, fault: CmConfFault) -> LoadFault
    ensures { IsRefused at.now fault result }
{
    if fault == CmConfFault::NoMemory {
        return LoadFault::NoMemory;
    }
    match at.copy() {
        Ok(at) => LoadFault::Cm(at, fault),
        Err(_) => LoadFault::NoMemory,
    }
}
