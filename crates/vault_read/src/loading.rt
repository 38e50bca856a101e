//! Opening a vault: its configuration and its passphrase.
ghost use Rattle.std.specs.Prelude.{◌≡◌, ◌≢◌, ◌<◌, ◌∷◌, ◌++◌, [], ℕ, length, slice_index, IfOk, IfErr, Ok, Err};
ghost use Rattle.cryptomator_conf.specs.Keys.{AreKeys};
ghost use Rattle.folder_spec.specs.Path.{Path, child};
ghost use Rattle.folder_spec.specs.Seen.{IfSeen, under};
ghost use Rattle.folder_model.specs.Answers.{CountsAbove, OnlyLooks};
ghost use Rattle.vault_spec.specs.Format.{is_file};
ghost use Rattle.vault_spec.specs.Vault.{LoadsGo, LoadsCm, LoadsBy, Loads, IsVault, TestsGo, TestsCm, UnlocksCm, go_conf, vault_file};
ghost use Rattle.vault_read.specs.Opened.{vault_of};
ghost use Rattle.vault_read.specs.Loading.{RefusesLoading, kind_by, IsSmallFile, LacksFile, IsRefused};

use crate::fault::LoadFault;
use crate::looking::{SmallFile, read_small};
use crate::vault::{CmVault, Vault, VaultKeys, VaultKind};
use cryptomator_conf as cryptomator;
use cryptomator_conf::{
    CmConfFault, MasterFile, VaultFile, check_signature, read_master, read_vault,
};
use folder_model::{FPath, Folder, Kind};
use folder_spec::FolderFault;
use gocrypt_conf as gocryptfs;
use gocrypt_conf::GoConfFault;
use std::alloc::Global;
use vault_values::{Bytes, CmKeys};

// The most bytes of a configuration file.
const MAX_SIZE: usize = 65_536;

const GO_CONF: &str = "gocryptfs.conf";

const MASTER_FILE: &str = "masterkey.cryptomator";

const VAULT_FILE: &str = "vault.cryptomator";

impl Vault {
    /// The vault that a folder's root and a passphrase are, or the first test that they fail.
    ///
    /// A root with a file `gocryptfs.conf` is a gocryptfs vault, and else one with a file `vault.cryptomator` a Cryptomator
    /// vault. It takes the memory of scrypt and little more.
    pub fn load<F: Folder>(
        alloc: Global,
        folder: &mut F,
        root: &FPath,
        pass: &[u8],
    ) -> Result<Vault, LoadFault>
        ensures looks { OnlyLooks (F.told folder.old) (F.told folder.new) (result ≡ Err LoadFault.Failed) (F.faults folder.old) (F.faults folder.new) }
        ensures root { IfOk result (λ vault. vault.root ≡ root.now) }
        ensures vault { IfOk result (λ vault. IfSeen (F.told folder.old) (λ v. IsVault (under root.now v) pass.now vault.vault)) }
        ensures fault { IfErr result (λ fault. IfSeen (F.told folder.old) (λ v. RefusesLoading root.now (Loads (under root.now v) pass.now) fault)) }
    {
        let keys = load_keys(alloc, folder, root, pass)?;
        Ok(Vault::new(root.copy()?, keys))
    }
}

// The keys of the vault at a root.
fn load_keys<F: Folder>(
    alloc: Global,
    folder: &mut F,
    root: &FPath,
    pass: &[u8],
) -> Result<VaultKeys, LoadFault>
    ensures looks { OnlyLooks (F.told folder.old) (F.told folder.new) (result ≡ Err LoadFault.Failed) (F.faults folder.old) (F.faults folder.new) }
    ensures keys { IfOk result (λ keys. IfSeen (F.told folder.old) (λ v. IsVault (under root.now v) pass.now (vault_of keys))) }
    ensures fault { IfErr result (λ fault. IfSeen (F.told folder.old) (λ v. RefusesLoading root.now (Loads (under root.now v) pass.now) fault)) }
{
    match folder.kind(root)? {
        Kind::Missing => Err(LoadFault::Missing(root.copy()?)),
        Kind::Dir => load_from(alloc, folder, root, pass),
        Kind::File => Err(LoadFault::WrongKind(root.copy()?)),
        Kind::Other => Err(LoadFault::WrongKind(root.copy()?)),
    }
}

// The keys of the vault at a root that is a directory.
fn load_from<F: Folder>(
    alloc: Global,
    folder: &mut F,
    root: &FPath,
    pass: &[u8],
) -> Result<VaultKeys, LoadFault>
    ensures looks { OnlyLooks (F.told folder.old) (F.told folder.new) (result ≡ Err LoadFault.Failed) (F.faults folder.old) (F.faults folder.new) }
    ensures keys { IfOk result (λ keys. IfSeen (F.told folder.old) (λ v. LoadsBy (v (root.now ++ go_conf)) (v (root.now ++ vault_file)) (under root.now v) pass.now (Ok (vault_of keys)))) }
    ensures fault { IfErr result (λ fault. IfSeen (F.told folder.old) (λ v. RefusesLoading root.now (LoadsBy (v (root.now ++ go_conf)) (v (root.now ++ vault_file)) (under root.now v) pass.now) fault)) }
{
    match kind_of_root(folder, root)? {
        VaultKind::Gocryptfs => load_go(alloc, folder, root, pass),
        VaultKind::Cryptomator => load_cm(alloc, folder, root, pass),
    }
}

// The format whose configuration stands at a root.
fn kind_of_root<F: Folder>(folder: &mut F, root: &FPath) -> Result<VaultKind, FolderFault>
    ensures told { F.told folder.new ≡ F.told folder.old }
    ensures kind { IfOk result (λ kind. IfSeen (F.told folder.old) (λ v. kind ≡ kind_by (is_file (v (root.now ++ go_conf))) (is_file (v (root.now ++ vault_file))))) }
    ensures counts { CountsAbove (F.faults folder.old) (F.faults folder.new) result }
{
    if is_file_below(folder, root, GO_CONF)? || !is_file_below(folder, root, VAULT_FILE)? {
        Ok(VaultKind::Gocryptfs)
    } else {
        Ok(VaultKind::Cryptomator)
    }
}

// Whether a file of this name stands in a directory.
fn is_file_below<F: Folder>(folder: &mut F, at: &FPath, name: &str) -> Result<bool, FolderFault>
    ensures told { F.told folder.new ≡ F.told folder.old }
    ensures file { IfOk result (λ yes. IfSeen (F.told folder.old) (λ v. yes ≡ is_file (v (child at.now name.now)))) }
    ensures counts { CountsAbove (F.faults folder.old) (F.faults folder.new) result }
{
    let path = at.child(name)?;
    Ok(folder.kind(&path)? == Kind::File)
}

fn load_go<F: Folder>(
    alloc: Global,
    folder: &mut F,
    root: &FPath,
    pass: &[u8],
) -> Result<VaultKeys, LoadFault>
    ensures looks { OnlyLooks (F.told folder.old) (F.told folder.new) (result ≡ Err LoadFault.Failed) (F.faults folder.old) (F.faults folder.new) }
    ensures keys { IfOk result (λ keys. IfSeen (F.told folder.old) (λ v. LoadsGo (under root.now v) pass.now (Ok (vault_of keys)))) }
    ensures fault { IfErr result (λ fault. IfSeen (F.told folder.old) (λ v. RefusesLoading root.now (LoadsGo (under root.now v) pass.now) fault)) }
{
    let bytes = read_configuration(alloc, folder, root, GO_CONF)?;
    unlock_go(alloc, root, bytes.as_slice(), pass)
}

fn load_cm<F: Folder>(
    alloc: Global,
    folder: &mut F,
    root: &FPath,
    pass: &[u8],
) -> Result<VaultKeys, LoadFault>
    ensures looks { OnlyLooks (F.told folder.old) (F.told folder.new) (result ≡ Err LoadFault.Failed) (F.faults folder.old) (F.faults folder.new) }
    ensures keys { IfOk result (λ keys. IfSeen (F.told folder.old) (λ v. LoadsCm (under root.now v) pass.now (Ok (vault_of keys)))) }
    ensures fault { IfErr result (λ fault. IfSeen (F.told folder.old) (λ v. RefusesLoading root.now (LoadsCm (under root.now v) pass.now) fault)) }
{
    let master = read_configuration(alloc, folder, root, MASTER_FILE)?;
    let vault = read_configuration(alloc, folder, root, VAULT_FILE)?;
    unlock_cm(alloc, root, master.as_slice(), vault.as_slice(), pass)
}

// The bytes of a configuration file.
fn read_configuration<F: Folder>(
    alloc: Global,
    folder: &mut F,
    root: &FPath,
    name: &str,
) -> Result<Bytes, LoadFault>
    ensures looks { OnlyLooks (F.told folder.old) (F.told folder.new) (result ≡ Err LoadFault.Failed) (F.faults folder.old) (F.faults folder.new) }
    ensures bytes { IfOk result (λ bytes. IfSeen (F.told folder.old) (λ v. IsSmallFile (v (child root.now name.now)) bytes)) }
    ensures fault { IfErr result (λ fault. IfSeen (F.told folder.old) (λ v. RefusesLoading root.now (LacksFile (name.now ∷ []) (v (child root.now name.now))) fault)) }
{
    let at = root.child(name)?;
    match read_small(alloc, folder, &at, MAX_SIZE)? {
        SmallFile::Missing => Err(LoadFault::Missing(at)),
        SmallFile::Other => Err(LoadFault::WrongKind(at)),
        SmallFile::TooLarge => Err(LoadFault::TooLarge(at)),
        SmallFile::Whole(bytes) => Ok(bytes),
    }
}

// The keys of a gocryptfs vault, by the bytes of its configuration.
fn unlock_go(alloc: Global, root: &FPath, bytes: &[u8], pass: &[u8]) -> Result<VaultKeys, LoadFault>
    ensures keys { IfOk result (λ keys. TestsGo bytes.now pass.now (Ok (vault_of keys))) }
    ensures fault { IfErr result (λ fault. RefusesLoading root.now (TestsGo bytes.now pass.now) fault) }
    ensures tested { result ≢ Err LoadFault.Failed }
{
    let conf = match gocryptfs::read(alloc, bytes) {
        Ok(conf) => conf,
        Err(GoConfFault::NoMemory) => return Err(LoadFault::NoMemory),
        Err(fault) => return Err(LoadFault::Go(fault)),
    };
    match gocryptfs::unlock(alloc, &conf, pass) {
        Ok(keys) => Ok(VaultKeys::Gocryptfs(keys)),
        Err(gocryptfs::UnlockFault::WrongPass) => Err(LoadFault::WrongPass),
        Err(gocryptfs::UnlockFault::NoMemory) => Err(LoadFault::NoMemory),
    }
}

// The keys of a Cryptomator vault, by the bytes of its two files.
fn unlock_cm(
    alloc: Global,
    root: &FPath,
    master: &[u8],
    vault: &[u8],
    pass: &[u8],
) -> Result<VaultKeys, LoadFault>
    ensures keys { IfOk result (λ keys. TestsCm master.now vault.now pass.now (Ok (vault_of keys))) }
    ensures fault { IfErr result (λ fault. RefusesLoading root.now (TestsCm master.now vault.now pass.now) fault) }
    ensures tested { result ≢ Err LoadFault.Failed }
{
    let master = match read_master(alloc, master) {
        Ok(master) => master,
        Err(fault) => return Err(refused(root, MASTER_FILE, fault)),
    };
    let vault = match read_vault(alloc, vault) {
        Ok(vault) => vault,
        Err(fault) => return Err(refused(root, VAULT_FILE, fault)),
    };
    unlock_master(alloc, &master, &vault, pass)
}

// That this file of a Cryptomator vault is refused.
fn refused(root: &FPath, name: &str, fault: CmConfFault) -> LoadFault
    ensures { IsRefused (child root.now name.now) fault result }
{
    if fault == CmConfFault::NoMemory {
        return LoadFault::NoMemory;
    }
    match root.child(name) {
        Ok(at) => LoadFault::Cm(at, fault),
        Err(_) => LoadFault::NoMemory,
    }
}

// The keys that a master key file and a passphrase give, where the signature is theirs.
fn unlock_master(
    alloc: Global,
    master: &MasterFile,
    file: &VaultFile,
    pass: &[u8],
) -> Result<VaultKeys, LoadFault>
    ensures keys { IfOk result (λ keys. UnlocksCm master.now file.now pass.now (Ok (vault_of keys))) }
    ensures fault { IfErr result (λ fault. (root : Path) → RefusesLoading root (UnlocksCm master.now file.now pass.now) fault) }
    ensures tested { result ≢ Err LoadFault.Failed }
{
    let keys = match cryptomator::unlock(alloc, master, pass) {
        Ok(keys) => keys,
        Err(cryptomator::UnlockFault::WrongPass) => return Err(LoadFault::WrongPass),
        Err(cryptomator::UnlockFault::NoMemory) => return Err(LoadFault::NoMemory),
    };
    are_keys(&keys);
    match check_signature(file, &keys) {
        Ok(()) => Ok(VaultKeys::Cryptomator(CmVault {
            keys,
            combo: file.combo,
            threshold: file.threshold,
        })),
        Err(_) => Err(LoadFault::BadSignature),
    }
}

// Shows that the two keys have 32 bytes each.
fn are_keys(keys: &CmKeys)
    ensures { AreKeys keys.now }
{
    is_key(&keys.enc);
    is_key(&keys.mac);
}

fn is_key(key: &[u8; 32])
    ensures size { length key.now ≡ 32 }
    ensures bytes { (k : ℕ) → slice_index key.now k < 256 }
{
    let _all = key.as_slice();
}
