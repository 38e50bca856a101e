//! Opened vaults.
ghost use Rattle.std.specs.Prelude.{◌≡◌, ◌↔◌, ◌++◌, [], length, IfOk, IsTrue, string_bytes};
ghost use Rattle.std.specs.List.{list_all};
ghost use Rattle.vault_names.specs.Gocryptfs as gocryptfs;
ghost use Rattle.vault_names.specs.Base32.{is_base32};
ghost use Rattle.vault_spec.specs.Making.{Allows};
ghost use Rattle.vault_spec.specs.Vault.{format_of};
ghost use Rattle.vault_spec.specs.Cryptomator as cryptomator;
ghost use Rattle.vault_read.specs.Opened.{FitsKey, IsCryptomator, kind_of, vault_of, vault_with};

use chunk_files::ContentKeys;
use cryptomator_conf::Combo;
use folder_model::FPath;
use plain_tree::Name;
use std::alloc::{AllocError, Global};
use std::marker::Model;
use vault_names::laws::cm_folders_are_plain;
use vault_names::{CmNameKeys, GoNameKeys, Stored};
use vault_values::{CmKeys, GoKeys};

/// The formats of vaults.
#[derive(Clone, Copy, PartialEq, Eq)]
pub enum VaultKind {
    /// gocryptfs, on-disk format 2.
    Gocryptfs,
    /// Cryptomator, vault format 8.
    Cryptomator,
}

/// What the files of an opened Cryptomator vault say.
#[derive(Drop)]
pub struct CmVault {
    pub keys: CmKeys,
    pub combo: Combo,
    /// The characters of the longest short name.
    pub threshold: u32,
}

impl Model for CmVault {
    ghost use Rattle.vault_spec.specs.Cryptomator.{CmVault};

    ghost Value = { CmVault };

    ghost view = { λ vault. record { keys = vault.keys; combo = vault.combo; threshold = vault.threshold } };
}

/// The keys of an opened vault, of either format.
#[derive(Drop)]
pub enum VaultKeys {
    Gocryptfs(GoKeys),
    Cryptomator(CmVault),
}

/// The keys of a gocryptfs vault, with that of its names expanded. Contracts see the keys.
#[derive(Drop)]
pub struct GoOpened {
    keys: GoKeys,
    names: GoNameKeys,
}

impl Model for GoOpened {
    ghost use Rattle.std.specs.Prelude.{◌≡◌};
    ghost use Rattle.vault_values.specs.declared.keys.GoKeys.{GoKeys};

    ghost Value = { GoKeys };

    ghost view = { λ go. go.keys };

    ghost invariant = { λ go. go.names ≡ go.keys.names };
}

impl GoOpened {
    fn new(keys: GoKeys) -> GoOpened
        ensures { result ≡ keys }
    {
        GoOpened {
            keys,
            names: GoNameKeys::new(&keys),
        }
    }

    pub(crate) fn names(&self) -> &GoNameKeys
        ensures { result.now ≡ self.now.names }
    {
        &self.names
    }
}

/// What the files of an opened Cryptomator vault say, with its keys expanded for names. Contracts see the former.
#[derive(Drop)]
pub struct CmOpened {
    vault: CmVault,
    names: CmNameKeys,
}

impl Model for CmOpened {
    ghost use Rattle.std.specs.Prelude.{◌≡◌};
    ghost use Rattle.vault_spec.specs.Cryptomator.{CmVault};

    ghost Value = { CmVault };

    ghost view = { λ cm. cm.vault };

    ghost invariant = { λ cm. cm.names ≡ cm.vault.keys };
}

impl CmOpened {
    fn new(vault: CmVault) -> CmOpened
        ensures { result ≡ vault }
    {
        let names = CmNameKeys::new(&vault.keys);
        CmOpened { vault, names }
    }

    pub(crate) fn names(&self) -> &CmNameKeys
        ensures { result.now ≡ self.now.keys }
    {
        &self.names
    }

    pub(crate) fn threshold(&self) -> u32
        ensures { result ≡ self.now.threshold }
    {
        self.vault.threshold
    }
}

// The keys of an opened vault, expanded for names.
#[derive(Drop)]
pub(crate) enum OpenedKeys {
    Gocryptfs(GoOpened),
    Cryptomator(CmOpened),
}

fn expanded(keys: VaultKeys) -> OpenedKeys
    ensures { vault_with result ≡ vault_of keys }
{
    match keys {
        VaultKeys::Gocryptfs(keys) => OpenedKeys::Gocryptfs(GoOpened::new(keys)),
        VaultKeys::Cryptomator(vault) => OpenedKeys::Cryptomator(CmOpened::new(vault)),
    }
}

/// An opened vault: its root and its keys.
///
/// Contracts see it as the root's path, and the vault that its files and the passphrase are.
#[derive(Drop)]
pub struct Vault {
    root: FPath,
    keys: OpenedKeys,
}

impl Model for Vault {
    ghost use Rattle.vault_spec.specs.Opened.{OpenedVault};
    ghost use Rattle.vault_read.specs.Opened.{vault_with};

    ghost Value = { OpenedVault };

    ghost view = { λ vault. record { root = vault.root; vault = vault_with vault.keys } };
}

impl Vault {
    /// The vault with these keys at a root.
    pub fn new(root: FPath, keys: VaultKeys) -> Vault
        ensures root { result.root ≡ root }
        ensures vault { result.vault ≡ vault_of keys }
    {
        Vault {
            root,
            keys: expanded(keys),
        }
    }

    pub(crate) fn keys(&self) -> &OpenedKeys
        ensures { vault_with result.now ≡ self.now.vault }
    {
        &self.keys
    }

    pub fn kind(&self) -> VaultKind
        ensures { result ≡ kind_of self.now.vault }
    {
        match &self.keys {
            OpenedKeys::Gocryptfs(_) => VaultKind::Gocryptfs,
            OpenedKeys::Cryptomator(_) => VaultKind::Cryptomator,
        }
    }

    pub fn root(&self) -> &FPath
        ensures { result.now ≡ self.now.root }
    {
        &self.root
    }

    /// Whether the vault allows a name: a Cryptomator vault those in Unicode's normalization form C, a gocryptfs vault all.
    pub fn allows(&self, name: &Name) -> Result<bool, AllocError>
        ensures { IfOk result (λ yes. IsTrue yes ↔ Allows (format_of self.now.vault) name.now) }
    {
        match self.kind() {
            VaultKind::Gocryptfs => Ok(true),
            VaultKind::Cryptomator => name.is_nfc(),
        }
    }

    /// The keys and the layout of the vault's contents. It takes no memory.
    pub fn content_keys(&self) -> ContentKeys
        ensures { result ≡ (format_of self.now.vault).content }
    {
        match &self.keys {
            OpenedKeys::Gocryptfs(go) => ContentKeys::go(&go.keys.content),
            OpenedKeys::Cryptomator(cm) => contents_by(&cm.vault),
        }
    }
}

fn contents_by(vault: &CmVault) -> ContentKeys
    ensures { result ≡ cryptomator.contents_by vault.now.combo vault.now.keys }
{
    match vault.combo {
        Combo::SivGcm => ContentKeys::cm_gcm(&vault.keys.enc),
        Combo::SivCtrMac => ContentKeys::cm_ctr(&vault.keys.enc, &vault.keys.mac),
    }
}

/// What is stored of a name in the directory with this key. In a gocryptfs vault the key has 16 bytes.
pub fn stored_in(
    alloc: Global,
    vault: &Vault,
    key: &[u8],
    name: &Name,
) -> Result<Stored, AllocError>
    requires { FitsKey vault.now.vault key.now }
    ensures { IfOk result (λ stored. stored ≡ (format_of vault.now.vault).stored key.now name.now) }
{
    match &vault.keys {
        OpenedKeys::Gocryptfs(go) => store_by_block(alloc, go.names(), key, name),
        OpenedKeys::Cryptomator(cm) => cm.names().store(alloc, cm.threshold(), key, name),
    }
}

fn store_by_block(
    alloc: Global,
    names: &GoNameKeys,
    key: &[u8],
    name: &Name,
) -> Result<Stored, AllocError>
    requires { length key.now ≡ 16 }
    ensures { IfOk result (λ stored. stored ≡ gocryptfs.stored names.now key.now name.now) }
{
    let mut block = [0; 16];
    block.copy_from_slice(key);
    names.store(alloc, &block, name)
}

/// The folder that holds the entries of the directory with this id. The vault is Cryptomator's.
pub fn content_folder(alloc: Global, vault: &Vault, id: &[u8]) -> Result<FPath, AllocError>
    requires { IsCryptomator vault.now.vault }
    ensures { IfOk result (λ at. at ≡ vault.now.root ++ (format_of vault.now.vault).folder_of [] id.now) }
{
    let folder = folder_of(alloc, vault, &FPath::base(alloc), id)?;
    vault.root.joined(&folder)
}

/// The folder of the directory with this key, whose entry is at a path. Paths begin at the vault's root.
pub fn folder_of(alloc: Global, vault: &Vault, at: &FPath, key: &[u8]) -> Result<FPath, AllocError>
    ensures { IfOk result (λ folder. folder ≡ (format_of vault.now.vault).folder_of at.now key.now) }
{
    match &vault.keys {
        OpenedKeys::Gocryptfs(_) => at.copy(),
        OpenedKeys::Cryptomator(cm) => folder_of_id(alloc, cm.names(), key),
    }
}

// The content folder of an id.
fn folder_of_id(alloc: Global, names: &CmNameKeys, id: &[u8]) -> Result<FPath, AllocError>
    ensures { IfOk result (λ at. at ≡ cryptomator.content_folder names.now id.now) }
{
    cm_folders_are_plain();
    folder_named(alloc, names.folder(alloc, id)?)
}

// The content folder that a base32 text of 32 characters names.
fn folder_named(alloc: Global, text: String) -> Result<FPath, AllocError>
    requires size { length (string_bytes text) ≡ 32 }
    requires characters { IsTrue (list_all is_base32 (string_bytes text)) }
    ensures { IfOk result (λ at. at ≡ cryptomator.folder_named (string_bytes text)) }
{
    let (shelf, rest) = text.as_str().split_at(2);
    FPath::base(alloc).child("d")?.child(shelf)?.child(rest)
}
