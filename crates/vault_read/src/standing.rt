//! What stands under a name in a directory of a vault. Paths begin at the vault's root.
ghost use Rattle.std.specs.Prelude.{◌≡◌, ◌++◌, Some, IfOk, IfSome};
ghost use Rattle.folder_spec.specs.Seen.{IfSeen, under};
ghost use Rattle.folder_model.specs.Answers.{CountsAbove};
ghost use Rattle.vault_spec.specs.Format.{key_of};
ghost use Rattle.vault_spec.specs.Standing.{directory_with, holds, holds_full, root_of, standing_in};
ghost use Rattle.vault_spec.specs.Standing as stands;
ghost use Rattle.vault_spec.specs.Vault.{format_of};
ghost use Rattle.vault_read.specs.Opened.{FitsKey};
ghost use Rattle.vault_read.specs.Items.{item_of};
ghost use Rattle.vault_read.specs.Stands.{standing_of, EntersFit, key_file_by, key_limit, key_by, is_key, is_small_file_of, standing_at};
ghost use Rattle.chunk_files.specs.Zeros.{is_all_zero};

use crate::items::{CONTENT_FILE, EntryItem, ID_FILE, item_at};
use crate::looking::{SmallFile, kind_under, read_under};
use crate::vault::{Vault, VaultKind, folder_of, stored_in};
use folder_model::{FPath, Folder, Kind};
use folder_spec::FolderFault;
use plain_tree::Name;
use std::alloc::{AllocError, Global};
use std::marker::Model;
use vault_names::Stored;
use vault_spec::Lack;
use vault_values::{Bytes, Text};

const KEY_FILE: &str = "gocryptfs.diriv";

/// A directory: the folder that holds its entries, and the key that their names are stored under.
#[derive(Drop)]
pub struct Directory {
    pub folder: FPath,
    pub key: Bytes,
}

impl Model for Directory {
    ghost use Rattle.vault_spec.specs.Format.{Directory};

    ghost Value = { Directory };

    ghost view = { λ dir. record { folder = dir.folder; key = dir.key } };
}

/// What stands at a plain path.
#[derive(Drop)]
pub enum Standing {
    Absent,
    /// An entry that is no item.
    Strange(FPath),
    /// A file, with its content stored at a path.
    File(FPath),
    /// A directory with its entry at a path, which is to be entered or has no key or no folder.
    Dir(FPath, Result<Directory, Lack>),
}

/// What stands at the root of a vault.
pub fn root_standing<F: Folder>(
    alloc: Global,
    folder: &mut F,
    vault: &Vault,
) -> Result<Standing, FolderFault>
    ensures told { F.told folder.new ≡ F.told folder.old }
    ensures stands { IfOk result (λ here. IfSeen (F.told folder.old) (λ v. standing_of here ≡ root_of (format_of vault.now.vault) (under vault.now.root v))) }
    ensures fits { IfOk result (λ here. EntersFit vault.now.vault here) }
    ensures counts { CountsAbove (F.faults folder.old) (F.faults folder.new) result }
{
    let key = root_key(alloc, folder, vault)?;
    directory_with(alloc, folder, vault, FPath::base(alloc), key)
}

// What stands under a name in a directory.
#[tactic(auto, unfolding(vault_spec::specs::Standing::standing_in))]
pub(crate) fn standing_in<F: Folder>(
    alloc: Global,
    folder: &mut F,
    vault: &Vault,
    dir: &Directory,
    name: &Name,
) -> Result<Standing, FolderFault>
    requires { FitsKey vault.now.vault dir.now.key }
    ensures told { F.told folder.new ≡ F.told folder.old }
    ensures stands { IfOk result (λ here. IfSeen (F.told folder.old) (λ v. standing_of here ≡ standing_in (format_of vault.now.vault) (under vault.now.root v) dir.now name.now)) }
    ensures fits { IfOk result (λ here. EntersFit vault.now.vault here) }
    ensures counts { CountsAbove (F.faults folder.old) (F.faults folder.new) result }
{
    // Its bytes are a name's.
    let _bytes = name.bytes();
    let stored = stored_in(alloc, vault, dir.key.as_slice(), name)?;
    standing_at(alloc, folder, vault, dir, &stored)
}

// What stands at the entry of what is stored of a name.
fn standing_at<F: Folder>(
    alloc: Global,
    folder: &mut F,
    vault: &Vault,
    dir: &Directory,
    stored: &Stored,
) -> Result<Standing, FolderFault>
    ensures told { F.told folder.new ≡ F.told folder.old }
    ensures stands { IfOk result (λ here. IfSeen (F.told folder.old) (λ v. standing_of here ≡ standing_at (format_of vault.now.vault) (under vault.now.root v) dir.now stored.now)) }
    ensures fits { IfOk result (λ here. EntersFit vault.now.vault here) }
    ensures counts { CountsAbove (F.faults folder.old) (F.faults folder.new) result }
{
    let at = dir.folder.child(stored.name.as_str())?;
    let item = item_at(folder, vault, &at, stored.full.is_some())?;
    let named = holds_full(alloc, folder, vault, dir, stored)?;
    standing_of(alloc, folder, vault, at, named, item)
}

// What stands at an entry that is this item, by whether its name is right.
fn standing_of<F: Folder>(
    alloc: Global,
    folder: &mut F,
    vault: &Vault,
    at: FPath,
    named: bool,
    item: EntryItem,
) -> Result<Standing, FolderFault>
    ensures told { F.told folder.new ≡ F.told folder.old }
    ensures stands { IfOk result (λ here. IfSeen (F.told folder.old) (λ v. standing_of here ≡ stands.standing_of (format_of vault.now.vault) (under vault.now.root v) at named (item_of item))) }
    ensures fits { IfOk result (λ here. EntersFit vault.now.vault here) }
    ensures counts { CountsAbove (F.faults folder.old) (F.faults folder.new) result }
{
    match item {
        EntryItem::Nothing => Ok(Standing::Absent),
        _ if !named => Ok(Standing::Strange(at)),
        EntryItem::EntryFile => Ok(Standing::File(at)),
        EntryItem::ContentFile => Ok(Standing::File(at.child(CONTENT_FILE)?)),
        EntryItem::Directory => directory_at(alloc, folder, vault, at),
        EntryItem::NoItem(_) => Ok(Standing::Strange(at)),
    }
}

// The directory whose entry is at a path.
fn directory_at<F: Folder>(
    alloc: Global,
    folder: &mut F,
    vault: &Vault,
    at: FPath,
) -> Result<Standing, FolderFault>
    ensures told { F.told folder.new ≡ F.told folder.old }
    ensures stands { IfOk result (λ here. IfSeen (F.told folder.old) (λ v. standing_of here ≡ stands.Dir at (directory_with (format_of vault.now.vault) (under vault.now.root v) at (key_of (format_of vault.now.vault) (under at (under vault.now.root v)))))) }
    ensures fits { IfOk result (λ here. EntersFit vault.now.vault here) }
    ensures counts { CountsAbove (F.faults folder.old) (F.faults folder.new) result }
{
    let key = key_at(alloc, folder, vault, &at)?;
    directory_with(alloc, folder, vault, at, key)
}

// The directory with this key whose entry is at a path, or what it lacks.
fn directory_with<F: Folder>(
    alloc: Global,
    folder: &mut F,
    vault: &Vault,
    at: FPath,
    key: Option<Bytes>,
) -> Result<Standing, FolderFault>
    requires { IfSome key (λ bytes. FitsKey vault.now.vault bytes) }
    ensures told { F.told folder.new ≡ F.told folder.old }
    ensures stands { IfOk result (λ here. IfSeen (F.told folder.old) (λ v. standing_of here ≡ stands.Dir at (directory_with (format_of vault.now.vault) (under vault.now.root v) at key))) }
    ensures fits { IfOk result (λ here. EntersFit vault.now.vault here) }
    ensures counts { CountsAbove (F.faults folder.old) (F.faults folder.new) result }
{
    let Some(key) = key else {
        return Ok(Standing::Dir(at, Err(Lack::NoDirKey)));
    };
    let place = folder_of(alloc, vault, &at, key.as_slice())?;
    match kind_under(folder, vault.root(), &place)? {
        Kind::Dir => Ok(Standing::Dir(at, Ok(Directory { folder: place, key }))),
        _ => Ok(Standing::Dir(at, Err(Lack::NoFolder))),
    }
}

// The key of the root.
fn root_key<F: Folder>(
    alloc: Global,
    folder: &mut F,
    vault: &Vault,
) -> Result<Option<Bytes>, FolderFault>
    ensures told { F.told folder.new ≡ F.told folder.old }
    ensures key { IfOk result (λ key. IfSeen (F.told folder.old) (λ v. key ≡ (format_of vault.now.vault).root_key (under vault.now.root v))) }
    ensures fits { IfOk result (λ key. IfSome key (λ bytes. FitsKey vault.now.vault bytes)) }
    ensures counts { CountsAbove (F.faults folder.old) (F.faults folder.new) result }
{
    match vault.kind() {
        VaultKind::Gocryptfs => key_at(alloc, folder, vault, &FPath::base(alloc)),
        VaultKind::Cryptomator => Ok(Some(Bytes::new(Vec::new(alloc)))),
    }
}

/// The key of the directory whose entry is at a path, if it has one. Paths begin at the vault's root.
pub fn key_at<F: Folder>(
    alloc: Global,
    folder: &mut F,
    vault: &Vault,
    at: &FPath,
) -> Result<Option<Bytes>, FolderFault>
    ensures told { F.told folder.new ≡ F.told folder.old }
    ensures key { IfOk result (λ key. IfSeen (F.told folder.old) (λ v. key ≡ key_of (format_of vault.now.vault) (under at.now (under vault.now.root v)))) }
    ensures fits { IfOk result (λ key. IfSome key (λ bytes. FitsKey vault.now.vault bytes)) }
    ensures counts { CountsAbove (F.faults folder.old) (F.faults folder.new) result }
{
    let kind = vault.kind();
    let path = at.child(key_file(kind))?;
    let file = read_under(alloc, folder, vault.root(), &path, key_limit(kind))?;
    Ok(key_in(kind, file))
}

// The name of the file that holds a directory's key.
fn key_file(kind: VaultKind) -> &'static str
    ensures { result.now ≡ key_file_by kind }
{
    match kind {
        VaultKind::Gocryptfs => KEY_FILE,
        VaultKind::Cryptomator => ID_FILE,
    }
}

// The most bytes of a directory's key.
fn key_limit(kind: VaultKind) -> usize
    ensures { result ≡ key_limit kind }
{
    match kind {
        VaultKind::Gocryptfs => 16,
        VaultKind::Cryptomator => 1_000,
    }
}

// The key that a file holds.
fn key_in(kind: VaultKind, file: SmallFile) -> Option<Bytes>
    ensures { result ≡ key_by kind file }
{
    let SmallFile::Whole(bytes) = file else {
        return None;
    };
    if is_key(kind, bytes.as_slice()) {
        Some(bytes)
    } else {
        None
    }
}

// Whether bytes, no more than the most, are a directory's key.
fn is_key(kind: VaultKind, bytes: &[u8]) -> bool
    ensures { result ≡ is_key kind bytes.now }
{
    match kind {
        VaultKind::Gocryptfs => bytes.len() == 16 && !is_zero(bytes),
        VaultKind::Cryptomator => !bytes.is_empty(),
    }
}

fn is_zero(bytes: &[u8]) -> bool
    ensures { result ≡ is_all_zero bytes.now }
{
    bytes.iter().all(|byte| *byte == 0)
}

// Whether an entry's long-name file has its text, where there is to be one.
fn holds_full<F: Folder>(
    alloc: Global,
    folder: &mut F,
    vault: &Vault,
    dir: &Directory,
    stored: &Stored,
) -> Result<bool, FolderFault>
    ensures told { F.told folder.new ≡ F.told folder.old }
    ensures holds { IfOk result (λ yes. IfSeen (F.told folder.old) (λ v. yes ≡ holds_full (format_of vault.now.vault) (under vault.now.root v) dir.now stored.now)) }
    ensures counts { CountsAbove (F.faults folder.old) (F.faults folder.new) result }
{
    let Some(text) = &stored.full else {
        return Ok(true);
    };
    let at = full_path(alloc, vault, &dir.folder, stored.name.as_str())?;
    holds_text(alloc, folder, vault.root(), &at, text.as_str())
}

// Whether the file at a path holds just this text.
fn holds_text<F: Folder>(
    alloc: Global,
    folder: &mut F,
    root: &FPath,
    at: &FPath,
    text: &str,
) -> Result<bool, FolderFault>
    ensures told { F.told folder.new ≡ F.told folder.old }
    ensures holds { IfOk result (λ yes. IfSeen (F.told folder.old) (λ v. yes ≡ holds (under root.now v) at.now (Some text.now))) }
    ensures counts { CountsAbove (F.faults folder.old) (F.faults folder.new) result }
{
    let file = read_under(alloc, folder, root, at, text.len())?;
    Ok(is_file_of(&file, text))
}

fn is_file_of(file: &SmallFile, text: &str) -> bool
    ensures { result ≡ is_small_file_of file.now text.now }
{
    match file {
        SmallFile::Whole(bytes) => bytes.as_slice() == text.as_bytes(),
        _ => false,
    }
}

// The path of the long-name file of an entry of a folder.
pub(crate) fn full_path(
    alloc: Global,
    vault: &Vault,
    at: &FPath,
    name: &str,
) -> Result<FPath, AllocError>
    ensures { IfOk result (λ path. path ≡ at.now ++ (format_of vault.now.vault).full_at name.now) }
{
    match vault.kind() {
        VaultKind::Gocryptfs => {
            let mut full = String::from_str(alloc, name)?;
            full.push_str(".name")?;
            at.child(full.as_str())
        }
        VaultKind::Cryptomator => {
            let entry = at.child(name)?;
            entry.child("name.c9s")
        }
    }
}
