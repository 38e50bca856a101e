//! What an entry of a vault is.
ghost use Rattle.std.specs.Prelude.{◌≡◌, IfOk, if◌then◌else◌};
ghost use Rattle.folder_spec.specs.View.{Found, kind_found};
ghost use Rattle.folder_spec.specs.Seen.{IfSeen, under};
ghost use Rattle.folder_model.specs.Answers.{CountsAbove};
ghost use Rattle.vault_spec.specs.Vault.{format_of};
ghost use Rattle.vault_spec.specs.Gocryptfs.{go_item};
ghost use Rattle.vault_spec.specs.Cryptomator.{cm_item_of, folder_item, has_file};
ghost use Rattle.vault_read.specs.Items.{item_of, folder_item_in};
ghost use Rattle.vault_spec.specs.declared.Finding.TheVariants.{WrongKind};
ghost use Rattle.vault_read.specs.declared.items.EntryItem.TheVariants.{NoItem};

use crate::looking::kind_under;
use crate::vault::{Vault, VaultKind};
use folder_model::{FPath, Folder, Kind};
use folder_spec::FolderFault;
use vault_spec::Finding;

/// The file in a Cryptomator entry that holds a content.
pub const CONTENT_FILE: &str = "contents.c9r";

/// The file in a Cryptomator entry that holds a directory's id.
pub(crate) const ID_FILE: &str = "dir.c9r";

const SYMLINK_FILE: &str = "symlink.c9r";

/// What an entry is, if its name is right.
#[derive(Clone, Copy, PartialEq, Eq)]
pub enum EntryItem {
    Nothing,
    /// A file whose content the entry stores.
    EntryFile,
    /// A file whose content `contents.c9r` in the entry stores.
    ContentFile,
    Directory,
    NoItem(Finding),
}

/// What the entry at a path is, by whether its name is long. Paths begin at the vault's root.
pub fn item_at<F: Folder>(
    folder: &mut F,
    vault: &Vault,
    at: &FPath,
    long: bool,
) -> Result<EntryItem, FolderFault>
    ensures told { F.told folder.new ≡ F.told folder.old }
    ensures item { IfOk result (λ item. IfSeen (F.told folder.old) (λ v. item_of item ≡ (format_of vault.now.vault).item long (under at.now (under vault.now.root v)))) }
    ensures counts { CountsAbove (F.faults folder.old) (F.faults folder.new) result }
{
    let kind = kind_under(folder, vault.root(), at)?;
    item_of_kind(folder, vault, at, kind, long)
}

/// What the entry at a path is, by the kind of what stands there and by whether its name is long. The folder is asked only
/// where that is a directory of a Cryptomator vault, for the files in it.
pub fn item_of_kind<F: Folder>(
    folder: &mut F,
    vault: &Vault,
    at: &FPath,
    kind: Kind,
    long: bool,
) -> Result<EntryItem, FolderFault>
    ensures told { F.told folder.new ≡ F.told folder.old }
    ensures item { IfOk result (λ item. IfSeen (F.told folder.old) (λ v. kind ≡ kind_found (under vault.now.root v at.now)
        → item_of item ≡ (format_of vault.now.vault).item long (under at.now (under vault.now.root v)))) }
    ensures counts { CountsAbove (F.faults folder.old) (F.faults folder.new) result }
{
    match vault.kind() {
        VaultKind::Gocryptfs => Ok(go_item(kind)),
        VaultKind::Cryptomator => cm_item_of_kind(folder, vault.root(), at, kind, long),
    }
}

fn go_item(kind: Kind) -> EntryItem
    ensures { (found : Found) → kind ≡ kind_found found → item_of result ≡ go_item found }
{
    match kind {
        Kind::Missing => EntryItem::Nothing,
        Kind::File => EntryItem::EntryFile,
        Kind::Dir => EntryItem::Directory,
        Kind::Other => EntryItem::NoItem(Finding::SymlinkFound),
    }
}

fn cm_item_of_kind<F: Folder>(
    folder: &mut F,
    root: &FPath,
    at: &FPath,
    kind: Kind,
    long: bool,
) -> Result<EntryItem, FolderFault>
    ensures told { F.told folder.new ≡ F.told folder.old }
    ensures item { IfOk result (λ item. IfSeen (F.told folder.old) (λ v. kind ≡ kind_found (under root.now v at.now)
        → item_of item ≡ cm_item_of long (under at.now (under root.now v)) (under root.now v at.now))) }
    ensures counts { CountsAbove (F.faults folder.old) (F.faults folder.new) result }
{
    match kind {
        Kind::Missing => Ok(EntryItem::Nothing),
        Kind::File => Ok(entry_item(long, EntryItem::EntryFile)),
        Kind::Other => Ok(entry_item(long, EntryItem::NoItem(Finding::SymlinkFound))),
        Kind::Dir => folder_item_at(folder, root, at, long),
    }
}

// What an entry is that is no folder, if its name isn't long.
fn entry_item(long: bool, short: EntryItem) -> EntryItem
    ensures { result ≡ (if long then NoItem WrongKind else short) }
{
    if long {
        EntryItem::NoItem(Finding::WrongKind)
    } else {
        short
    }
}

fn folder_item_at<F: Folder>(
    folder: &mut F,
    root: &FPath,
    at: &FPath,
    long: bool,
) -> Result<EntryItem, FolderFault>
    ensures told { F.told folder.new ≡ F.told folder.old }
    ensures item { IfOk result (λ item. IfSeen (F.told folder.old) (λ v. item_of item ≡ folder_item_in long (under at.now (under root.now v)))) }
    ensures counts { CountsAbove (F.faults folder.old) (F.faults folder.new) result }
{
    let content = has_file(folder, root, at, CONTENT_FILE)?;
    let id = has_file(folder, root, at, ID_FILE)?;
    let symlink = has_file(folder, root, at, SYMLINK_FILE)?;
    Ok(folder_item(long, content, id, symlink))
}

// Whether the entry at a path has a file of this name.
fn has_file<F: Folder>(
    folder: &mut F,
    root: &FPath,
    at: &FPath,
    name: &str,
) -> Result<bool, FolderFault>
    ensures told { F.told folder.new ≡ F.told folder.old }
    ensures file { IfOk result (λ yes. IfSeen (F.told folder.old) (λ v. yes ≡ has_file (under at.now (under root.now v)) name.now)) }
    ensures counts { CountsAbove (F.faults folder.old) (F.faults folder.new) result }
{
    let path = at.child(name)?;
    Ok(kind_under(folder, root, &path)? == Kind::File)
}

// What a folder is, by which of the three files it has.
fn folder_item(long: bool, content: bool, id: bool, symlink: bool) -> EntryItem
    ensures { item_of result ≡ folder_item long content id symlink }
{
    match (content, id, symlink) {
        (true, false, false) => {
            if long {
                EntryItem::ContentFile
            } else {
                EntryItem::NoItem(Finding::WrongKind)
            }
        }
        (false, true, false) => EntryItem::Directory,
        (false, false, true) => EntryItem::NoItem(Finding::SymlinkFound),
        (false, false, false) => EntryItem::NoItem(Finding::WrongKind),
        _ => EntryItem::NoItem(Finding::TwoKinds),
    }
}
