//! The items of a directory.
ghost use Rattle.std.specs.Prelude.{◌≡◌, ◌≤◌, ◌++◌, ℕ, List, Some, None, OnOk, IfOk, IfErr, IfSome, Ok, Err, IsTrue, is_some, length};
ghost use Rattle.std.specs.Option.{option_to_list};
ghost use Rattle.std.specs.Str.{IsUtf8};
ghost use Rattle.folder_spec.specs.View.{Folder};
ghost use Rattle.folder_spec.specs.Seen.{IfSeen, under};
ghost use Rattle.folder_model.specs.Answers.{CountsAbove, OnlyLooks};
ghost use Rattle.vault_spec.specs.Format.{Directory};
ghost use Rattle.vault_spec.specs.Find as spec;
ghost use Rattle.vault_spec.specs.Findings.{IsEntryOf};
ghost use Rattle.vault_spec.specs.Listing.{Listed, AreListed};
ghost use Rattle.vault_spec.specs.Vault.{format_of};
ghost use Rattle.vault_read.specs.Opened.{FitsKey};
ghost use Rattle.vault_read.specs.Contents.{IsOfPath};
ghost use Rattle.vault_read.specs.Finding.{Refuses};
ghost use Rattle.vault_read.specs.Items.{item_of};
ghost use Rattle.vault_read.specs.Listing.{AreFound, AreSorted, HasItems, HasPlace, HavePlaces, IsItemOf, IsNameOf, IsTextAt, TellsNames, has_form, is_entry, is_long, item_found, item_path, items_of, named_item, stored_by};
ghost use Rattle.vault_read.specs.declared.looking.SmallFile.TheVariants.{Whole};

use crate::finding::enter_at;
use crate::items::{CONTENT_FILE, EntryItem, item_at};
use crate::looking::{SmallFile, read_under};
use crate::standing::{Directory, full_path};
use crate::vault::{OpenedKeys, Vault, VaultKind};
use folder_model::{Entry, FPath, Folder};
use folder_spec::FolderFault;
use plain_tree::{Name, NodeKind, PlainPath};
use std::alloc::{AllocError, Global};
use std::marker::Model;
use vault_faults::FindFault;
use vault_names::laws::{
    cm_long_names_are_plain, cm_text_has_one_name, cm_texts_are_plain, long_names_are_plain,
    text_has_one_name, texts_are_plain,
};
use vault_names::{NameFault, Stored, cm_entry, go_entry};
use vault_spec::laws::what_is_found_stands;
use vault_values::{Bytes, Text};

const LONG_START: &str = "gocryptfs.longname.";

const LONG_END: &str = ".c9s";

// The most bytes of a long-name file that are read. No text of a name has more.
const MAX_TEXT_SIZE: usize = 1_024;

/// An item with its name in its directory.
#[derive(Drop)]
pub struct Item {
    pub name: Name,
    pub node: NodeKind,
}

impl Model for Item {
    ghost use Rattle.vault_spec.specs.Listing.{Listed};

    ghost Value = { Listed };

    ghost view = { λ item. record { name = item.name; node = item.node } };
}

/// An item of a directory, and its path in the folder as a `Place` has it: the entry of a directory, and for a file the file of its
/// content.
#[derive(Drop)]
pub struct Found {
    pub item: Item,
    pub at: FPath,
}

/// The items of the directory at a plain path, in byte order of their names. What stands in it and is no item is passed over.
/// It refuses as `enter` does.
pub fn list<F: Folder>(
    alloc: Global,
    folder: &mut F,
    vault: &Vault,
    path: &PlainPath,
) -> Result<Vec<Item>, FindFault>
    ensures looks { OnlyLooks (F.told folder.old) (F.told folder.new) (result ≡ Err FindFault.Failed) (F.faults folder.old) (F.faults folder.new) }
    ensures items { IfOk result (λ items. IfSeen (F.told folder.old) (λ v. (dir : Directory)
        × (spec.enter (format_of vault.now.vault) (under vault.now.root v) path.now ≡ Ok dir)
        × AreListed (format_of vault.now.vault) (under vault.now.root v) dir items.items)) }
    ensures fault { IfErr result (λ fault. IfSeen (F.told folder.old) (λ v. Refuses vault.now.root (spec.enter (format_of vault.now.vault) (under vault.now.root v) path.now) fault)) }
{
    what_is_found_stands();
    let entered = enter_at(alloc, folder, vault, path)?;
    let found = found_in(alloc, folder, vault, &entered.dir)?;
    let items = without_places(alloc, found)?;
    Ok(items)
}

/// The items that a folder holds when the names of its entries are read with a directory's key, in byte order of their names, each with
/// its place. The folder's path begins at the vault's root, and no entry has to lead there. In a gocryptfs vault the key has 16 bytes.
pub fn items_in<F: Folder>(
    alloc: Global,
    folder: &mut F,
    vault: &Vault,
    at: &FPath,
    key: &[u8],
) -> Result<Vec<Found>, FindFault>
    requires fits { FitsKey vault.now.vault key.now }
    requires folder { IfSeen (F.told folder.old) (λ v. under vault.now.root v at.now ≡ Folder) }
    ensures looks { OnlyLooks (F.told folder.old) (F.told folder.new) (result ≡ Err FindFault.Failed) (F.faults folder.old) (F.faults folder.new) }
    ensures items { IfOk result (λ found. IfSeen (F.told folder.old) (λ v. AreFound vault.now.root (format_of vault.now.vault) (under vault.now.root v) (record { folder = at.now; key = key.now }) found.items)) }
    ensures fault { IfErr result (λ fault. ¬ IsOfPath fault) }
{
    let dir = Directory {
        folder: at.copy()?,
        key: Bytes::new(key.to_vec(alloc)?),
    };
    let found = found_in(alloc, folder, vault, &dir)?;
    Ok(found)
}

/// The name that an entry stands for, and whether it is long: whether its text stands in a file of its own.
#[derive(Drop)]
pub struct NameAt {
    pub name: Name,
    pub long: bool,
}

/// The name whose entry this is in a directory, if it is one's.
pub fn name_at<F: Folder>(
    alloc: Global,
    folder: &mut F,
    vault: &Vault,
    dir: &Directory,
    entry: &str,
) -> Result<Option<NameAt>, FolderFault>
    requires { FitsKey vault.now.vault dir.now.key }
    ensures told { F.told folder.new ≡ F.told folder.old }
    ensures name { IfOk result (λ found. IfSome found (λ at. IfSeen (F.told folder.old) (λ v. IsEntryOf (format_of vault.now.vault) (under vault.now.root v) dir.now entry.now at.name))) }
    ensures one { IfOk result (λ found. IfSome found (λ at. IfSeen (F.told folder.old) (λ v. (name : List ℕ)
        → IsEntryOf (format_of vault.now.vault) (under vault.now.root v) dir.now entry.now name → name ≡ at.name))) }
    ensures long { IfOk result (λ found. IfSome found (λ at. at.long ≡ is_some ((format_of vault.now.vault).stored dir.now.key at.name).full)) }
    ensures none { IfOk result (λ found. found ≡ None → IfSeen (F.told folder.old) (λ v. (name : List ℕ)
        → ¬ IsEntryOf (format_of vault.now.vault) (under vault.now.root v) dir.now entry.now name)) }
    ensures counts { CountsAbove (F.faults folder.old) (F.faults folder.new) result }
{
    texts_tell_names(vault, dir.key.as_slice());
    let long = is_long(vault.kind(), entry);
    let Some(text) = text_at(alloc, folder, vault, dir, entry, long)? else {
        return Ok(None);
    };
    let Some(name) = entry_name(alloc, vault, dir, entry, long, &text)? else {
        return Ok(None);
    };
    Ok(Some(NameAt { name, long }))
}

// The items of a directory with their places, in byte order of their names.
fn found_in<F: Folder>(
    alloc: Global,
    folder: &mut F,
    vault: &Vault,
    dir: &Directory,
) -> Result<Vec<Found>, FolderFault>
    requires fits { FitsKey vault.now.vault dir.now.key }
    requires folder { IfSeen (F.told folder.old) (λ v. under vault.now.root v dir.now.folder ≡ Folder) }
    ensures told { F.told folder.new ≡ F.told folder.old }
    ensures items { IfOk result (λ found. IfSeen (F.told folder.old) (λ v. AreFound vault.now.root (format_of vault.now.vault) (under vault.now.root v) dir.now found.items)) }
    ensures counts { CountsAbove (F.faults folder.old) (F.faults folder.new) result }
{
    let at = vault.root().joined(&dir.folder)?;
    let entries = folder.list(&at)?;
    let found = found_at(alloc, folder, vault, dir, entries.as_slice())?;
    Ok(sorted(found))
}

// The same items in byte order of their names.
fn sorted(mut found: Vec<Found>) -> Vec<Found>
    ensures { AreSorted found.items result.items }
{
    found.sort_unstable_by(|one, other| one.item.name.cmp(&other.item.name));
    found
}

// The items alone.
fn without_places(alloc: Global, found: Vec<Found>) -> Result<Vec<Item>, AllocError>
    ensures { IfOk result (λ items. items.items ≡ items_of found.items) }
{
    let mut items = Vec::new(alloc);
    for one in found {
        items.push(one.item)?;
    }
    Ok(items)
}

// The items at these entries of a directory's folder, in the entries' order.
fn found_at<F: Folder>(
    alloc: Global,
    folder: &mut F,
    vault: &Vault,
    dir: &Directory,
    entries: &[Entry],
) -> Result<Vec<Found>, FolderFault>
    requires { FitsKey vault.now.vault dir.now.key }
    ensures told { F.told folder.new ≡ F.told folder.old }
    ensures items { IfOk result (λ found. IfSeen (F.told folder.old) (λ v. HasItems (format_of vault.now.vault) (under vault.now.root v) dir.now entries.now (items_of found.items))) }
    ensures places { IfOk result (λ found. IfSeen (F.told folder.old) (λ v. HavePlaces vault.now.root (format_of vault.now.vault) (under vault.now.root v) dir.now found.items)) }
    ensures counts { CountsAbove (F.faults folder.old) (F.faults folder.new) result }
{
    let mut all = Vec::new(alloc);
    for entry in entries {
        let found = entry_item(alloc, folder, vault, dir, entry.name.as_str())?;
        add(&mut all, found)?;
    }
    Ok(all)
}

// Adds the item, if there is one.
fn add(all: &mut Vec<Found>, found: Option<Found>) -> Result<(), AllocError>
    ensures { OnOk result (all.new.items ≡ all.old.items ++ option_to_list found) }
{
    if let Some(one) = found {
        all.push(one)?;
    }
    Ok(())
}

// The item whose entry has this name, if an item stands there.
fn entry_item<F: Folder>(
    alloc: Global,
    folder: &mut F,
    vault: &Vault,
    dir: &Directory,
    entry: &str,
) -> Result<Option<Found>, FolderFault>
    requires { FitsKey vault.now.vault dir.now.key }
    ensures told { F.told folder.new ≡ F.told folder.old }
    ensures item { IfOk result (λ found. IfSeen (F.told folder.old) (λ v. IsItemOf (format_of vault.now.vault) (under vault.now.root v) dir.now entry.now (item_found found))) }
    ensures place { IfOk result (λ found. IfSome found (λ one. IfSeen (F.told folder.old) (λ v. HasPlace vault.now.root (format_of vault.now.vault) (under vault.now.root v) dir.now one))) }
    ensures counts { CountsAbove (F.faults folder.old) (F.faults folder.new) result }
{
    let Some(named) = name_at(alloc, folder, vault, dir, entry)? else {
        return Ok(None);
    };
    let NameAt { name, long } = named;
    let at = dir.folder.child(entry)?;
    let item = item_at(folder, vault, &at, long)?;
    let found = named_item(vault.root(), &at, name, item)?;
    Ok(found)
}

// The item with this name and its place, if an item stands at its entry, which is at a path.
fn named_item(
    root: &FPath,
    at: &FPath,
    name: Name,
    item: EntryItem,
) -> Result<Option<Found>, AllocError>
    ensures item { IfOk result (λ found. item_found found ≡ named_item name (item_of item)) }
    ensures place { IfOk result (λ found. IfSome found (λ one. one.at ≡ root.now ++ item_path at.now (item_of item))) }
{
    match item {
        EntryItem::EntryFile => Ok(Some(placed_item(root, at, name, NodeKind::File)?)),
        EntryItem::ContentFile => {
            let content = at.child(CONTENT_FILE)?;
            Ok(Some(placed_item(root, &content, name, NodeKind::File)?))
        }
        EntryItem::Directory => Ok(Some(placed_item(root, at, name, NodeKind::Dir)?)),
        EntryItem::Nothing => Ok(None),
        EntryItem::NoItem(_) => Ok(None),
    }
}

// The item with this name, placed at a path behind the root.
fn placed_item(root: &FPath, at: &FPath, name: Name, node: NodeKind) -> Result<Found, AllocError>
    ensures { IfOk result (λ found. found ≡ record { item = record { name = name; node = node }; at = root.now ++ at.now }) }
{
    let at = root.joined(at)?;
    let item = Item { name, node };
    Ok(Found { item, at })
}

// Whether an entry has the name of a long one.
fn is_long(kind: VaultKind, entry: &str) -> bool
    ensures { result ≡ is_long kind entry.now }
{
    match kind {
        VaultKind::Gocryptfs => entry.as_bytes().starts_with(LONG_START.as_bytes()),
        VaultKind::Cryptomator => entry.as_bytes().ends_with(LONG_END.as_bytes()),
    }
}

// The text that an entry stands for: its own name, or what the file of a long one holds.
fn text_at<F: Folder>(
    alloc: Global,
    folder: &mut F,
    vault: &Vault,
    dir: &Directory,
    entry: &str,
    long: bool,
) -> Result<Option<Text>, FolderFault>
    ensures told { F.told folder.new ≡ F.told folder.old }
    ensures text { IfOk result (λ found. IfSome found (λ text. IfSeen (F.told folder.old) (λ v. IsTextAt (format_of vault.now.vault) (under vault.now.root v) dir.now entry.now long text))) }
    ensures none { IfOk result (λ found. found ≡ None → IfSeen (F.told folder.old) (λ v. (text : List ℕ) → IsUtf8 text → length text ≤ 1024
        → ¬ IsTextAt (format_of vault.now.vault) (under vault.now.root v) dir.now entry.now long text)) }
    ensures counts { CountsAbove (F.faults folder.old) (F.faults folder.new) result }
{
    if !long {
        return Ok(Some(Text::copy_of(alloc, entry)?));
    }
    let at = full_path(alloc, vault, &dir.folder, entry)?;
    let file = read_under(alloc, folder, vault.root(), &at, MAX_TEXT_SIZE)?;
    Ok(text_in(file))
}

// The text that a file holds.
fn text_in(file: SmallFile) -> Option<Text>
    ensures text { IfSome result (λ text. file ≡ Whole text) }
    ensures none { result ≡ None → (text : List ℕ) → IsUtf8 text → ¬ (file ≡ Whole text) }
{
    let SmallFile::Whole(bytes) = file else {
        return None;
    };
    match String::from_utf8(bytes.into_vec()) {
        Ok(text) => Some(Text::new(text)),
        Err(_) => None,
    }
}

// The name that is stored as this text at this entry of a directory.
fn entry_name(
    alloc: Global,
    vault: &Vault,
    dir: &Directory,
    entry: &str,
    long: bool,
    text: &Text,
) -> Result<Option<Name>, AllocError>
    requires fits { FitsKey vault.now.vault dir.now.key }
    requires laws { TellsNames vault.now.vault dir.now.key }
    ensures name { IfOk result (λ found. IfSome found (λ name. IsNameOf vault.now.vault dir.now.key name text.now × IsTrue (is_entry entry.now long ((format_of vault.now.vault).stored dir.now.key name)))) }
    ensures none { IfOk result (λ found. found ≡ None → (name : List ℕ) → IsNameOf vault.now.vault dir.now.key name text.now
        → ¬ IsTrue (is_entry entry.now long ((format_of vault.now.vault).stored dir.now.key name))) }
{
    let Some(name) = name_of(alloc, vault, dir.key.as_slice(), text.as_str())? else {
        return Ok(None);
    };
    let stored = stored_by(alloc, vault, text)?;
    if is_entry(entry, long, &stored) {
        Ok(Some(name))
    } else {
        Ok(None)
    }
}

// What is stored of the name that has this text, which tells it without being encrypted once more.
fn stored_by(alloc: Global, vault: &Vault, text: &Text) -> Result<Stored, AllocError>
    ensures { IfOk result (λ stored. stored ≡ stored_by vault.now.vault text.now) }
{
    let text = String::from_str(alloc, text.as_str())?;
    match vault.keys() {
        OpenedKeys::Gocryptfs(_) => go_entry(alloc, text),
        OpenedKeys::Cryptomator(cm) => cm_entry(alloc, cm.threshold(), text),
    }
}

// Whether what is stored of a name stands at this entry.
fn is_entry(entry: &str, long: bool, stored: &Stored) -> bool
    ensures { result ≡ is_entry entry.now long stored.now }
{
    stored.name.as_str() == entry && has_form(long, stored)
}

// Whether what is stored has a text of its own where its name is long, and only there.
fn has_form(long: bool, stored: &Stored) -> bool
    ensures { result ≡ has_form long stored.now.full }
{
    match &stored.full {
        Some(_) => long,
        None => !long,
    }
}

// The name that is stored as a text in the directory with this key.
fn name_of(alloc: Global, vault: &Vault, key: &[u8], text: &str) -> Result<Option<Name>, AllocError>
    requires { FitsKey vault.now.vault key.now }
    ensures name { IfOk result (λ found. IfSome found (λ name. IsNameOf vault.now.vault key.now name text.now)) }
    ensures none { IfOk result (λ found. found ≡ None → (name : List ℕ) → ¬ IsNameOf vault.now.vault key.now name text.now) }
{
    let read = match vault.keys() {
        OpenedKeys::Gocryptfs(go) => {
            let mut block = [0; 16];
            block.copy_from_slice(key);
            go.names().read(alloc, &block, text)
        }
        OpenedKeys::Cryptomator(cm) => cm.names().read(alloc, key, text),
    };
    match read {
        Ok(name) => Ok(Some(name)),
        Err(NameFault::NotStored) => Ok(None),
        Err(NameFault::NoMemory) => Err(AllocError),
    }
}

// A text is that of one name, and an entry tells whether its name is long.
fn texts_tell_names(vault: &Vault, key: &[u8])
    requires { FitsKey vault.now.vault key.now }
    ensures { TellsNames vault.now.vault key.now }
{
    match vault.keys() {
        OpenedKeys::Gocryptfs(_) => {
            text_has_one_name();
            texts_are_plain();
            long_names_are_plain();
        }
        OpenedKeys::Cryptomator(_) => {
            cm_text_has_one_name();
            cm_texts_are_plain();
            cm_long_names_are_plain();
        }
    }
}
