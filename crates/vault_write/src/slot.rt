//! Where a new item is to stand, and whether something stands there.
ghost use Rattle.std.specs.Prelude.{◌⊎◌, if◌then◌else◌, length, ◌≡◌, ◌≢◌, ◌∷◌, ◌++◌, [], ℕ, List, IfOk, IfErr, OnOk, None, Option};
ghost use Rattle.folder_spec.specs.Event.{Told};
ghost use Rattle.folder_spec.specs.Path.{Path, child, parent};
ghost use Rattle.folder_spec.specs.Seen.{IfSeen, under};
ghost use Rattle.folder_spec.specs.View.{NoEntry, Folder, kind_found};
ghost use Rattle.folder_model.specs.Answers.{CountsAbove};
ghost use Rattle.plain_tree.specs.Order.{path_eq};
ghost use Rattle.vault_read.specs.Looking.{small_file};
ghost use Rattle.vault_read.specs.Opened.{FitsKey, IsCryptomator};
ghost use Rattle.vault_spec.specs.Gocryptfs.{full_name, taken_unless};
ghost use Rattle.vault_spec.specs.Making.{NewItem, Allows};
ghost use Rattle.vault_spec.specs.Vault.{format_of};
ghost use Rattle.vault_write.specs.Calls.{IsAt, IsKept};
ghost use Rattle.vault_write.specs.Faults.{IsPlaceFault};
ghost use Rattle.vault_write.specs.Filing.{IsOverFault, IsSlotOver};
ghost use Rattle.vault_write.specs.Slots.{IsSlot, IsTakenAt, IsSideTaken, IsShelfTaken, IsHomeTaken, RefusesItem, CountsFailed, wants_text};

use crate::kept::KeptDir;
use content_writing::PutFault;
use folder_model::{FPath, Folder, Kind};
use folder_spec::FolderFault;
use plain_tree::{Name, PlainPath};
use std::alloc::{AllocError, Global};
use vault_names::Stored;
use vault_read::{
    DirPlace, SmallFile, Vault, VaultKind, content_folder, enter, read_small, stored_in,
};
use vault_spec::laws::what_is_found_stands;
use vault_values::Text;

// The place of a new item: the folder that holds its entry, the entry's path, and the text of a long name.
#[derive(Drop)]
pub(crate) struct Slot {
    pub(crate) at: FPath,
    pub(crate) side: FPath,
    pub(crate) full: Option<Text>,
}

// The folders of a new directory of Cryptomator, and whether the upper one is still to be made.
#[derive(Drop)]
pub(crate) struct Home {
    pub(crate) shelf: FPath,
    pub(crate) home: FPath,
    pub(crate) wants: bool,
}

// The plain path of these names.
fn path_to(alloc: Global, names: &[Name]) -> Result<PlainPath, AllocError>
    ensures { IfOk result (λ path. path ≡ names.now) }
{
    let mut path = PlainPath::root(alloc);
    for name in names {
        path = path.child(name)?;
    }
    Ok(path)
}

// The directory at a plain path.
fn entered<F: Folder>(
    alloc: Global,
    folder: &mut F,
    vault: &Vault,
    front: &[Name],
) -> Result<KeptDir, PutFault>
    ensures told { F.told folder.new ≡ F.told folder.old }
    ensures path { IfOk result (λ here. here.path ≡ front.now) }
    ensures place { IfOk result (λ here. IsAt vault.now front.now here.dir (F.told folder.old)) }
    ensures key { IfOk result (λ here. FitsKey vault.now.vault here.dir.key) }
    ensures refused { IfErr result (λ fault. (name : List ℕ) (item : NewItem) → RefusesItem vault.now front.now name item [] (F.told folder.old) fault) }
    ensures over { IfErr result (λ fault. IsOverFault vault.now front.now (F.told folder.old) fault) }
    ensures kind { IfErr result (λ fault. IsPlaceFault fault) }
    ensures counts { CountsFailed PutFault.Failed (F.faults folder.old) (F.faults folder.new) result }
{
    let path = path_to(alloc, front)?;
    let dir = enter(alloc, folder, vault, &path)?;
    Ok(KeptDir { path, dir })
}

// The directory at a plain path: the one that is kept, where that is it, or else it is entered.
pub(crate) fn kept_or_entered<F: Folder>(
    alloc: Global,
    folder: &mut F,
    vault: &Vault,
    front: &[Name],
    kept: Option<KeptDir>,
) -> Result<KeptDir, PutFault>
    requires { IsKept vault.now (F.told folder.old) kept }
    ensures told { F.told folder.new ≡ F.told folder.old }
    ensures path { IfOk result (λ here. here.path ≡ front.now) }
    ensures place { IfOk result (λ here. IsAt vault.now front.now here.dir (F.told folder.old)) }
    ensures key { IfOk result (λ here. FitsKey vault.now.vault here.dir.key) }
    ensures refused { IfErr result (λ fault. (name : List ℕ) (item : NewItem) → RefusesItem vault.now front.now name item [] (F.told folder.old) fault) }
    ensures kind { IfErr result (λ fault. IsPlaceFault fault) }
    ensures counts { CountsFailed PutFault.Failed (F.faults folder.old) (F.faults folder.new) result }
{
    if let Some(here) = kept {
        if is_path(&here.path, front) {
            return Ok(here);
        }
    }
    entered(alloc, folder, vault, front)
}

// Whether these are the names of a path.
fn is_path(path: &PlainPath, names: &[Name]) -> bool
    ensures { result ≡ path_eq path.now names.now }
{
    path.names() == names
}

// The vault allows the last name of a path.
fn allow(vault: &Vault, path: &PlainPath, name: &Name) -> Result<(), PutFault>
    ensures allowed { OnOk result (Allows (format_of vault.now.vault) name.now) }
    ensures refused { IfErr result (λ fault. (fault ≡ PutFault.NoMemory) ⊎ ((fault ≡ PutFault.NotAllowed path.now) × (¬ Allows (format_of vault.now.vault) name.now))) }
    ensures kind { IfErr result (λ fault. IsPlaceFault fault) }
    ensures memory { IfErr result (λ fault. fault ≢ PutFault.Failed) }
{
    if vault.kind() == VaultKind::Cryptomator && !name.is_nfc()? {
        return Err(PutFault::NotAllowed(path.copy()?));
    }
    Ok(())
}

// Where a name is stored in a directory.
fn slot_in(alloc: Global, vault: &Vault, dir: &DirPlace, name: &Name) -> Result<Slot, AllocError>
    requires { FitsKey vault.now.vault dir.now.key }
    ensures at { IfOk result (λ slot. slot.at ≡ child dir.now.folder ((format_of vault.now.vault).stored dir.now.key name.now).name) }
    ensures side { IfOk result (λ slot. slot.side ≡ child dir.now.folder (full_name ((format_of vault.now.vault).stored dir.now.key name.now).name)) }
    ensures full { IfOk result (λ slot. slot.full ≡ ((format_of vault.now.vault).stored dir.now.key name.now).full) }
{
    let stored = stored_in(alloc, vault, dir.key.as_slice(), name)?;
    let Stored { name, full } = stored;
    let side = side_in(alloc, &dir.folder, name.as_str())?;
    let at = dir.folder.child(name.as_str())?;
    Ok(Slot { at, side, full })
}

// Where the text of a long name is stored, beside the entry of this name.
fn side_in(alloc: Global, folder: &FPath, entry: &str) -> Result<FPath, AllocError>
    ensures { IfOk result (λ side. side ≡ child folder.now (full_name entry.now)) }
{
    let mut name = String::from_str(alloc, entry)?;
    name.push_str(".name")?;
    folder.child(name.as_str())
}

// What stands at a path.
fn kind_at<F: Folder>(folder: &mut F, at: &FPath) -> Result<Kind, FolderFault>
    ensures told { F.told folder.new ≡ F.told folder.old }
    ensures kind { IfOk result (λ kind. IfSeen (F.told folder.old) (λ v. kind ≡ kind_found (v at.now))) }
    ensures counts { CountsAbove (F.faults folder.old) (F.faults folder.new) result }
{
    folder.kind(at)
}

// A place is taken.
pub(crate) fn taken(at: &FPath) -> PutFault
    ensures { (result ≡ PutFault.NoMemory) ⊎ (result ≡ PutFault.Taken at.now) }
{
    match at.copy() {
        Ok(at) => PutFault::Taken(at),
        Err(_) => PutFault::NoMemory,
    }
}

// Nothing stands at a path.
pub(crate) fn is_free<F: Folder>(folder: &mut F, at: &FPath) -> Result<(), PutFault>
    ensures told { F.told folder.new ≡ F.told folder.old }
    ensures free { OnOk result (IfSeen (F.told folder.old) (λ v. v at.now ≡ NoEntry)) }
    ensures taken { IfErr result (λ fault. IsTakenAt at.now (F.told folder.old) fault) }
    ensures kind { IfErr result (λ fault. IsPlaceFault fault) }
    ensures counts { CountsFailed PutFault.Failed (F.faults folder.old) (F.faults folder.new) result }
{
    match kind_at(folder, at)? {
        Kind::Missing => Ok(()),
        _ => Err(taken(at)),
    }
}

// The place of a new item under the last name of a path in the directory that is entered. The name is tested, and then whether its entry
// is free.
pub(crate) fn slot_at<F: Folder>(
    alloc: Global,
    folder: &mut F,
    vault: &Vault,
    dir: &DirPlace,
    path: &PlainPath,
    front: &[Name],
    name: &Name,
) -> Result<Slot, PutFault>
    requires path { path.now ≡ front.now ++ name.now ∷ [] }
    requires key { FitsKey vault.now.vault dir.now.key }
    requires dir { IsAt vault.now front.now dir.now (F.told folder.old) }
    ensures told { F.told folder.new ≡ F.told folder.old }
    ensures slot { IfOk result (λ slot. IfSeen (F.told folder.old) (λ v. IsSlot vault.now (format_of vault.now.vault) front.now name.now (under vault.now.root v) slot.at slot.side slot.full)) }
    ensures refused { IfErr result (λ fault. (item : NewItem) → RefusesItem vault.now front.now name.now item [] (F.told folder.old) fault) }
    ensures kind { IfErr result (λ fault. IsPlaceFault fault) }
    ensures counts { CountsFailed PutFault.Failed (F.faults folder.old) (F.faults folder.new) result }
{
    let slot = slot_under(alloc, vault, dir, path, front, name)?;
    is_free(folder, &slot.at)?;
    Ok(slot)
}

// Whether the text of a long name is still to be put beside the entry. One that stands with the right text is kept.
pub(crate) fn wants_side<F: Folder>(
    alloc: Global,
    folder: &mut F,
    side: &FPath,
    full: &Option<Text>,
) -> Result<bool, PutFault>
    ensures told { F.told folder.new ≡ F.told folder.old }
    ensures wants { IfOk result (λ wants. IfSeen (F.told folder.old) (λ v. (wants ≡ wants_text (v side.now) full.now) × (taken_unless side.now (v side.now) full.now ≡ None))) }
    ensures taken { IfErr result (λ fault. IsSideTaken side.now full.now (F.told folder.old) fault) }
    ensures kind { IfErr result (λ fault. IsPlaceFault fault) }
    ensures counts { CountsFailed PutFault.Failed (F.faults folder.old) (F.faults folder.new) result }
{
    match full {
        None => Ok(false),
        Some(text) => match side_bytes(alloc, folder, side, text)? {
            SmallFile::Missing => Ok(true),
            SmallFile::Whole(bytes) => {
                if bytes.as_slice() == text.as_str().as_bytes() {
                    return Ok(false);
                }
                Err(taken(side))
            }
            _ => Err(taken(side)),
        },
    }
}

// What stands at a long name's file, as far as its text may go.
fn side_bytes<F: Folder>(
    alloc: Global,
    folder: &mut F,
    side: &FPath,
    text: &Text,
) -> Result<SmallFile, PutFault>
    ensures told { F.told folder.new ≡ F.told folder.old }
    ensures file { IfOk result (λ file. IfSeen (F.told folder.old) (λ v. file ≡ small_file (length text.now) (v side.now))) }
    ensures kind { IfErr result (λ fault. (fault ≡ PutFault.Failed) ⊎ (fault ≡ PutFault.NoMemory)) }
    ensures counts { CountsFailed PutFault.Failed (F.faults folder.old) (F.faults folder.new) result }
{
    Ok(read_small(alloc, folder, side, text.as_str().len())?)
}

// Where the folders of a new directory of Cryptomator are to stand. Nothing stands at its content folder.
pub(crate) fn home_of<F: Folder>(
    alloc: Global,
    folder: &mut F,
    vault: &Vault,
    id: &[u8],
) -> Result<Home, PutFault>
    requires { IsCryptomator vault.now.vault }
    ensures told { F.told folder.new ≡ F.told folder.old }
    ensures home { IfOk result (λ home. home.home ≡ vault.now.root ++ (format_of vault.now.vault).folder_of [] id.now) }
    ensures shelf { IfOk result (λ home. home.shelf ≡ parent home.home) }
    ensures free { IfOk result (λ home. IfSeen (F.told folder.old) (λ v. v home.home ≡ NoEntry)) }
    ensures wants { IfOk result (λ home. IfSeen (F.told folder.old) (λ v. v home.shelf ≡ (if home.wants then NoEntry else Folder))) }
    ensures taken { IfErr result (λ fault. let home : Path = vault.now.root ++ (format_of vault.now.vault).folder_of [] id.now in IsHomeTaken (parent home) home (F.told folder.old) fault) }
    ensures kind { IfErr result (λ fault. IsPlaceFault fault) }
    ensures counts { CountsFailed PutFault.Failed (F.faults folder.old) (F.faults folder.new) result }
{
    let home = content_folder(alloc, vault, id)?;
    let shelf = home.parent()?;
    let wants = wants_home(folder, &shelf, &home)?;
    Ok(Home { shelf, home, wants })
}

// Nothing stands at a new directory's content folder; and whether the folder above it is still to be made.
fn wants_home<F: Folder>(folder: &mut F, shelf: &FPath, home: &FPath) -> Result<bool, PutFault>
    ensures told { F.told folder.new ≡ F.told folder.old }
    ensures free { OnOk result (IfSeen (F.told folder.old) (λ v. v home.now ≡ NoEntry)) }
    ensures wants { IfOk result (λ wants. IfSeen (F.told folder.old) (λ v. v shelf.now ≡ (if wants then NoEntry else Folder))) }
    ensures taken { IfErr result (λ fault. IsHomeTaken shelf.now home.now (F.told folder.old) fault) }
    ensures kind { IfErr result (λ fault. IsPlaceFault fault) }
    ensures counts { CountsFailed PutFault.Failed (F.faults folder.old) (F.faults folder.new) result }
{
    is_free(folder, home)?;
    Ok(wants_shelf(folder, shelf)?)
}

// Whether the folder above a new directory's content folder is still to be made.
fn wants_shelf<F: Folder>(folder: &mut F, shelf: &FPath) -> Result<bool, PutFault>
    ensures told { F.told folder.new ≡ F.told folder.old }
    ensures wants { IfOk result (λ wants. IfSeen (F.told folder.old) (λ v. v shelf.now ≡ (if wants then NoEntry else Folder))) }
    ensures taken { IfErr result (λ fault. IsShelfTaken shelf.now (F.told folder.old) fault) }
    ensures kind { IfErr result (λ fault. IsPlaceFault fault) }
    ensures counts { CountsFailed PutFault.Failed (F.faults folder.old) (F.faults folder.new) result }
{
    match kind_at(folder, shelf)? {
        Kind::Missing => Ok(true),
        Kind::Dir => Ok(false),
        _ => Err(taken(shelf)),
    }
}

// The place under the last name of a path, whatever stands there. The directory that has it is entered first, and then the name is
// tested.
pub(crate) fn slot_over<F: Folder>(
    alloc: Global,
    folder: &mut F,
    vault: &Vault,
    path: &PlainPath,
    front: &[Name],
    name: &Name,
) -> Result<Slot, PutFault>
    requires { path.now ≡ front.now ++ name.now ∷ [] }
    ensures told { F.told folder.new ≡ F.told folder.old }
    ensures slot { IfOk result (λ slot. IsSlotOver vault.now front.now name.now (F.told folder.old) slot.at slot.side slot.full) }
    ensures refused { IfErr result (λ fault. (item : NewItem) → RefusesItem vault.now front.now name.now item [] (F.told folder.old) fault) }
    ensures over { IfErr result (λ fault. IsOverFault vault.now front.now (F.told folder.old) fault) }
    ensures kind { IfErr result (λ fault. IsPlaceFault fault) }
    ensures counts { CountsFailed PutFault.Failed (F.faults folder.old) (F.faults folder.new) result }
{
    let here = entered(alloc, folder, vault, front)?;
    Ok(slot_under(alloc, vault, &here.dir, path, front, name)?)
}

// The place under the last name of a path in a directory, whatever stands there and whatever a folder tells in which that is the
// directory at the front of the path. The name is tested.
fn slot_under(
    alloc: Global,
    vault: &Vault,
    dir: &DirPlace,
    path: &PlainPath,
    front: &[Name],
    name: &Name,
) -> Result<Slot, PutFault>
    requires path { path.now ≡ front.now ++ name.now ∷ [] }
    requires key { FitsKey vault.now.vault dir.now.key }
    ensures slot { IfOk result (λ slot. (told : Option Told) → IsAt vault.now front.now dir.now told → IsSlotOver vault.now front.now name.now told slot.at slot.side slot.full) }
    ensures refused { IfErr result (λ fault. (told : Option Told) → IsAt vault.now front.now dir.now told → (item : NewItem) → RefusesItem vault.now front.now name.now item [] told fault) }
    ensures over { IfErr result (λ fault. (told : Option Told) → IsOverFault vault.now front.now told fault) }
    ensures kind { IfErr result (λ fault. IsPlaceFault fault) }
    ensures memory { IfErr result (λ fault. fault ≢ PutFault.Failed) }
{
    what_is_found_stands();
    allow(vault, path, name)?;
    Ok(slot_in(alloc, vault, dir, name)?)
}
