//! Making directories.
ghost use Rattle.std.specs.Prelude.{◌≡◌, ◌≤◌, ◌∷◌, ◌++◌, [], None, Err, IfErr, OnOk, IsTrue};
ghost use Rattle.folder_spec.specs.Path.{Path};
ghost use Rattle.folder_spec.specs.Seen.{IfSeen, ShowsFree, under};
ghost use Rattle.folder_model.specs.Answers.{CountsAbove};
ghost use Rattle.plain_tree.specs.Names.{is_name};
ghost use Rattle.port_model.specs.Counts.{CountRose};
ghost use Rattle.vault_read.specs.Opened.{FitsKey, kind_of};
ghost use Rattle.vault_spec.specs.Making.{NewDirectory};
ghost use Rattle.vault_spec.specs.Vault.{format_of};
ghost use Rattle.vault_write.specs.Calls.{IsAt, IsKept, MakesDirectory};
ghost use Rattle.vault_write.specs.Editing.{AddsEdits, HomePlaces, GoPlaces, CmPlaces, HasBegun, DoesEdits, shelf_edits, home_edits, go_making, cm_making};
ghost use Rattle.vault_write.specs.Faults.{IsDirectoryFault};
ghost use Rattle.item_making.specs.Placing.{MayMake};
ghost use Rattle.vault_write.specs.Slots.{IsSlot, PlacesOne, placing};

use crate::drawing::{draw_id, draw_some};
use crate::kept::Kept;
use crate::laws::edits_show_trees;
use crate::slot::{Home, Slot, home_of, kept_or_entered, slot_at, taken, wants_side};
use crate::stage::{make_folder, publish_directory, publish_side};
use content_writing::PutFault;
use folder_model::{FPath, Folder};
use folder_spec::FolderFault;
use folder_spec::laws::roots_show_their_own;
use plain_tree::{Name, PlainPath};
use port_model::Randoms;
use std::alloc::Global;
use vault_names::laws::dir_ids_are_plain;
use vault_read::laws::items_keep_vaults;
use vault_read::{DirPlace, Vault, VaultKind};
use vault_spec::laws::{contents_of_cryptomator_refuse_no_zeros, what_is_found_stands};
use vault_values::Text;
use work_folder::Work;

/// Makes a new directory at a plain path.
///
/// At every moment a crash leaves the old tree or the one with the directory. The directory that is to have it is entered, then the
/// name is tested, and then its place.
pub fn place_dir<F: Folder, R: Randoms>(
    alloc: Global,
    folder: &mut F,
    work: &Work,
    vault: &Vault,
    path: &PlainPath,
    random: &mut R,
) -> Result<(), PutFault>
    requires { MayMake (F.told folder.old) work.now vault.now.root }
    ensures made { MakesDirectory vault.now work.now path.now (R.left random.old) (R.left random.new) (F.told folder.old) (F.told folder.new) result }
    ensures fault { IfErr result (λ fault. IsDirectoryFault fault) }
    ensures failed { result ≡ Err PutFault.Failed → CountRose (F.faults folder.old) (F.faults folder.new) }
    ensures random { result ≡ Err PutFault.Random → CountRose (R.faults random.old) (R.faults random.new) }
    ensures grows { F.faults folder.old ≤ F.faults folder.new }
    ensures counted { R.faults random.old ≤ R.faults random.new }
{
    let mut kept = Kept::new();
    place_dir_keeping(alloc, folder, work, vault, &mut kept, path, random)
}

/// Makes a new directory at a plain path as `place_dir` does, and keeps the directory that has it, which isn't entered anew where it is
/// the one that was kept.
pub fn place_dir_keeping<F: Folder, R: Randoms>(
    alloc: Global,
    folder: &mut F,
    work: &Work,
    vault: &Vault,
    kept: &mut Kept,
    path: &PlainPath,
    random: &mut R,
) -> Result<(), PutFault>
    requires kept { IsKept vault.now (F.told folder.old) kept.old.dir }
    requires may { MayMake (F.told folder.old) work.now vault.now.root }
    ensures made { MakesDirectory vault.now work.now path.now (R.left random.old) (R.left random.new) (F.told folder.old) (F.told folder.new) result }
    ensures kept { OnOk result (IsKept vault.now (F.told folder.new) kept.new.dir) }
    ensures fault { IfErr result (λ fault. IsDirectoryFault fault) }
    ensures failed { result ≡ Err PutFault.Failed → CountRose (F.faults folder.old) (F.faults folder.new) }
    ensures random { result ≡ Err PutFault.Random → CountRose (R.faults random.old) (R.faults random.new) }
    ensures grows { F.faults folder.old ≤ F.faults folder.new }
    ensures counted { R.faults random.old ≤ R.faults random.new }
{
    match path.names() {
        [] => Err(taken(vault.root())),
        [front @ .., name] => {
            place_named(alloc, folder, work, vault, kept, path, front, name, random)
        }
    }
}

// Makes a new directory under a name in the directory at the front of a path, which is kept.
fn place_named<F: Folder, R: Randoms>(
    alloc: Global,
    folder: &mut F,
    work: &Work,
    vault: &Vault,
    kept: &mut Kept,
    path: &PlainPath,
    front: &[Name],
    name: &Name,
    random: &mut R,
) -> Result<(), PutFault>
    requires path { path.now ≡ front.now ++ name.now ∷ [] }
    requires kept { IsKept vault.now (F.told folder.old) kept.old.dir }
    requires may { MayMake (F.told folder.old) work.now vault.now.root }
    ensures made { PlacesOne (placing vault.now work.now front.now name.now NewDirectory) (R.left random.old) (R.left random.new) (F.told folder.old) (F.told folder.new) result }
    ensures kept { OnOk result (IsKept vault.now (F.told folder.new) kept.new.dir) }
    ensures fault { IfErr result (λ fault. IsDirectoryFault fault) }
    ensures failed { result ≡ Err PutFault.Failed → CountRose (F.faults folder.old) (F.faults folder.new) }
    ensures random { result ≡ Err PutFault.Random → CountRose (R.faults random.old) (R.faults random.new) }
    ensures grows { F.faults folder.old ≤ F.faults folder.new }
    ensures counted { R.faults random.old ≤ R.faults random.new }
{
    let here = kept_or_entered(alloc, folder, vault, front, kept.dir.take())?;
    let result = place_under(
        alloc, folder, work, vault, &here.dir, path, front, name, random,
    );
    kept.dir = Some(here);
    result
}

// Makes a new directory under a name in a directory that is entered, which is that at the front of a path.
fn place_under<F: Folder, R: Randoms>(
    alloc: Global,
    folder: &mut F,
    work: &Work,
    vault: &Vault,
    dir: &DirPlace,
    path: &PlainPath,
    front: &[Name],
    name: &Name,
    random: &mut R,
) -> Result<(), PutFault>
    requires path { path.now ≡ front.now ++ name.now ∷ [] }
    requires key { FitsKey vault.now.vault dir.now.key }
    requires dir { IsAt vault.now front.now dir.now (F.told folder.old) }
    requires may { MayMake (F.told folder.old) work.now vault.now.root }
    ensures made { PlacesOne (placing vault.now work.now front.now name.now NewDirectory) (R.left random.old) (R.left random.new) (F.told folder.old) (F.told folder.new) result }
    ensures fault { IfErr result (λ fault. IsDirectoryFault fault) }
    ensures failed { result ≡ Err PutFault.Failed → CountRose (F.faults folder.old) (F.faults folder.new) }
    ensures random { result ≡ Err PutFault.Random → CountRose (R.faults random.old) (R.faults random.new) }
    ensures grows { F.faults folder.old ≤ F.faults folder.new }
    ensures counted { R.faults random.old ≤ R.faults random.new }
{
    let slot = slot_at(alloc, folder, vault, dir, path, front, name)?;
    let _named = name.bytes();
    match vault.kind() {
        VaultKind::Gocryptfs => place_go(alloc, folder, work, vault, &slot, front, name, random),
        VaultKind::Cryptomator => place_cm(alloc, folder, work, vault, &slot, front, name, random),
    }
}

// In gocryptfs a long name's file comes first, and then the folder with its key.
fn place_go<F: Folder, R: Randoms>(
    alloc: Global,
    folder: &mut F,
    work: &Work,
    vault: &Vault,
    slot: &Slot,
    front: &[Name],
    name: &Name,
    random: &mut R,
) -> Result<(), PutFault>
    requires kind { kind_of vault.now.vault ≡ VaultKind.Gocryptfs }
    requires named { IsTrue (is_name name.now) }
    requires may { MayMake (F.told folder.old) work.now vault.now.root }
    requires slot { IfSeen (F.told folder.old) (λ v. IsSlot vault.now (format_of vault.now.vault) front.now name.now (under vault.now.root v) slot.now.at slot.now.side slot.now.full) }
    ensures made { PlacesOne (placing vault.now work.now front.now name.now NewDirectory) (R.left random.old) (R.left random.new) (F.told folder.old) (F.told folder.new) result }
    ensures fault { IfErr result (λ fault. IsDirectoryFault fault) }
    ensures failed { result ≡ Err PutFault.Failed → CountRose (F.faults folder.old) (F.faults folder.new) }
    ensures random { result ≡ Err PutFault.Random → CountRose (R.faults random.old) (R.faults random.new) }
    ensures grows { F.faults folder.old ≤ F.faults folder.new }
    ensures counted { R.faults random.old ≤ R.faults random.new }
{
    edits_show_trees();
    roots_show_their_own();
    what_is_found_stands();
    items_keep_vaults();
    let wants = wants_side(alloc, folder, &slot.side, &slot.full)?;
    let key = draw_some(random)?;
    Ok(make_go(folder, work, vault, slot, wants, &key)?)
}

// In Cryptomator the content folder comes first, and then the entry with its id.
fn place_cm<F: Folder, R: Randoms>(
    alloc: Global,
    folder: &mut F,
    work: &Work,
    vault: &Vault,
    slot: &Slot,
    front: &[Name],
    name: &Name,
    random: &mut R,
) -> Result<(), PutFault>
    requires kind { kind_of vault.now.vault ≡ VaultKind.Cryptomator }
    requires named { IsTrue (is_name name.now) }
    requires may { MayMake (F.told folder.old) work.now vault.now.root }
    requires slot { IfSeen (F.told folder.old) (λ v. IsSlot vault.now (format_of vault.now.vault) front.now name.now (under vault.now.root v) slot.now.at slot.now.side slot.now.full) }
    ensures made { PlacesOne (placing vault.now work.now front.now name.now NewDirectory) (R.left random.old) (R.left random.new) (F.told folder.old) (F.told folder.new) result }
    ensures fault { IfErr result (λ fault. IsDirectoryFault fault) }
    ensures failed { result ≡ Err PutFault.Failed → CountRose (F.faults folder.old) (F.faults folder.new) }
    ensures random { result ≡ Err PutFault.Random → CountRose (R.faults random.old) (R.faults random.new) }
    ensures grows { F.faults folder.old ≤ F.faults folder.new }
    ensures counted { R.faults random.old ≤ R.faults random.new }
{
    edits_show_trees();
    roots_show_their_own();
    what_is_found_stands();
    items_keep_vaults();
    dir_ids_are_plain();
    contents_of_cryptomator_refuse_no_zeros();
    let text = draw_id(alloc, random)?;
    let id = text.as_bytes();
    let home = home_of(alloc, folder, vault, id)?;
    Ok(make_cm(folder, work, vault, slot, &home, id)?)
}

// Makes a directory of gocryptfs: the file of its long name first, where that is wanted.
fn make_go<F: Folder>(
    folder: &mut F,
    work: &Work,
    vault: &Vault,
    slot: &Slot,
    wants: bool,
    key: &[u8],
) -> Result<(), FolderFault>
    requires begun { HasBegun work.now vault.now.root (go_making wants slot.now.side slot.now.at slot.now.full key.now) (F.told folder.old) }
    requires places { IfSeen (F.told folder.old) (λ v. GoPlaces v work.now wants slot.now.side slot.now.at) }
    ensures made { DoesEdits work.now vault.now.root (go_making wants slot.now.side slot.now.at slot.now.full key.now) (F.told folder.old) (F.told folder.new) result }
    ensures counts { CountsAbove (F.faults folder.old) (F.faults folder.new) result }
{
    let none: Option<Text> = None;
    publish_side(folder, work, &slot.side, &slot.full, wants)?;
    publish_directory(folder, work, &slot.at, "gocryptfs.diriv", key, &none)?;
    folder.settle()
}

// Makes the folder above a new directory's folder, where it is wanted, so that the other has its place.
fn make_shelf<F: Folder>(
    folder: &mut F,
    shelf: &FPath,
    home: &FPath,
    wants: bool,
) -> Result<(), FolderFault>
    requires { IfSeen (F.told folder.old) (λ v. HomePlaces v wants shelf.now home.now) }
    ensures made { (work : Path) → AddsEdits None work (shelf_edits wants shelf.now) [] (F.told folder.old) (F.told folder.new) result }
    ensures home { OnOk result (IfSeen (F.told folder.new) (λ v. ShowsFree v home.now)) }
    ensures counts { CountsAbove (F.faults folder.old) (F.faults folder.new) result }
{
    if !wants {
        return Ok(());
    }
    make_folder(folder, shelf)
}

// Makes the folder of a new directory.
fn make_home<F: Folder>(
    folder: &mut F,
    shelf: &FPath,
    home: &FPath,
    wants: bool,
) -> Result<(), FolderFault>
    requires { IfSeen (F.told folder.old) (λ v. HomePlaces v wants shelf.now home.now) }
    ensures made { (work : Path) → AddsEdits None work (home_edits wants shelf.now home.now) [] (F.told folder.old) (F.told folder.new) result }
    ensures counts { CountsAbove (F.faults folder.old) (F.faults folder.new) result }
{
    make_shelf(folder, shelf, home, wants)?;
    make_folder(folder, home)
}

// Makes a directory of Cryptomator: its folders first, and then the entry with its id.
fn make_cm<F: Folder>(
    folder: &mut F,
    work: &Work,
    vault: &Vault,
    slot: &Slot,
    folders: &Home,
    id: &[u8],
) -> Result<(), FolderFault>
    requires begun { HasBegun work.now vault.now.root (cm_making folders.now.wants folders.now.shelf folders.now.home slot.now.at slot.now.full id.now) (F.told folder.old) }
    requires places { IfSeen (F.told folder.old) (λ v. CmPlaces v work.now folders.now.wants folders.now.shelf folders.now.home slot.now.at) }
    ensures made { DoesEdits work.now vault.now.root (cm_making folders.now.wants folders.now.shelf folders.now.home slot.now.at slot.now.full id.now) (F.told folder.old) (F.told folder.new) result }
    ensures counts { CountsAbove (F.faults folder.old) (F.faults folder.new) result }
{
    make_home(folder, &folders.shelf, &folders.home, folders.wants)?;
    publish_directory(folder, work, &slot.at, "dir.c9r", id, &slot.full)?;
    folder.settle()
}
