//! Making files, and replacing their contents.
ghost use Rattle.std.specs.Prelude.{◌≡◌, ◌≢◌, ◌⊎◌, ◌≤◌, ◌+◌, ◌∷◌, ◌++◌, [], None, Some, Option, List, ℕ, IsTrue, IfOk, IfErr, OnOk};
ghost use Rattle.folder_spec.specs.Event.{Told, Allowed, Rename};
ghost use Rattle.folder_model.specs.Answers.{CountsAbove};
ghost use Rattle.folder_spec.specs.Seen.{IfSeen, ShowsFree, under};
ghost use Rattle.plain_tree.specs.Names.{is_name};
ghost use Rattle.vault_read.specs.Opened.{FitsKey, kind_of};
ghost use Rattle.vault_spec.specs.Vault.{format_of};
ghost use Rattle.content_writing.specs.Content.{FitsContent, IsReady, TakesUpTo, still_coming};
ghost use Rattle.content_writing.specs.Writing.{Blames, ReadsApart};
ghost use Rattle.vault_write.specs.Calls.{IsAt, IsKept, MakesFile, New, InPlace, ReadsElsewhere, Writing, most_by};
ghost use Rattle.vault_write.specs.Editing.{GoPlaces, HasBegun};
ghost use Rattle.vault_write.specs.Faults.{IsFileFault};
ghost use Rattle.vault_write.specs.Filing.{StagesEntry, PlacesEntry, PlacesFile, PublishesEntry, MayReplace, ReplacesEntry, ReplacesContent, IsSlotOver, StandsAs, StandsUnder, IsAtDirectory, entry_making, file_of};
ghost use Rattle.item_making.specs.Placing.{MayMake};
ghost use Rattle.vault_spec.specs.Making.{Allows};
ghost use Rattle.vault_spec.specs.Standing.{standing};
ghost use Rattle.vault_write.specs.Slots.{IsSlot, CountsFailed};

use crate::kept::{Kept, kept_or_new};
use crate::laws::edits_show_trees;
use crate::slot::{Slot, is_free, kept_or_entered, slot_at, slot_over, taken, wants_side};
use crate::stage::{publish_side, stage_name, staged_entry};
use chunk_files::ContentKeys;
use chunk_files::laws::{encrypted_files_are_files, files_are_what_they_give};
use content_writing::{Buffers, Content, PutFault, write_content};
use folder_model::{FPath, Folder};
use folder_spec::FolderFault;
use folder_spec::laws::roots_show_their_own;
use folder_staging::begin_folder;
use folder_staging::laws::{staged_folders_are_seen, staged_folders_gain_files};
use plain_tree::{Name, NodeKind, PlainPath};
use port_model::Randoms;
use std::alloc::Global;
use vault_faults::FindFault;
use vault_read::laws::{files_have_their_contents, items_keep_vaults};
use vault_read::{DirPlace, Place, Vault, VaultKind, find};
use vault_spec::laws::what_is_found_stands;
use vault_values::Text;
use work_folder::Work;

/// Makes a new file at a plain path.
///
/// At every moment a crash leaves the old tree or the one with the file. The directory that is to have it is entered, then the name is
/// tested, and then its place. Its buffers are taken before anything is read.
pub fn place_file<F: Folder, R: Randoms, C: Content<F>>(
    alloc: Global,
    folder: &mut F,
    work: &Work,
    vault: &Vault,
    path: &PlainPath,
    content: &mut C,
    random: &mut R,
) -> Result<(), PutFault>
    requires may { MayMake (F.told folder.old) work.now vault.now.root }
    requires ready { IsReady (C.reads content.old) (F.told folder.old) (C.coming content.old) }
    requires elsewhere { ReadsElsewhere (C.reads content.old) work.now vault.now.root }
    ensures made { MakesFile New vault.now work.now path.now (still_coming (C.reads content.old) (F.told folder.old) (C.coming content.old)) (still_coming (C.reads content.old) (F.told folder.old) (C.coming content.new))
        (R.left random.old) (R.left random.new) (F.told folder.old) (F.told folder.new) result }
    ensures fault { IfErr result (λ fault. IsFileFault (C.reads content.old) fault) }
    ensures reads { C.reads content.new ≡ C.reads content.old }
    ensures room { C.room content.new ≤ C.room content.old }
    ensures taken { TakesUpTo (most_by result (C.room content.old + 1)) (C.left content.old) (C.left content.new) }
    ensures lender { C.lender content.new ≡ C.lender content.old }
    ensures failed { Blames result PutFault.Failed (F.faults folder.old) (F.faults folder.new) }
    ensures source { Blames result PutFault.Source (C.faults content.old) (C.faults content.new) }
    ensures random { Blames result PutFault.Random (R.faults random.old) (R.faults random.new) }
{
    let mut kept = Kept::new();
    place_file_keeping(alloc, folder, work, vault, &mut kept, path, content, random)
}

/// Makes a new file at a plain path as `place_file` does, and keeps the directory that has it, which isn't entered anew where it is the
/// one that was kept.
pub fn place_file_keeping<F: Folder, R: Randoms, C: Content<F>>(
    alloc: Global,
    folder: &mut F,
    work: &Work,
    vault: &Vault,
    kept: &mut Kept,
    path: &PlainPath,
    content: &mut C,
    random: &mut R,
) -> Result<(), PutFault>
    requires kept { IsKept vault.now (F.told folder.old) kept.old.dir }
    requires may { MayMake (F.told folder.old) work.now vault.now.root }
    requires ready { IsReady (C.reads content.old) (F.told folder.old) (C.coming content.old) }
    requires elsewhere { ReadsElsewhere (C.reads content.old) work.now vault.now.root }
    ensures made { MakesFile New vault.now work.now path.now (still_coming (C.reads content.old) (F.told folder.old) (C.coming content.old)) (still_coming (C.reads content.old) (F.told folder.old) (C.coming content.new))
        (R.left random.old) (R.left random.new) (F.told folder.old) (F.told folder.new) result }
    ensures kept { OnOk result (IsKept vault.now (F.told folder.new) kept.new.dir) }
    ensures fault { IfErr result (λ fault. IsFileFault (C.reads content.old) fault) }
    ensures reads { C.reads content.new ≡ C.reads content.old }
    ensures room { C.room content.new ≤ C.room content.old }
    ensures taken { TakesUpTo (most_by result (C.room content.old + 1)) (C.left content.old) (C.left content.new) }
    ensures lender { C.lender content.new ≡ C.lender content.old }
    ensures failed { Blames result PutFault.Failed (F.faults folder.old) (F.faults folder.new) }
    ensures source { Blames result PutFault.Source (C.faults content.old) (C.faults content.new) }
    ensures random { Blames result PutFault.Random (R.faults random.old) (R.faults random.new) }
{
    match path.names() {
        [] => Err(taken(vault.root())),
        [front @ .., name] => {
            place_named(
                alloc, folder, work, vault, kept, path, front, name, content, random,
            )
        }
    }
}

/// Replaces the content of a file that stands at a plain path, and makes a new file where no item stands.
///
/// At every moment a crash leaves the old tree or the one with the content. The directory that is to have the file is entered, then the
/// name is tested, and then what stands under it.
pub fn put<F: Folder, R: Randoms, C: Content<F>>(
    alloc: Global,
    folder: &mut F,
    work: &Work,
    vault: &Vault,
    path: &PlainPath,
    content: &mut C,
    random: &mut R,
) -> Result<(), PutFault>
    requires may { MayMake (F.told folder.old) work.now vault.now.root }
    requires ready { IsReady (C.reads content.old) (F.told folder.old) (C.coming content.old) }
    requires elsewhere { ReadsElsewhere (C.reads content.old) work.now vault.now.root }
    ensures made { MakesFile InPlace vault.now work.now path.now (still_coming (C.reads content.old) (F.told folder.old) (C.coming content.old)) (still_coming (C.reads content.old) (F.told folder.old) (C.coming content.new))
        (R.left random.old) (R.left random.new) (F.told folder.old) (F.told folder.new) result }
    ensures fault { IfErr result (λ fault. IsFileFault (C.reads content.old) fault) }
    ensures reads { C.reads content.new ≡ C.reads content.old }
    ensures room { C.room content.new ≤ C.room content.old }
    ensures taken { TakesUpTo (most_by result (C.room content.old + 1)) (C.left content.old) (C.left content.new) }
    ensures lender { C.lender content.new ≡ C.lender content.old }
    ensures failed { Blames result PutFault.Failed (F.faults folder.old) (F.faults folder.new) }
    ensures source { Blames result PutFault.Source (C.faults content.old) (C.faults content.new) }
    ensures random { Blames result PutFault.Random (R.faults random.old) (R.faults random.new) }
{
    match path.names() {
        [] => Err(wrong_kind(path)),
        [front @ .., name] => {
            put_named(
                alloc, folder, work, vault, path, front, name, content, random,
            )
        }
    }
}

// A directory stands at a path.
fn wrong_kind(path: &PlainPath) -> PutFault
    ensures { (result ≡ PutFault.NoMemory) ⊎ (result ≡ PutFault.Find (FindFault.WrongKind path.now)) }
{
    match path.copy() {
        Ok(path) => PutFault::Find(FindFault::WrongKind(path)),
        Err(_) => PutFault::NoMemory,
    }
}

// Puts a content under a name in the directory at the front of a path.
fn put_named<F: Folder, R: Randoms, C: Content<F>>(
    alloc: Global,
    folder: &mut F,
    work: &Work,
    vault: &Vault,
    path: &PlainPath,
    front: &[Name],
    name: &Name,
    content: &mut C,
    random: &mut R,
) -> Result<(), PutFault>
    requires path { path.now ≡ front.now ++ name.now ∷ [] }
    requires may { MayMake (F.told folder.old) work.now vault.now.root }
    requires ready { IsReady (C.reads content.old) (F.told folder.old) (C.coming content.old) }
    requires elsewhere { ReadsElsewhere (C.reads content.old) work.now vault.now.root }
    ensures made { PlacesFile InPlace vault.now work.now front.now name.now (still_coming (C.reads content.old) (F.told folder.old) (C.coming content.old)) (still_coming (C.reads content.old) (F.told folder.old) (C.coming content.new))
        (R.left random.old) (R.left random.new) (F.told folder.old) (F.told folder.new) result }
    ensures fault { IfErr result (λ fault. IsFileFault (C.reads content.old) fault) }
    ensures reads { C.reads content.new ≡ C.reads content.old }
    ensures room { C.room content.new ≤ C.room content.old }
    ensures taken { TakesUpTo (most_by result (C.room content.old + 1)) (C.left content.old) (C.left content.new) }
    ensures lender { C.lender content.new ≡ C.lender content.old }
    ensures failed { Blames result PutFault.Failed (F.faults folder.old) (F.faults folder.new) }
    ensures source { Blames result PutFault.Source (C.faults content.old) (C.faults content.new) }
    ensures random { Blames result PutFault.Random (R.faults random.old) (R.faults random.new) }
{
    what_is_found_stands();
    let slot = slot_over(alloc, folder, vault, path, front, name)?;
    let _named = name.bytes();
    match standing_file(alloc, folder, vault, path)? {
        Some(at) => replace(
            alloc, folder, work, vault, &at, front, name, content, random,
        ),
        None => place_over(
            alloc, folder, work, vault, &slot, front, name, content, random,
        ),
    }
}

// The content file of the file that stands at a path, or none where no item stands.
fn standing_file<F: Folder>(
    alloc: Global,
    folder: &mut F,
    vault: &Vault,
    path: &PlainPath,
) -> Result<Option<FPath>, PutFault>
    ensures told { F.told folder.new ≡ F.told folder.old }
    ensures file { IfOk result (λ file. IfSeen (F.told folder.old) (λ v. StandsAs vault.now.root (standing (format_of vault.now.vault) (under vault.now.root v) path.now) file)) }
    ensures fault { IfErr result (λ fault. IsAtDirectory vault.now path.now (F.told folder.old) fault) }
    ensures counts { CountsFailed PutFault.Failed (F.faults folder.old) (F.faults folder.new) result }
{
    what_is_found_stands();
    match find(alloc, folder, vault, path) {
        Ok(place) => Ok(Some(content_file(path, place)?)),
        Err(fault) => {
            unless_failed(fault)?;
            Ok(None)
        }
    }
}

// The content file at a place, which a directory hasn't.
fn content_file(path: &PlainPath, place: Place) -> Result<FPath, PutFault>
    ensures file { IfOk result (λ at. (place.node ≡ NodeKind.File) × (at ≡ place.at)) }
    ensures directory { IfErr result (λ fault. (fault ≡ PutFault.NoMemory) ⊎ ((fault ≡ PutFault.Find (FindFault.WrongKind path.now)) × (place.node ≡ NodeKind.Dir))) }
{
    match place.node {
        NodeKind::File => Ok(place.at),
        NodeKind::Dir => Err(PutFault::Find(FindFault::WrongKind(path.copy()?))),
    }
}

// Looking for a path was refused, where neither the folder nor memory failed.
fn unless_failed(fault: FindFault) -> Result<(), PutFault>
    ensures refused { OnOk result ((fault ≢ FindFault.Failed) × (fault ≢ FindFault.NoMemory)) }
    ensures failed { IfErr result (λ told. ((told ≡ PutFault.Failed) × (fault ≡ FindFault.Failed)) ⊎ (told ≡ PutFault.NoMemory)) }
{
    match fault {
        FindFault::Failed => Err(PutFault::Failed),
        FindFault::NoMemory => Err(PutFault::NoMemory),
        _ => Ok(()),
    }
}

// Puts a new content in the place of the content file of a file that stands.
fn replace<F: Folder, R: Randoms, C: Content<F>>(
    alloc: Global,
    folder: &mut F,
    work: &Work,
    vault: &Vault,
    at: &FPath,
    front: &[Name],
    name: &Name,
    content: &mut C,
    random: &mut R,
) -> Result<(), PutFault>
    requires may { MayMake (F.told folder.old) work.now vault.now.root }
    requires allowed { Allows (format_of vault.now.vault) name.now }
    requires stands { StandsUnder vault.now front.now name.now (F.told folder.old) at.now }
    requires ready { IsReady (C.reads content.old) (F.told folder.old) (C.coming content.old) }
    requires elsewhere { ReadsElsewhere (C.reads content.old) work.now vault.now.root }
    ensures made { PlacesFile InPlace vault.now work.now front.now name.now (still_coming (C.reads content.old) (F.told folder.old) (C.coming content.old)) (still_coming (C.reads content.old) (F.told folder.old) (C.coming content.new))
        (R.left random.old) (R.left random.new) (F.told folder.old) (F.told folder.new) result }
    ensures fault { IfErr result (λ fault. IsFileFault (C.reads content.old) fault) }
    ensures reads { C.reads content.new ≡ C.reads content.old }
    ensures room { C.room content.new ≤ C.room content.old }
    ensures taken { TakesUpTo (most_by result (C.room content.old + 1)) (C.left content.old) (C.left content.new) }
    ensures lender { C.lender content.new ≡ C.lender content.old }
    ensures failed { Blames result PutFault.Failed (F.faults folder.old) (F.faults folder.new) }
    ensures source { Blames result PutFault.Source (C.faults content.old) (C.faults content.new) }
    ensures random { Blames result PutFault.Random (R.faults random.old) (R.faults random.new) }
{
    edits_show_trees();
    roots_show_their_own();
    items_keep_vaults();
    files_have_their_contents();
    files_are_what_they_give();
    encrypted_files_are_files();
    let mut buffers = Buffers::new(alloc, vault.content_keys())?;
    replace_entry(folder, work, vault, at, content, random, &mut buffers)
}

// Stages a content, and puts it in the place of a content file.
fn replace_entry<F: Folder, R: Randoms, C: Content<F>>(
    folder: &mut F,
    work: &Work,
    vault: &Vault,
    at: &FPath,
    content: &mut C,
    random: &mut R,
    buffers: &mut Buffers,
) -> Result<(), PutFault>
    requires may { (a : Told) → F.told folder.old ≡ Some a → MayReplace work.now vault.now.root at.now a }
    requires ready { IsReady (C.reads content.old) (F.told folder.old) (C.coming content.old) }
    requires outside { ReadsApart (C.reads content.old) work.now }
    ensures made { ReplacesContent (format_of vault.now.vault).content work.now vault.now.root at.now (still_coming (C.reads content.old) (F.told folder.old) (C.coming content.old)) (still_coming (C.reads content.old) (F.told folder.old) (C.coming content.new))
        (R.left random.old) (R.left random.new) (F.told folder.old) (F.told folder.new) result }
    ensures fits { IfErr result (λ fault. FitsContent (C.reads content.old) fault) }
    ensures reads { C.reads content.new ≡ C.reads content.old }
    ensures room { C.room content.new ≤ C.room content.old }
    ensures taken { TakesUpTo (C.room content.old + 1) (C.left content.old) (C.left content.new) }
    ensures lender { C.lender content.new ≡ C.lender content.old }
    ensures failed { Blames result PutFault.Failed (F.faults folder.old) (F.faults folder.new) }
    ensures source { Blames result PutFault.Source (C.faults content.old) (C.faults content.new) }
    ensures random { Blames result PutFault.Random (R.faults random.old) (R.faults random.new) }
{
    let inside: Option<Text> = None;
    let staged = staged_entry(work)?;
    stage_entry(
        folder,
        &staged,
        vault.content_keys(),
        &inside,
        content,
        random,
        buffers,
    )?;
    Ok(publish_entry(folder, &staged, at)?)
}

// Makes a new file where no item stands.
fn place_over<F: Folder, R: Randoms, C: Content<F>>(
    alloc: Global,
    folder: &mut F,
    work: &Work,
    vault: &Vault,
    slot: &Slot,
    front: &[Name],
    name: &Name,
    content: &mut C,
    random: &mut R,
) -> Result<(), PutFault>
    requires named { IsTrue (is_name name.now) }
    requires may { MayMake (F.told folder.old) work.now vault.now.root }
    requires slot { IsSlotOver vault.now front.now name.now (F.told folder.old) slot.now.at slot.now.side slot.now.full }
    requires ready { IsReady (C.reads content.old) (F.told folder.old) (C.coming content.old) }
    requires elsewhere { ReadsElsewhere (C.reads content.old) work.now vault.now.root }
    ensures made { PlacesFile New vault.now work.now front.now name.now (still_coming (C.reads content.old) (F.told folder.old) (C.coming content.old)) (still_coming (C.reads content.old) (F.told folder.old) (C.coming content.new))
        (R.left random.old) (R.left random.new) (F.told folder.old) (F.told folder.new) result }
    ensures fault { IfErr result (λ fault. IsFileFault (C.reads content.old) fault) }
    ensures reads { C.reads content.new ≡ C.reads content.old }
    ensures room { C.room content.new ≤ C.room content.old }
    ensures taken { TakesUpTo (most_by result (C.room content.old + 1)) (C.left content.old) (C.left content.new) }
    ensures lender { C.lender content.new ≡ C.lender content.old }
    ensures failed { Blames result PutFault.Failed (F.faults folder.old) (F.faults folder.new) }
    ensures source { Blames result PutFault.Source (C.faults content.old) (C.faults content.new) }
    ensures random { Blames result PutFault.Random (R.faults random.old) (R.faults random.new) }
{
    is_free(folder, &slot.at)?;
    let mut buffers: Option<Buffers> = None;
    place_in(
        alloc,
        folder,
        work,
        vault,
        slot,
        front,
        name,
        content,
        random,
        &mut buffers,
    )
}

// Makes a new file under a name in the directory at the front of a path, which is kept.
fn place_named<F: Folder, R: Randoms, C: Content<F>>(
    alloc: Global,
    folder: &mut F,
    work: &Work,
    vault: &Vault,
    kept: &mut Kept,
    path: &PlainPath,
    front: &[Name],
    name: &Name,
    content: &mut C,
    random: &mut R,
) -> Result<(), PutFault>
    requires path { path.now ≡ front.now ++ name.now ∷ [] }
    requires kept { IsKept vault.now (F.told folder.old) kept.old.dir }
    requires may { MayMake (F.told folder.old) work.now vault.now.root }
    requires ready { IsReady (C.reads content.old) (F.told folder.old) (C.coming content.old) }
    requires elsewhere { ReadsElsewhere (C.reads content.old) work.now vault.now.root }
    ensures made { PlacesFile New vault.now work.now front.now name.now (still_coming (C.reads content.old) (F.told folder.old) (C.coming content.old)) (still_coming (C.reads content.old) (F.told folder.old) (C.coming content.new))
        (R.left random.old) (R.left random.new) (F.told folder.old) (F.told folder.new) result }
    ensures kept { OnOk result (IsKept vault.now (F.told folder.new) kept.new.dir) }
    ensures fault { IfErr result (λ fault. IsFileFault (C.reads content.old) fault) }
    ensures reads { C.reads content.new ≡ C.reads content.old }
    ensures room { C.room content.new ≤ C.room content.old }
    ensures taken { TakesUpTo (most_by result (C.room content.old + 1)) (C.left content.old) (C.left content.new) }
    ensures lender { C.lender content.new ≡ C.lender content.old }
    ensures failed { Blames result PutFault.Failed (F.faults folder.old) (F.faults folder.new) }
    ensures source { Blames result PutFault.Source (C.faults content.old) (C.faults content.new) }
    ensures random { Blames result PutFault.Random (R.faults random.old) (R.faults random.new) }
{
    let here = kept_or_entered(alloc, folder, vault, front, kept.dir.take())?;
    let result = place_under(
        alloc,
        folder,
        work,
        vault,
        &here.dir,
        path,
        front,
        name,
        content,
        random,
        &mut kept.buffers,
    );
    kept.dir = Some(here);
    result
}

// Makes a new file under a name in a directory that is entered, which is that at the front of a path.
fn place_under<F: Folder, R: Randoms, C: Content<F>>(
    alloc: Global,
    folder: &mut F,
    work: &Work,
    vault: &Vault,
    dir: &DirPlace,
    path: &PlainPath,
    front: &[Name],
    name: &Name,
    content: &mut C,
    random: &mut R,
    buffers: &mut Option<Buffers>,
) -> Result<(), PutFault>
    requires path { path.now ≡ front.now ++ name.now ∷ [] }
    requires key { FitsKey vault.now.vault dir.now.key }
    requires dir { IsAt vault.now front.now dir.now (F.told folder.old) }
    requires may { MayMake (F.told folder.old) work.now vault.now.root }
    requires ready { IsReady (C.reads content.old) (F.told folder.old) (C.coming content.old) }
    requires elsewhere { ReadsElsewhere (C.reads content.old) work.now vault.now.root }
    ensures made { PlacesFile New vault.now work.now front.now name.now (still_coming (C.reads content.old) (F.told folder.old) (C.coming content.old)) (still_coming (C.reads content.old) (F.told folder.old) (C.coming content.new))
        (R.left random.old) (R.left random.new) (F.told folder.old) (F.told folder.new) result }
    ensures fault { IfErr result (λ fault. IsFileFault (C.reads content.old) fault) }
    ensures reads { C.reads content.new ≡ C.reads content.old }
    ensures room { C.room content.new ≤ C.room content.old }
    ensures taken { TakesUpTo (most_by result (C.room content.old + 1)) (C.left content.old) (C.left content.new) }
    ensures lender { C.lender content.new ≡ C.lender content.old }
    ensures failed { Blames result PutFault.Failed (F.faults folder.old) (F.faults folder.new) }
    ensures source { Blames result PutFault.Source (C.faults content.old) (C.faults content.new) }
    ensures random { Blames result PutFault.Random (R.faults random.old) (R.faults random.new) }
{
    let slot = slot_at(alloc, folder, vault, dir, path, front, name)?;
    let _named = name.bytes();
    place_in(
        alloc, folder, work, vault, &slot, front, name, content, random, buffers,
    )
}

// Makes a new file where nothing stands. The buffers are kept.
fn place_in<F: Folder, R: Randoms, C: Content<F>>(
    alloc: Global,
    folder: &mut F,
    work: &Work,
    vault: &Vault,
    slot: &Slot,
    front: &[Name],
    name: &Name,
    content: &mut C,
    random: &mut R,
    kept: &mut Option<Buffers>,
) -> Result<(), PutFault>
    requires named { IsTrue (is_name name.now) }
    requires may { MayMake (F.told folder.old) work.now vault.now.root }
    requires slot { IfSeen (F.told folder.old) (λ v. IsSlot vault.now (format_of vault.now.vault) front.now name.now (under vault.now.root v) slot.now.at slot.now.side slot.now.full) }
    requires ready { IsReady (C.reads content.old) (F.told folder.old) (C.coming content.old) }
    requires elsewhere { ReadsElsewhere (C.reads content.old) work.now vault.now.root }
    ensures made { PlacesFile New vault.now work.now front.now name.now (still_coming (C.reads content.old) (F.told folder.old) (C.coming content.old)) (still_coming (C.reads content.old) (F.told folder.old) (C.coming content.new))
        (R.left random.old) (R.left random.new) (F.told folder.old) (F.told folder.new) result }
    ensures fault { IfErr result (λ fault. IsFileFault (C.reads content.old) fault) }
    ensures reads { C.reads content.new ≡ C.reads content.old }
    ensures room { C.room content.new ≤ C.room content.old }
    ensures taken { TakesUpTo (most_by result (C.room content.old + 1)) (C.left content.old) (C.left content.new) }
    ensures lender { C.lender content.new ≡ C.lender content.old }
    ensures failed { Blames result PutFault.Failed (F.faults folder.old) (F.faults folder.new) }
    ensures source { Blames result PutFault.Source (C.faults content.old) (C.faults content.new) }
    ensures random { Blames result PutFault.Random (R.faults random.old) (R.faults random.new) }
{
    let mut buffers = kept_or_new(alloc, vault, kept.take())?;
    let result = match vault.kind() {
        VaultKind::Gocryptfs => place_go(
            alloc,
            folder,
            work,
            vault,
            slot,
            front,
            name,
            content,
            random,
            &mut buffers,
        ),
        VaultKind::Cryptomator => place_cm(
            folder,
            work,
            vault,
            slot,
            front,
            name,
            content,
            random,
            &mut buffers,
        ),
    };
    *kept = Some(buffers);
    result
}

// In gocryptfs a long name's file comes to its place first, and then the content file, once that is staged whole.
fn place_go<F: Folder, R: Randoms, C: Content<F>>(
    alloc: Global,
    folder: &mut F,
    work: &Work,
    vault: &Vault,
    slot: &Slot,
    front: &[Name],
    name: &Name,
    content: &mut C,
    random: &mut R,
    buffers: &mut Buffers,
) -> Result<(), PutFault>
    requires kind { kind_of vault.now.vault ≡ VaultKind.Gocryptfs }
    requires named { IsTrue (is_name name.now) }
    requires may { MayMake (F.told folder.old) work.now vault.now.root }
    requires slot { IfSeen (F.told folder.old) (λ v. IsSlot vault.now (format_of vault.now.vault) front.now name.now (under vault.now.root v) slot.now.at slot.now.side slot.now.full) }
    requires ready { IsReady (C.reads content.old) (F.told folder.old) (C.coming content.old) }
    requires elsewhere { ReadsElsewhere (C.reads content.old) work.now vault.now.root }
    ensures made { PlacesFile New vault.now work.now front.now name.now (still_coming (C.reads content.old) (F.told folder.old) (C.coming content.old)) (still_coming (C.reads content.old) (F.told folder.old) (C.coming content.new))
        (R.left random.old) (R.left random.new) (F.told folder.old) (F.told folder.new) result }
    ensures fault { IfErr result (λ fault. IsFileFault (C.reads content.old) fault) }
    ensures reads { C.reads content.new ≡ C.reads content.old }
    ensures room { C.room content.new ≤ C.room content.old }
    ensures taken { TakesUpTo (most_by result (C.room content.old + 1)) (C.left content.old) (C.left content.new) }
    ensures lender { C.lender content.new ≡ C.lender content.old }
    ensures failed { Blames result PutFault.Failed (F.faults folder.old) (F.faults folder.new) }
    ensures source { Blames result PutFault.Source (C.faults content.old) (C.faults content.new) }
    ensures random { Blames result PutFault.Random (R.faults random.old) (R.faults random.new) }
{
    edits_show_trees();
    roots_show_their_own();
    what_is_found_stands();
    items_keep_vaults();
    files_are_what_they_give();
    encrypted_files_are_files();
    let none: Option<Text> = None;
    let wants = wants_side(alloc, folder, &slot.side, &slot.full)?;
    place_entry(
        folder, work, vault, slot, &none, &slot.full, wants, content, random, buffers,
    )
}

// In Cryptomator the content file comes alone, or in a folder with the text of its long name.
fn place_cm<F: Folder, R: Randoms, C: Content<F>>(
    folder: &mut F,
    work: &Work,
    vault: &Vault,
    slot: &Slot,
    front: &[Name],
    name: &Name,
    content: &mut C,
    random: &mut R,
    buffers: &mut Buffers,
) -> Result<(), PutFault>
    requires kind { kind_of vault.now.vault ≡ VaultKind.Cryptomator }
    requires named { IsTrue (is_name name.now) }
    requires may { MayMake (F.told folder.old) work.now vault.now.root }
    requires slot { IfSeen (F.told folder.old) (λ v. IsSlot vault.now (format_of vault.now.vault) front.now name.now (under vault.now.root v) slot.now.at slot.now.side slot.now.full) }
    requires ready { IsReady (C.reads content.old) (F.told folder.old) (C.coming content.old) }
    requires elsewhere { ReadsElsewhere (C.reads content.old) work.now vault.now.root }
    ensures made { PlacesFile New vault.now work.now front.now name.now (still_coming (C.reads content.old) (F.told folder.old) (C.coming content.old)) (still_coming (C.reads content.old) (F.told folder.old) (C.coming content.new))
        (R.left random.old) (R.left random.new) (F.told folder.old) (F.told folder.new) result }
    ensures fault { IfErr result (λ fault. IsFileFault (C.reads content.old) fault) }
    ensures reads { C.reads content.new ≡ C.reads content.old }
    ensures room { C.room content.new ≤ C.room content.old }
    ensures taken { TakesUpTo (most_by result (C.room content.old + 1)) (C.left content.old) (C.left content.new) }
    ensures lender { C.lender content.new ≡ C.lender content.old }
    ensures failed { Blames result PutFault.Failed (F.faults folder.old) (F.faults folder.new) }
    ensures source { Blames result PutFault.Source (C.faults content.old) (C.faults content.new) }
    ensures random { Blames result PutFault.Random (R.faults random.old) (R.faults random.new) }
{
    edits_show_trees();
    roots_show_their_own();
    what_is_found_stands();
    items_keep_vaults();
    files_are_what_they_give();
    encrypted_files_are_files();
    let none: Option<Text> = None;
    place_entry(
        folder, work, vault, slot, &slot.full, &none, false, content, random, buffers,
    )
}

// Stages the entry of a content, and puts it in its place so that it lasts, behind the text of a long name beside it where that is
// wanted. Nothing comes to a place before the content has come whole.
fn place_entry<F: Folder, R: Randoms, C: Content<F>>(
    folder: &mut F,
    work: &Work,
    vault: &Vault,
    slot: &Slot,
    inside: &Option<Text>,
    beside: &Option<Text>,
    wants: bool,
    content: &mut C,
    random: &mut R,
    buffers: &mut Buffers,
) -> Result<(), PutFault>
    requires begun { (w : Writing) → HasBegun work.now vault.now.root (entry_making wants slot.now.side slot.now.at beside.now inside.now (file_of (format_of vault.now.vault).content w)) (F.told folder.old) }
    requires places { IfSeen (F.told folder.old) (λ v. GoPlaces v work.now wants slot.now.side slot.now.at) }
    requires ready { IsReady (C.reads content.old) (F.told folder.old) (C.coming content.old) }
    requires outside { ReadsApart (C.reads content.old) work.now }
    ensures made { PlacesEntry (format_of vault.now.vault).content work.now vault.now.root inside.now (entry_making wants slot.now.side slot.now.at beside.now inside.now) (still_coming (C.reads content.old) (F.told folder.old) (C.coming content.old)) (still_coming (C.reads content.old) (F.told folder.old) (C.coming content.new))
        (R.left random.old) (R.left random.new) (F.told folder.old) (F.told folder.new) result }
    ensures fits { IfErr result (λ fault. FitsContent (C.reads content.old) fault) }
    ensures reads { C.reads content.new ≡ C.reads content.old }
    ensures room { C.room content.new ≤ C.room content.old }
    ensures taken { TakesUpTo (C.room content.old + 1) (C.left content.old) (C.left content.new) }
    ensures lender { C.lender content.new ≡ C.lender content.old }
    ensures failed { Blames result PutFault.Failed (F.faults folder.old) (F.faults folder.new) }
    ensures source { Blames result PutFault.Source (C.faults content.old) (C.faults content.new) }
    ensures random { Blames result PutFault.Random (R.faults random.old) (R.faults random.new) }
{
    let entry = staged_entry(work)?;
    stage_entry(
        folder,
        &entry,
        vault.content_keys(),
        inside,
        content,
        random,
        buffers,
    )?;
    publish_side(folder, work, &slot.side, beside, wants)?;
    Ok(publish_entry(folder, &entry, &slot.at)?)
}

// Puts what was staged at its place, so that it lasts.
fn publish_entry<F: Folder>(folder: &mut F, staged: &FPath, at: &FPath) -> Result<(), FolderFault>
    requires { (a : Told) → F.told folder.old ≡ Some a → Allowed a.state (Rename staged.now at.now) }
    ensures published { PublishesEntry staged.now at.now (F.told folder.old) (F.told folder.new) result }
    ensures replaced { ReplacesEntry staged.now at.now (F.told folder.old) (F.told folder.new) result }
    ensures counts { CountsAbove (F.faults folder.old) (F.faults folder.new) result }
{
    folder.rename(staged, at)?;
    folder.settle()
}

// Stages the entry of a content: its file, or a folder with that and the text of a long name.
fn stage_entry<F: Folder, R: Randoms, C: Content<F>>(
    folder: &mut F,
    staged: &FPath,
    keys: ContentKeys,
    inside: &Option<Text>,
    content: &mut C,
    random: &mut R,
    buffers: &mut Buffers,
) -> Result<(), PutFault>
    requires free { IfSeen (F.told folder.old) (λ v. ShowsFree v staged.now) }
    requires below_base { staged.now ≢ [] }
    requires ready { IsReady (C.reads content.old) (F.told folder.old) (C.coming content.old) }
    requires apart { ReadsApart (C.reads content.old) staged.now }
    ensures staged { StagesEntry keys inside.now staged.now (still_coming (C.reads content.old) (F.told folder.old) (C.coming content.old)) (still_coming (C.reads content.old) (F.told folder.old) (C.coming content.new))
        (R.left random.old) (R.left random.new) (F.told folder.old) (F.told folder.new) result }
    ensures fits { IfErr result (λ fault. FitsContent (C.reads content.old) fault) }
    ensures reads { C.reads content.new ≡ C.reads content.old }
    ensures room { C.room content.new ≤ C.room content.old }
    ensures taken { TakesUpTo (C.room content.old + 1) (C.left content.old) (C.left content.new) }
    ensures lender { C.lender content.new ≡ C.lender content.old }
    ensures failed { Blames result PutFault.Failed (F.faults folder.old) (F.faults folder.new) }
    ensures source { Blames result PutFault.Source (C.faults content.old) (C.faults content.new) }
    ensures random { Blames result PutFault.Random (R.faults random.old) (R.faults random.new) }
{
    match inside {
        None => write_content(folder, staged, keys, content, random, buffers),
        Some(_) => stage_folder(folder, staged, keys, inside, content, random, buffers),
    }
}

// Stages a folder with a content file and the text of a long name.
fn stage_folder<F: Folder, R: Randoms, C: Content<F>>(
    folder: &mut F,
    staged: &FPath,
    keys: ContentKeys,
    full: &Option<Text>,
    content: &mut C,
    random: &mut R,
    buffers: &mut Buffers,
) -> Result<(), PutFault>
    requires long { (text : List ℕ) × (full.now ≡ Some text) }
    requires free { IfSeen (F.told folder.old) (λ v. ShowsFree v staged.now) }
    requires ready { IsReady (C.reads content.old) (F.told folder.old) (C.coming content.old) }
    requires apart { ReadsApart (C.reads content.old) staged.now }
    ensures staged { StagesEntry keys full.now staged.now (still_coming (C.reads content.old) (F.told folder.old) (C.coming content.old)) (still_coming (C.reads content.old) (F.told folder.old) (C.coming content.new))
        (R.left random.old) (R.left random.new) (F.told folder.old) (F.told folder.new) result }
    ensures fits { IfErr result (λ fault. FitsContent (C.reads content.old) fault) }
    ensures reads { C.reads content.new ≡ C.reads content.old }
    ensures room { C.room content.new ≤ C.room content.old }
    ensures taken { TakesUpTo (C.room content.old + 1) (C.left content.old) (C.left content.new) }
    ensures lender { C.lender content.new ≡ C.lender content.old }
    ensures failed { Blames result PutFault.Failed (F.faults folder.old) (F.faults folder.new) }
    ensures source { Blames result PutFault.Source (C.faults content.old) (C.faults content.new) }
    ensures random { Blames result PutFault.Random (R.faults random.old) (R.faults random.new) }
{
    staged_folders_gain_files();
    staged_folders_are_seen();
    begin_folder(folder, staged)?;
    let file = staged.child("contents.c9r")?;
    write_content(folder, &file, keys, content, random, buffers)?;
    Ok(stage_name(folder, staged, full)?)
}
