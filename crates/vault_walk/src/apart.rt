//! What is found outside of the folders of entries: at the root of a Cryptomator vault, in `d`, and in the folders there.
ghost use Rattle.std.specs.Prelude.{◌≡◌, Contains, IfOk};
ghost use Rattle.std.specs.List.{list_any};
ghost use Rattle.folder_spec.specs.Listing.{IsListing};
ghost use Rattle.folder_spec.specs.Path.{Path, child};
ghost use Rattle.folder_spec.specs.Seen.{IfSeen, under};
ghost use Rattle.folder_spec.specs.View as view;
ghost use Rattle.folder_spec.specs.View.{View, kind_found};
ghost use Rattle.folder_model.specs.Answers.{CountsAbove};
ghost use Rattle.vault_spec.specs.Cryptomator.{cm_role};
ghost use Rattle.vault_spec.specs.Vault.{format_of};
ghost use Rattle.vault_walk.specs.Apart.{AreFoundApart, AreFoundAt, AreReachedFolders, HaveRoles, HoldAll, HoldInShelves, HoldRoles, IsApartOf, IsLevelAt, is_more, loose_by, shelf_by};
ghost use Rattle.vault_walk.specs.Names.{role_of};

use crate::entries::entries_at;
use crate::found::Found;
use crate::names::{Role, TOP, is_fixed, root_role, shelf_role, top_role};
use crate::report::add_found;
use folder_model::{Entry, FPath, Folder, Kind};
use folder_spec::FolderFault;
use std::alloc::{AllocError, Global};
use std::collections::BTreeSet;
use vault_read::{Vault, VaultKind};
use vault_spec::Finding;

/// The folders outside of the folders of entries that are looked into.
#[derive(Clone, Copy)]
enum Level {
    Root,
    Top,
    Shelf,
}

/// What is for what, outside of the folders of entries.
#[derive(Drop)]
struct Place {
    at: FPath,
    role: Role,
}

// What is found outside of the folders of entries, of which these are reached.
pub(crate) fn found_apart<F: Folder>(
    alloc: Global,
    folder: &mut F,
    vault: &Vault,
    reached: &BTreeSet<FPath>,
) -> Result<Vec<Found>, FolderFault>
    ensures told { F.told folder.new ≡ F.told folder.old }
    ensures found { IfOk result (λ found. IfSeen (F.told folder.old) (λ v. AreReachedFolders (format_of vault.now.vault) (under vault.now.root v) reached.now
        → AreFoundApart (format_of vault.now.vault) (under vault.now.root v) found.items)) }
    ensures counts { CountsAbove (F.faults folder.old) (F.faults folder.new) result }
{
    match vault.kind() {
        VaultKind::Gocryptfs => Ok(Vec::new(alloc)),
        VaultKind::Cryptomator => {
            let places = places_of(alloc, folder, vault)?;
            let found = found_of(alloc, folder, vault, reached, places.as_slice())?;
            Ok(found)
        }
    }
}

// The places of a Cryptomator vault outside of its folders of entries.
fn places_of<F: Folder>(
    alloc: Global,
    folder: &mut F,
    vault: &Vault,
) -> Result<Vec<Place>, FolderFault>
    ensures told { F.told folder.new ≡ F.told folder.old }
    ensures roles { IfOk result (λ places. IfSeen (F.told folder.old) (λ v. HaveRoles (under vault.now.root v) places.items)) }
    ensures all { IfOk result (λ places. IfSeen (F.told folder.old) (λ v. HoldRoles (under vault.now.root v) places.items)) }
    ensures counts { CountsAbove (F.faults folder.old) (F.faults folder.new) result }
{
    let root = FPath::base(alloc);
    let top = root.child(TOP)?;
    let mut places = places_in(alloc, folder, vault, Level::Root, &root)?;
    let mut tops = places_in(alloc, folder, vault, Level::Top, &top)?;
    let mut shelved = in_shelves(alloc, folder, vault, tops.as_slice())?;
    places.append(&mut tops)?;
    places.append(&mut shelved)?;
    Ok(places)
}

// What stands in a folder.
fn places_in<F: Folder>(
    alloc: Global,
    folder: &mut F,
    vault: &Vault,
    level: Level,
    at: &FPath,
) -> Result<Vec<Place>, FolderFault>
    ensures told { F.told folder.new ≡ F.told folder.old }
    ensures roles { IfOk result (λ places. IfSeen (F.told folder.old) (λ v. IsLevelAt level at.now → HaveRoles (under vault.now.root v) places.items)) }
    ensures all { IfOk result (λ places. IfSeen (F.told folder.old) (λ v. HoldAll (under vault.now.root v) at.now places.items)) }
    ensures counts { CountsAbove (F.faults folder.old) (F.faults folder.new) result }
{
    let entries = entries_at(alloc, folder, vault.root(), at)?;
    let places = placed(alloc, level, at, entries.as_slice())?;
    Ok(places)
}

// These entries of a folder, each with what it is for.
fn placed(
    alloc: Global,
    level: Level,
    at: &FPath,
    entries: &[Entry],
) -> Result<Vec<Place>, AllocError>
    ensures roles { IfOk result (λ places. (v : View) → IsListing v at.now entries.now → IsLevelAt level at.now → HaveRoles v places.items) }
    ensures all { IfOk result (λ places. (v : View) → IsListing v at.now entries.now → HoldAll v at.now places.items) }
{
    let mut places = Vec::new(alloc);
    for entry in entries {
        let place = place_of(level, at, entry)?;
        places.push(place)?;
    }
    Ok(places)
}

// An entry of a folder, with what it is for.
fn place_of(level: Level, at: &FPath, entry: &Entry) -> Result<Place, AllocError>
    ensures at { IfOk result (λ place. place.at ≡ child at.now entry.now.name) }
    ensures role { IfOk result (λ place. (there : view.Found) → entry.now.kind ≡ kind_found there → IsLevelAt level at.now → role_of place.role ≡ cm_role (child at.now entry.now.name) there) }
{
    let name = entry.name.as_str();
    Ok(Place {
        at: at.child(name)?,
        role: role_in(level, name, entry.kind),
    })
}

// What an entry of a folder is for.
fn role_in(level: Level, name: &str, kind: Kind) -> Role
    ensures { (there : view.Found) → kind ≡ kind_found there → (at : Path) → IsLevelAt level at → role_of result ≡ cm_role (child at name.now) there }
{
    match level {
        Level::Root => root_role(name, kind),
        Level::Top => top_role(name, kind),
        Level::Shelf => shelf_role(name, kind),
    }
}

// What stands in those of these places that are folders of content folders.
fn in_shelves<F: Folder>(
    alloc: Global,
    folder: &mut F,
    vault: &Vault,
    tops: &[Place],
) -> Result<Vec<Place>, FolderFault>
    ensures told { F.told folder.new ≡ F.told folder.old }
    ensures roles { IfOk result (λ places. IfSeen (F.told folder.old) (λ v. HaveRoles (under vault.now.root v) tops.now → HaveRoles (under vault.now.root v) places.items)) }
    ensures all { IfOk result (λ places. IfSeen (F.told folder.old) (λ v. HoldInShelves (under vault.now.root v) tops.now places.items)) }
    ensures counts { CountsAbove (F.faults folder.old) (F.faults folder.new) result }
{
    let mut places = Vec::new(alloc);
    for shelf in tops {
        let mut more = in_shelf(alloc, folder, vault, shelf)?;
        places.append(&mut more)?;
    }
    Ok(places)
}

// What stands in a place, if it is a folder of content folders.
fn in_shelf<F: Folder>(
    alloc: Global,
    folder: &mut F,
    vault: &Vault,
    shelf: &Place,
) -> Result<Vec<Place>, FolderFault>
    ensures told { F.told folder.new ≡ F.told folder.old }
    ensures roles { IfOk result (λ places. IfSeen (F.told folder.old) (λ v. role_of shelf.now.role ≡ cm_role shelf.now.at (under vault.now.root v shelf.now.at) → HaveRoles (under vault.now.root v) places.items)) }
    ensures all { IfOk result (λ places. IfSeen (F.told folder.old) (λ v. shelf.now.role ≡ Role.Shelf → HoldAll (under vault.now.root v) shelf.now.at places.items)) }
    ensures counts { CountsAbove (F.faults folder.old) (F.faults folder.new) result }
{
    match shelf.role {
        Role::Shelf => {
            let places = places_in(alloc, folder, vault, Level::Shelf, &shelf.at)?;
            Ok(places)
        }
        _ => Ok(Vec::new(alloc)),
    }
}

// What is found at these places.
fn found_of<F: Folder>(
    alloc: Global,
    folder: &mut F,
    vault: &Vault,
    reached: &BTreeSet<FPath>,
    places: &[Place],
) -> Result<Vec<Found>, FolderFault>
    ensures told { F.told folder.new ≡ F.told folder.old }
    ensures found { IfOk result (λ found. IfSeen (F.told folder.old) (λ v. AreReachedFolders (format_of vault.now.vault) (under vault.now.root v) reached.now
        → ((place : Place) → Contains places.now place → role_of place.role ≡ (format_of vault.now.vault).role place.at (under vault.now.root v place.at))
        → AreFoundAt (format_of vault.now.vault) (under vault.now.root v) places.now found.items)) }
    ensures counts { CountsAbove (F.faults folder.old) (F.faults folder.new) result }
{
    let mut found = Vec::new(alloc);
    for place in places {
        let finding = finding_at(alloc, folder, vault, reached, &place.at, place.role)?;
        add_found(&mut found, &place.at, finding)?;
    }
    Ok(found)
}

// What is found at a place, by what it is for.
fn finding_at<F: Folder>(
    alloc: Global,
    folder: &mut F,
    vault: &Vault,
    reached: &BTreeSet<FPath>,
    at: &FPath,
    role: Role,
) -> Result<Option<Finding>, FolderFault>
    ensures told { F.told folder.new ≡ F.told folder.old }
    ensures finding { IfOk result (λ finding. IfSeen (F.told folder.old) (λ v. AreReachedFolders (format_of vault.now.vault) (under vault.now.root v) reached.now
        → role_of role ≡ (format_of vault.now.vault).role at.now (under vault.now.root v at.now) → IsApartOf (format_of vault.now.vault) (under vault.now.root v) at.now finding)) }
    ensures counts { CountsAbove (F.faults folder.old) (F.faults folder.new) result }
{
    match role {
        Role::Expected => Ok(None),
        Role::Extra => Ok(Some(Finding::ExtraEntry)),
        Role::Shelf => {
            let entries = entries_at(alloc, folder, vault.root(), at)?;
            Ok(shelf_finding(entries.as_slice()))
        }
        Role::ContentFolder => {
            if reached.contains(at) {
                return Ok(None);
            }
            let entries = entries_at(alloc, folder, vault.root(), at)?;
            let more = holds_more(vault.kind(), at, entries.as_slice());
            Ok(Some(loose_finding(more)))
        }
    }
}

// What a folder of content folders is that has these entries.
fn shelf_finding(entries: &[Entry]) -> Option<Finding>
    ensures { result ≡ shelf_by entries.now }
{
    if entries.is_empty() {
        Some(Finding::EmptyOrphan)
    } else {
        None
    }
}

// What a content folder is that isn't reached, by whether it holds more than the file that belongs there.
fn loose_finding(more: bool) -> Finding
    ensures { result ≡ loose_by more }
{
    if more {
        Finding::OrphanFolder
    } else {
        Finding::EmptyOrphan
    }
}

// Whether one of these entries isn't a file that belongs to a folder of entries.
fn holds_more(kind: VaultKind, at: &FPath, entries: &[Entry]) -> bool
    ensures { result ≡ list_any (is_more kind at.now) entries.now }
{
    entries.iter().any(|entry| is_more(kind, at, entry))
}

// Whether an entry isn't a file that belongs to a folder of entries.
fn is_more(kind: VaultKind, at: &FPath, entry: &Entry) -> bool
    ensures { result ≡ is_more kind at.now entry.now }
{
    match entry.kind {
        Kind::File => !is_fixed(kind, at, entry.name.as_str()),
        Kind::Missing => true,
        Kind::Dir => true,
        Kind::Other => true,
    }
}
