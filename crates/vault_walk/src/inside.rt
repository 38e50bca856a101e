//! What is in an item's own folder and has no place there.
ghost use Rattle.std.specs.Prelude.{◌≡◌, ◌++◌, IfOk, OnOk};
ghost use Rattle.folder_spec.specs.Listing.{IsListing};
ghost use Rattle.folder_spec.specs.Path.{child};
ghost use Rattle.folder_spec.specs.Seen.{IfSeen, under};
ghost use Rattle.folder_spec.specs.View.{View, kind_found};
ghost use Rattle.folder_model.specs.Answers.{CountsAbove};
ghost use Rattle.vault_read.specs.Items.{item_of};
ghost use Rattle.vault_spec.specs.Vault.{format_of};
ghost use Rattle.vault_spec.specs.Cryptomator.{inner_role};
ghost use Rattle.vault_walk.specs.Extras.{extra_at, extras};
ghost use Rattle.vault_walk.specs.Names.{role_of};
ghost use Rattle.vault_walk.specs.Report.{AreInside};

use crate::entries::entries_of_kind;
use crate::found::Found;
use crate::names::{Role, inner_role};
use folder_model::{Entry, FPath, Folder, Kind};
use folder_spec::FolderFault;
use std::alloc::{AllocError, Global};
use vault_read::{EntryItem, Vault, VaultKind};

// What an item's own folder holds beside what belongs there, by the kind of what stands at the entry and by whether its name
// is long.
pub(crate) fn found_inside<F: Folder>(
    alloc: Global,
    folder: &mut F,
    vault: &Vault,
    at: &FPath,
    kind: Kind,
    long: bool,
    item: EntryItem,
) -> Result<Vec<Found>, FolderFault>
    requires { IfSeen (F.told folder.old) (λ v. kind ≡ kind_found (under vault.now.root v at.now)) }
    ensures told { F.told folder.new ≡ F.told folder.old }
    ensures found { IfOk result (λ found. IfSeen (F.told folder.old) (λ v. AreInside (format_of vault.now.vault) (under vault.now.root v) at.now long (item_of item) found.items)) }
    ensures counts { CountsAbove (F.faults folder.old) (F.faults folder.new) result }
{
    match vault.kind() {
        VaultKind::Gocryptfs => Ok(Vec::new(alloc)),
        VaultKind::Cryptomator => {
            let entries = entries_of_kind(alloc, folder, vault.root(), at, kind)?;
            Ok(extras(alloc, at, long, item, entries.as_slice())?)
        }
    }
}

// Those of these entries that have no place in an item's own folder.
fn extras(
    alloc: Global,
    at: &FPath,
    long: bool,
    item: EntryItem,
    entries: &[Entry],
) -> Result<Vec<Found>, AllocError>
    ensures { IfOk result (λ found. (v : View) → IsListing v at.now entries.now → found.items ≡ extras (inner_role long (item_of item)) v at.now entries.now) }
{
    let mut found = Vec::new(alloc);
    for entry in entries {
        let role = inner_role(long, item, entry.name.as_str(), entry.kind);
        add_extra(&mut found, at, entry, role)?;
    }
    Ok(found)
}

// Adds an entry that has no place there.
pub(crate) fn add_extra(
    found: &mut Vec<Found>,
    at: &FPath,
    entry: &Entry,
    role: Role,
) -> Result<(), AllocError>
    ensures { OnOk result (found.new.items ≡ found.old.items ++ extra_at (role_of role) (child at.now entry.now.name)) }
{
    if role == Role::Extra {
        found.push(Found {
            at: at.child(entry.name.as_str())?,
            number: 10,
        })?;
    }
    Ok(())
}
