//! The entries of a folder, if one stands there.
ghost use Rattle.std.specs.Prelude.{◌≡◌, IfOk};
ghost use Rattle.folder_spec.specs.Listing.{IsListing};
ghost use Rattle.folder_spec.specs.Seen.{IfSeen, under};
ghost use Rattle.folder_spec.specs.View.{Folder, kind_found};
ghost use Rattle.folder_model.specs.Answers.{CountsAbove};

use folder_model::{Entry, FPath, Folder, Kind};
use folder_spec::FolderFault;
use std::alloc::Global;
use vault_read::kind_under;

// What stands below a path behind a root: the entries, in byte order of their names. There are none where no folder stands.
pub(crate) fn entries_at<F: Folder>(
    alloc: Global,
    folder: &mut F,
    root: &FPath,
    at: &FPath,
) -> Result<Vec<Entry>, FolderFault>
    ensures told { F.told folder.new ≡ F.told folder.old }
    ensures listing { IfOk result (λ entries. IfSeen (F.told folder.old) (λ v. IsListing (under root.now v) at.now entries.items)) }
    ensures counts { CountsAbove (F.faults folder.old) (F.faults folder.new) result }
{
    let kind = kind_under(folder, root, at)?;
    entries_of_kind(alloc, folder, root, at, kind)
}

// What stands below a path behind a root, by the kind of what stands there.
pub(crate) fn entries_of_kind<F: Folder>(
    alloc: Global,
    folder: &mut F,
    root: &FPath,
    at: &FPath,
    kind: Kind,
) -> Result<Vec<Entry>, FolderFault>
    requires { IfSeen (F.told folder.old) (λ v. kind ≡ kind_found (under root.now v at.now)) }
    ensures told { F.told folder.new ≡ F.told folder.old }
    ensures listing { IfOk result (λ entries. IfSeen (F.told folder.old) (λ v. IsListing (under root.now v) at.now entries.items)) }
    ensures counts { CountsAbove (F.faults folder.old) (F.faults folder.new) result }
{
    match kind {
        Kind::Dir => listed(folder, root, at),
        _ => Ok(Vec::new(alloc)),
    }
}

// The entries of a folder behind a root.
fn listed<F: Folder>(folder: &mut F, root: &FPath, at: &FPath) -> Result<Vec<Entry>, FolderFault>
    requires { IfSeen (F.told folder.old) (λ v. under root.now v at.now ≡ Folder) }
    ensures told { F.told folder.new ≡ F.told folder.old }
    ensures listing { IfOk result (λ entries. IfSeen (F.told folder.old) (λ v. IsListing (under root.now v) at.now entries.items)) }
    ensures counts { CountsAbove (F.faults folder.old) (F.faults folder.new) result }
{
    let path = root.joined(at)?;
    let entries = folder.list(&path)?;
    Ok(entries)
}
