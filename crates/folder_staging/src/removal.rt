//! Removing all that stands at a path or below it.
ghost use Rattle.std.specs.Prelude.{◌≡◌, ◌≢◌, ◌+◌, []};
ghost use Rattle.folder_spec.specs.View.{kind_found};
ghost use Rattle.folder_spec.specs.Seen.{IfSeen};
ghost use Rattle.folder_spec.specs.declared.Kind.TheVariants.{Dir};
ghost use Rattle.folder_spec.specs.Listing.{IsListing};
ghost use Rattle.folder_staging.specs.Removal.{Removes, from, below_only, deepest, fault_of, ended_as};

use folder_model::{Entry, FPath, Folder, Kind};
use folder_spec::FolderFault;
use std::alloc::AllocError;

/// How many parts below a path a removal goes down to.
const DEEPEST: u64 = 128;

/// Why a removal did not remove all.
#[derive(PartialEq, Drop)]
pub enum RemovalFault {
    /// Something stands deeper than 128 parts below the path.
    Depth,
    /// What stands at this path is neither a file nor a directory.
    Other(FPath),
    /// A call of the folder failed.
    Failed,
    NoMemory,
}

impl From<AllocError> for RemovalFault {
    ghost use Rattle.std.specs.Prelude.{◌≡◌};
    ghost use Rattle.folder_staging.specs.declared.removal.RemovalFault.TheVariants.{NoMemory};

    ghost from_gives = { λ _ result. result ≡ NoMemory };

    fn from(_fault: AllocError) -> RemovalFault {
        RemovalFault::NoMemory
    }
}

impl From<FolderFault> for RemovalFault {
    ghost use Rattle.std.specs.Prelude.{◌≡◌};
    ghost use Rattle.folder_staging.specs.Removal.{fault_of};

    ghost from_gives = { λ fault result. result ≡ fault_of fault };

    fn from(fault: FolderFault) -> RemovalFault {
        match fault {
            FolderFault::Failed => RemovalFault::Failed,
            FolderFault::Refused => RemovalFault::Failed,
            FolderFault::NoMemory => RemovalFault::NoMemory,
        }
    }
}

fn ended(answer: Result<(), FolderFault>) -> Result<(), RemovalFault>
    ensures { result ≡ ended_as answer }
{
    Ok(answer?)
}

// Removes what stands at the path, and all below it, down to so many parts.
#[cycle(removal)]
fn remove_entry<F: Folder>(
    folder: &mut F,
    at: &FPath,
    kind: Kind,
    most: u64,
) -> Result<(), RemovalFault>
    requires below_base { at.now ≢ [] }
    requires kind { IfSeen (F.told folder.old) (λ v. kind ≡ kind_found (v at.now)) }
    ensures { Removes (from at.now most) (F.told folder.old) (F.told folder.new) (F.faults folder.old) (F.faults folder.new) result }
{
    match kind {
        Kind::Missing => Ok(()),
        Kind::File => ended(folder.remove_file(at)),
        Kind::Dir => {
            empty_dir(folder, at, most)?;
            ended(folder.remove_dir(at))
        }
        Kind::Other => Err(RemovalFault::Other(at.copy()?)),
    }
}

// Removes all that stands below the directory, down to so many parts.
#[cycle(removal)]
fn empty_dir<F: Folder>(folder: &mut F, at: &FPath, most: u64) -> Result<(), RemovalFault>
    requires { IfSeen (F.told folder.old) (λ v. kind_found (v at.now) ≡ Dir) }
    ensures { Removes (below_only at.now most) (F.told folder.old) (F.told folder.new) (F.faults folder.old) (F.faults folder.new) result }
{
    let entries = folder.list(at)?;
    if most > 0 {
        return remove_entries(folder, at, entries.as_slice(), most - 1);
    }
    if entries.is_empty() {
        Ok(())
    } else {
        Err(RemovalFault::Depth)
    }
}

// Removes the entries of the directory, and all below them, down to so many parts.
#[cycle(removal)]
fn remove_entries<F: Folder>(
    folder: &mut F,
    at: &FPath,
    entries: &[Entry],
    most: u64,
) -> Result<(), RemovalFault>
    requires { IfSeen (F.told folder.old) (λ v. IsListing v at.now entries.now) }
    ensures { Removes (below_only at.now (most + 1)) (F.told folder.old) (F.told folder.new) (F.faults folder.old) (F.faults folder.new) result }
{
    for entry in entries {
        let here = at.child(entry.name.as_str())?;
        remove_entry(folder, &here, entry.kind, most)?;
    }
    Ok(())
}

/// Removes all that stands below the directory, the deepest first.
///
/// At every moment each table has below it what one had at entry, or nothing, and elsewhere what that one
/// had; no file is written. After Ok nothing is seen below it.
pub fn remove_below<F: Folder>(folder: &mut F, at: &FPath) -> Result<(), RemovalFault>
    requires { IfSeen (F.told folder.old) (λ v. kind_found (v at.now) ≡ Dir) }
    ensures { Removes (below_only at.now deepest) (F.told folder.old) (F.told folder.new) (F.faults folder.old) (F.faults folder.new) result }
{
    empty_dir(folder, at, DEEPEST)
}

/// Removes what stands at the path, if anything does, and all below it, the deepest first.
pub fn remove_all<F: Folder>(folder: &mut F, at: &FPath) -> Result<(), RemovalFault>
    requires { at.now ≢ [] }
    ensures { Removes (from at.now deepest) (F.told folder.old) (F.told folder.new) (F.faults folder.old) (F.faults folder.new) result }
{
    let kind = folder.kind(at)?;
    remove_entry(folder, at, kind, DEEPEST)
}
