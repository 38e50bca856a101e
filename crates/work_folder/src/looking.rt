//! The tests of a work folder.
ghost use Rattle.std.specs.Prelude.{◌≡◌};
ghost use Rattle.folder_spec.specs.View.{Folder};
ghost use Rattle.folder_spec.specs.Seen.{IfSeen};
ghost use Rattle.work_folder.specs.Entries.{is_foreign, journal_path};
ghost use Rattle.work_folder.specs.Picking.{Picks};
ghost use Rattle.work_folder.specs.Looking.{Looks, Tests, TestsEntries, TestsJournal, TestsKind};

use crate::fault::WorkFault;
use folder_model::{Entry, FPath, Folder, Kind};

fn is_foreign(name: &str, kind: Kind, old: bool) -> bool
    ensures { result ≡ is_foreign old name.now kind }
{
    match kind {
        Kind::Missing => false,
        Kind::File => !(name == "journal" || name == "journal.new"),
        Kind::Dir => !(name == "stage" || (old && name == "old")),
        Kind::Other => true,
    }
}

// None of the entries of a directory is foreign.
fn pick(at: &FPath, entries: &[Entry], old: bool) -> Result<(), WorkFault>
    ensures { Picks old at.now entries.now result }
{
    for entry in entries {
        if is_foreign(entry.name.as_str(), entry.kind, old) {
            return Err(WorkFault::Foreign(at.child(entry.name.as_str())?));
        }
    }
    Ok(())
}

// No entry of the directory is foreign.
pub(crate) fn look_inside<F: Folder>(folder: &mut F, at: &FPath, old: bool) -> Result<(), WorkFault>
    requires { IfSeen (F.told folder.old) (λ v. v at.now ≡ Folder) }
    ensures { Looks (λ v answer. TestsEntries old v at.now answer) (F.told folder.old) (F.told folder.new) (F.faults folder.old) (F.faults folder.new) result }
{
    let entries = folder.list(at)?;
    pick(at, entries.as_slice(), old)
}

fn look_for_journal<F: Folder>(folder: &mut F, at: &FPath) -> Result<(), WorkFault>
    requires { IfSeen (F.told folder.old) (λ v. v at.now ≡ Folder) }
    ensures { Looks (λ v answer. TestsJournal (v (journal_path at.now)) v at.now answer) (F.told folder.old) (F.told folder.new) (F.faults folder.old) (F.faults folder.new) result }
{
    let journal = at.child("journal")?;
    match folder.kind(&journal)? {
        Kind::File => Err(WorkFault::Begun),
        _ => look_inside(folder, at, false),
    }
}

fn look_at<F: Folder>(folder: &mut F, at: &FPath) -> Result<(), WorkFault>
    ensures { Looks (λ v answer. TestsKind (v at.now) v at.now answer) (F.told folder.old) (F.told folder.new) (F.faults folder.old) (F.faults folder.new) result }
{
    match folder.kind(at)? {
        Kind::Missing => Ok(()),
        Kind::Dir => look_for_journal(folder, at),
        _ => Err(WorkFault::WrongKind(at.copy()?)),
    }
}

// The parent, and then the work folder.
pub(crate) fn look_from_parent<F: Folder>(folder: &mut F, at: &FPath) -> Result<(), WorkFault>
    ensures { Looks (λ v answer. Tests v at.now answer) (F.told folder.old) (F.told folder.new) (F.faults folder.old) (F.faults folder.new) result }
{
    let above = at.parent()?;
    match folder.kind(&above)? {
        Kind::Missing => Err(WorkFault::NoParent(above)),
        Kind::Dir => look_at(folder, at),
        _ => Err(WorkFault::WrongKind(above)),
    }
}
