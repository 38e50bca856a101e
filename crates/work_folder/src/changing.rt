//! The changes that make a work folder ready.
ghost use Rattle.std.specs.Prelude.{◌≡◌, ◌⊎◌, Ok, OnOk};
ghost use Rattle.folder_spec.specs.View.{Folder, NoEntry};
ghost use Rattle.folder_spec.specs.Seen.{IfSeen, ShowsFree, ShowsNothingOrFile};
ghost use Rattle.folder_model.specs.Answers.{CountsAbove};
ghost use Rattle.work_folder.specs.Entries.{stage_path};
ghost use Rattle.work_folder.specs.Looking.{Tests};
ghost use Rattle.work_folder.specs.Changing.{Alters};
ghost use Rattle.work_folder.specs.Entering.{Prepares, Restages};

use crate::fault::WorkFault;
use folder_model::{FPath, Folder, Kind};
use folder_spec::FolderFault;
use folder_staging::remove_below;

// Makes a directory where none is yet.
fn make_folder<F: Folder>(folder: &mut F, at: &FPath) -> Result<(), FolderFault>
    requires { IfSeen (F.told folder.old) (λ v. (v at.now ≡ Folder) ⊎ ShowsFree v at.now) }
    ensures moments { Alters (λ q. q ≡ at.now) (λ q. ⊥) (F.told folder.old) (F.told folder.new) }
    ensures there { OnOk result (IfSeen (F.told folder.new) (λ v. v at.now ≡ Folder)) }
    ensures counts { CountsAbove (F.faults folder.old) (F.faults folder.new) result }
{
    match folder.kind(at)? {
        Kind::Missing => folder.make_dir(at),
        _ => Ok(()),
    }
}

// Removes a file where one is.
fn clear_file<F: Folder>(folder: &mut F, at: &FPath) -> Result<(), FolderFault>
    requires { IfSeen (F.told folder.old) (λ v. ShowsNothingOrFile v at.now) }
    ensures moments { Alters (λ q. ⊥) (λ q. q ≡ at.now) (F.told folder.old) (F.told folder.new) }
    ensures gone { OnOk result (IfSeen (F.told folder.new) (λ v. v at.now ≡ NoEntry)) }
    ensures counts { CountsAbove (F.faults folder.old) (F.faults folder.new) result }
{
    match folder.kind(at)? {
        Kind::File => folder.remove_file(at),
        _ => Ok(()),
    }
}

// Makes the work folder, and removes a journal that was begun.
pub(crate) fn prepare<F: Folder>(folder: &mut F, at: &FPath) -> Result<(), WorkFault>
    requires { IfSeen (F.told folder.old) (λ v. Tests v at.now (Ok tt)) }
    ensures { Prepares at.now (F.told folder.old) (F.told folder.new) (F.faults folder.old) (F.faults folder.new) result }
{
    let new = at.child("journal.new")?;
    make_folder(folder, at)?;
    clear_file(folder, &new)?;
    Ok(())
}

// Makes the stage a directory without entries.
pub(crate) fn restage<F: Folder>(folder: &mut F, at: &FPath) -> Result<(), WorkFault>
    requires folder { IfSeen (F.told folder.old) (λ v. v at.now ≡ Folder) }
    requires stage { IfSeen (F.told folder.old) (λ v. (v (stage_path at.now) ≡ NoEntry) ⊎ (v (stage_path at.now) ≡ Folder)) }
    ensures { Restages at.now (F.told folder.old) (F.told folder.new) (F.faults folder.old) (F.faults folder.new) result }
{
    let stage = at.child("stage")?;
    match folder.kind(&stage)? {
        Kind::Dir => Ok(remove_below(folder, &stage)?),
        _ => Ok(folder.make_dir(&stage)?),
    }
}
