//! Setting a file from the work folder.
ghost use Rattle.std.specs.Prelude.{◌≡◌, ◌≢◌, ◌∷◌, [], Err, IfOk, OnOk};
ghost use Rattle.port_model.specs.Counts.{Blames};
ghost use Rattle.folder_spec.specs.declared.FolderFault.TheVariants.{Failed, Refused};
ghost use Rattle.folder_spec.specs.Path.{child};
ghost use Rattle.folder_spec.specs.State.{present};
ghost use Rattle.folder_spec.specs.Event.{FromTo};
ghost use Rattle.folder_spec.specs.Replace.{IsNewFile};
ghost use Rattle.folder_spec.specs.Seen.{IfSeen, ShowsFilePlace};
ghost use Rattle.folder_staging.specs.Pieces.{Stages};
ghost use Rattle.folder_staging.specs.Places.{ArePlacesApart, IsStage};
ghost use Rattle.work_folder.specs.Setting.{HasSet, IsOfFolder, Sets, SetsIf, staged_file};

use crate::work::Work;
use folder_model::{FPath, Folder};
use folder_spec::FolderFault;
use folder_spec::laws::images_show_views;
use folder_staging::stage_file;
use std::alloc::AllocError;

fn staged_at(work: &Work) -> Result<FPath, AllocError>
    ensures { IfOk result (λ at. at ≡ staged_file work.now) }
{
    work.at().child("stage")?.child("f")
}

// Stages the file. It has its place there, so a folder that refuses it is at fault.
fn stage<F: Folder>(folder: &mut F, staged: &FPath, bytes: &[u8]) -> Result<(), FolderFault>
    requires { IsStage (F.told folder.old) staged.now }
    ensures moments { Stages (bytes.now ∷ []) staged.now (F.told folder.old) (F.told folder.new) }
    ensures written { OnOk result (FromTo (λ a b. IsNewFile bytes.now a.state b.state (present b.state staged.now)) (F.told folder.old) (F.told folder.new)) }
    ensures done { result ≢ Err Refused }
    ensures blames { Blames (result ≡ Err Failed) (F.faults folder.old) (F.faults folder.new) }
{
    match stage_file(folder, staged, bytes) {
        Ok(()) => Ok(()),
        Err(FolderFault::Failed) => Err(FolderFault::Failed),
        Err(FolderFault::Refused) => Err(FolderFault::Failed),
        Err(FolderFault::NoMemory) => Err(FolderFault::NoMemory),
    }
}

/// Puts a file with these bytes at a path outside the work folder, in the place of one that may stand there, so that it lasts.
///
/// It is staged at `stage/f`, synced, renamed onto the path and settled. At every moment a crash leaves the old file or the new one, and
/// all else outside the work folder as it was.
pub fn set_file<F: Folder>(
    folder: &mut F,
    work: &Work,
    at: &FPath,
    bytes: &[u8],
) -> Result<(), FolderFault>
    requires stage { IfSeen (F.told folder.old) (λ v. ShowsFilePlace v (staged_file work.now)) }
    requires apart { ArePlacesApart work.now at.now }
    ensures moments { Sets work.now at.now bytes.now (F.told folder.old) (F.told folder.new) }
    ensures set { OnOk result (HasSet work.now at.now bytes.now (F.told folder.old) (F.told folder.new)) }
    ensures answer { IfSeen (F.told folder.old) (λ v. SetsIf (ShowsFilePlace v at.now) result) }
    ensures stage { OnOk result (IfSeen (F.told folder.new) (λ v. ShowsFilePlace v (staged_file work.now))) }
    ensures blames { Blames (IsOfFolder (F.told folder.old) result) (F.faults folder.old) (F.faults folder.new) }
{
    images_show_views();
    let staged = staged_at(work)?;
    stage(folder, &staged, bytes)?;
    folder.rename(&staged, at)?;
    folder.settle()
}
