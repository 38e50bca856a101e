//! Staging a folder whole, and publishing it.
ghost use Rattle.folder_spec.specs.Seen.{IfSeen, ShowsFree};
ghost use Rattle.folder_model.specs.Answers.{CountsAbove};
ghost use Rattle.folder_staging.specs.Folders.{BeginsFolder, MayPublishFolder, PublishesFolder, PlacesFolder};

use folder_model::{FPath, Folder};
use folder_spec::FolderFault;

/// Begins a folder at a free place where nothing else looks, or in a folder that is being staged. Its
/// files and directories are staged in it one by one.
pub fn begin_folder<F: Folder>(folder: &mut F, at: &FPath) -> Result<(), FolderFault>
    requires { IfSeen (F.told folder.old) (λ v. ShowsFree v at.now) }
    ensures begun { BeginsFolder at.now (F.told folder.old) (F.told folder.new) result }
    ensures counts { CountsAbove (F.faults folder.old) (F.faults folder.new) result }
{
    folder.make_dir(at)
}

/// Puts a staged folder at a free place, with all that is in it at once. The change is still pending
/// afterwards.
pub fn publish_folder<F: Folder>(
    folder: &mut F,
    staged: &FPath,
    at: &FPath,
) -> Result<(), FolderFault>
    requires { MayPublishFolder (F.told folder.old) staged.now at.now }
    ensures published { PublishesFolder staged.now at.now (F.told folder.old) (F.told folder.new) result }
    ensures counts { CountsAbove (F.faults folder.old) (F.faults folder.new) result }
{
    folder.rename(staged, at)
}

/// Puts a staged folder at a free place, with all that is in it at once, so that it lasts: published and
/// settled.
pub fn place_folder<F: Folder>(
    folder: &mut F,
    staged: &FPath,
    at: &FPath,
) -> Result<(), FolderFault>
    requires { MayPublishFolder (F.told folder.old) staged.now at.now }
    ensures placed { PlacesFolder staged.now at.now (F.told folder.old) (F.told folder.new) result }
    ensures counts { CountsAbove (F.faults folder.old) (F.faults folder.new) result }
{
    publish_folder(folder, staged, at)?;
    folder.settle()
}
