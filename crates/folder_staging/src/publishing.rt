//! Publishing a file: renaming it, once it is staged, onto its place.
ghost use Rattle.std.specs.Prelude.{OnOk};
ghost use Rattle.folder_spec.specs.Event.{FromTo};
ghost use Rattle.folder_spec.specs.Replace.{HasReplaced};
ghost use Rattle.folder_model.specs.Answers.{CountsAbove};
ghost use Rattle.folder_staging.specs.Places.{MayPublish};
ghost use Rattle.folder_staging.specs.Published.{Publishing};

use crate::staging::stage_file;
use folder_model::{FPath, Folder};
use folder_spec::FolderFault;

/// Puts a file with these bytes at the path, where nothing or a file stands, so that it lasts through a crash.
/// It is staged at the other path first.
pub fn replace_file<F: Folder>(
    folder: &mut F,
    staged: &FPath,
    at: &FPath,
    bytes: &[u8],
) -> Result<(), FolderFault>
    requires { MayPublish (F.told folder.old) staged.now at.now }
    ensures moments { Publishing staged.now at.now bytes.now (F.told folder.old) (F.told folder.new) }
    ensures replaced { OnOk result (FromTo (λ a b. HasReplaced staged.now at.now bytes.now a.state b.state) (F.told folder.old) (F.told folder.new)) }
    ensures counts { CountsAbove (F.faults folder.old) (F.faults folder.new) result }
{
    stage_file(folder, staged, bytes)?;
    folder.rename(staged, at)?;
    folder.settle()
}
