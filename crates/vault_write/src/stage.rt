//! Staging what an item consists of, and putting it in its places.
ghost use Rattle.std.specs.Prelude.{codes, ◌≢◌, ◌≡◌, ◌∷◌, ◌++◌, [], true, List, ℕ, IfOk, Contains, None, OnOk, Option};
ghost use Rattle.folder_spec.specs.Path.{Path, child};
ghost use Rattle.folder_spec.specs.Edit.{directory_edit, file_edit, folder_edit};
ghost use Rattle.folder_spec.specs.Event.{FromTo};
ghost use Rattle.folder_spec.specs.Seen.{IfSeen, ShowsFree, put_found, seen};
ghost use Rattle.folder_spec.specs.View.{Folder, View};
ghost use Rattle.folder_model.specs.Answers.{CountsAbove};
ghost use Rattle.folder_staging.specs.Folders.{StagesFolder, IsStagedFolder};
ghost use Rattle.work_folder.specs.Entries.{stage_path};
ghost use Rattle.vault_spec.specs.Cryptomator.{full_file, full_files};
ghost use Rattle.vault_spec.specs.Making.{full_texts};
ghost use Rattle.vault_write.specs.Editing.{AddsEdits, AddsName, MayBeBeside, MayBePut, side_edits};

use folder_model::{FPath, Folder};
use folder_spec::FolderFault;
use folder_staging::laws::{staged_folders_are_seen, staged_folders_gain_files};
use folder_staging::{begin_folder, stage_file};
use std::alloc::AllocError;
use vault_values::Text;
use work_folder::Work;

// A place in the stage.
pub(crate) fn staged_at(work: &Work, name: &str) -> Result<FPath, AllocError>
    ensures { IfOk result (λ at. at ≡ child (stage_path work.now) name.now) }
{
    work.at().child("stage")?.child(name)
}

// Makes a directory at its place.
pub(crate) fn make_folder<F: Folder>(folder: &mut F, at: &FPath) -> Result<(), FolderFault>
    requires { IfSeen (F.told folder.old) (λ v. ShowsFree v at.now) }
    ensures made { (work : Path) → AddsEdits None work (directory_edit at.now ∷ []) [] (F.told folder.old) (F.told folder.new) result }
    ensures shown { OnOk result (FromTo (λ a b. seen b.state ≡ put_found (seen a.state) at.now Folder) (F.told folder.old) (F.told folder.new)) }
    ensures counts { CountsAbove (F.faults folder.old) (F.faults folder.new) result }
{
    folder.make_dir(at)
}

// Puts a file with these bytes at its place. In the stage it stands beside an entry that may be there.
pub(crate) fn publish_bytes<F: Folder>(
    folder: &mut F,
    work: &Work,
    at: &FPath,
    bytes: &[u8],
) -> Result<(), FolderFault>
    requires { IfSeen (F.told folder.old) (λ v. MayBeBeside v work.now at.now) }
    ensures made { (held : Option View) → AddsEdits held work.now (file_edit at.now bytes.now ∷ []) (bytes.now ∷ []) (F.told folder.old) (F.told folder.new) result }
    ensures counts { CountsAbove (F.faults folder.old) (F.faults folder.new) result }
{
    let staged = staged_at(work, "n")?;
    stage_file(folder, &staged, bytes)?;
    folder.rename(&staged, at)
}

// Puts the text of a long name beside the entry that is to come, where it is wanted.
pub(crate) fn publish_side<F: Folder>(
    folder: &mut F,
    work: &Work,
    at: &FPath,
    full: &Option<Text>,
    wants: bool,
) -> Result<(), FolderFault>
    requires { IfSeen (F.told folder.old) (λ v. wants ≡ true → MayBeBeside v work.now at.now) }
    ensures made { (held : Option View) → AddsEdits held work.now (side_edits wants at.now full.now) (full_texts full.now) (F.told folder.old) (F.told folder.new) result }
    ensures counts { CountsAbove (F.faults folder.old) (F.faults folder.new) result }
{
    if !wants {
        return Ok(());
    }
    match full {
        None => Ok(()),
        Some(text) => publish_bytes(folder, work, at, text.as_str().as_bytes()),
    }
}

// Stages a directory with its key file.
fn stage_directory<F: Folder>(
    folder: &mut F,
    staged: &FPath,
    key_name: &str,
    key: &[u8],
) -> Result<(), FolderFault>
    requires { IfSeen (F.told folder.old) (λ v. ShowsFree v staged.now) }
    ensures staged { (files : List (List ℕ)) → Contains files key.now → StagesFolder files staged.now (F.told folder.old) (F.told folder.new) × OnOk result (IsStagedFolder files staged.now ((key_name.now, key.now) ∷ []) (F.told folder.old) (F.told folder.new)) }
    ensures counts { CountsAbove (F.faults folder.old) (F.faults folder.new) result }
{
    staged_folders_gain_files();
    staged_folders_are_seen();
    begin_folder(folder, staged)?;
    let at = staged.child(key_name)?;
    stage_file(folder, &at, key)
}

// Adds the text of a long name to a directory that is being staged.
pub(crate) fn stage_name<F: Folder>(
    folder: &mut F,
    staged: &FPath,
    full: &Option<Text>,
) -> Result<(), FolderFault>
    requires { IfSeen (F.told folder.old) (λ v. ShowsFree v (child staged.now full_file)) }
    ensures staged { AddsName staged.now full.now (F.told folder.old) (F.told folder.new) result }
    ensures counts { CountsAbove (F.faults folder.old) (F.faults folder.new) result }
{
    staged_folders_gain_files();
    match full {
        None => Ok(()),
        Some(text) => {
            let at = staged.child("name.c9s")?;
            stage_file(folder, &at, text.as_str().as_bytes())
        }
    }
}

// Puts a directory with its key file at its place, and with the text of a long name where it has that inside.
pub(crate) fn publish_directory<F: Folder>(
    folder: &mut F,
    work: &Work,
    at: &FPath,
    key_name: &str,
    key: &[u8],
    full: &Option<Text>,
) -> Result<(), FolderFault>
    requires may { IfSeen (F.told folder.old) (λ v. MayBePut v work.now at.now) }
    requires name { key_name.now ≢ full_file }
    ensures made { AddsEdits None work.now (folder_edit at.now (full_files full.now ++ (key_name.now, key.now) ∷ []) ∷ []) (full_texts full.now ++ key.now ∷ []) (F.told folder.old) (F.told folder.new) result }
    ensures counts { CountsAbove (F.faults folder.old) (F.faults folder.new) result }
{
    staged_folders_are_seen();
    let staged = staged_at(work, "f")?;
    stage_directory(folder, &staged, key_name, key)?;
    stage_name(folder, &staged, full)?;
    folder.rename(&staged, at)
}

// Where an item's entry is staged.
pub(crate) fn staged_entry(work: &Work) -> Result<FPath, AllocError>
    ensures { IfOk result (λ at. at ≡ child (stage_path work.now) (codes "f")) }
{
    staged_at(work, "f")
}
