//! Staging a file: making, writing and syncing it where nothing else looks.
ghost use Rattle.std.specs.Prelude.{◌≡◌, ◌↔◌, [], ◌∷◌, IfOk, OnOk, IsTrue};
ghost use Rattle.folder_spec.specs.State.{present};
ghost use Rattle.folder_spec.specs.Event.{FromTo, IsFree};
ghost use Rattle.folder_spec.specs.Replace.{IsNewFile};
ghost use Rattle.folder_spec.specs.Seen.{IfSeen, ShowsFile, ShowsFilePlace};
ghost use Rattle.folder_model.specs.Answers.{CountsAbove};
ghost use Rattle.folder_staging.specs.Pieces.{Stages, Begins, Adds, Finishes};
ghost use Rattle.folder_staging.specs.Places.{IsStage};

use folder_model::{FPath, Folder, Kind};
use folder_spec::FolderFault;

/// Whether a file stands at the path or may be made there.
pub fn is_file_place<F: Folder>(folder: &mut F, at: &FPath) -> Result<bool, FolderFault>
    ensures told { F.told folder.new ≡ F.told folder.old }
    ensures place { IfOk result (λ yes. IfSeen (F.told folder.old) (λ v. (IsTrue yes ↔ ShowsFilePlace v at.now))) }
    ensures counts { CountsAbove (F.faults folder.old) (F.faults folder.new) result }
{
    match folder.kind(at)? {
        Kind::File => Ok(true),
        Kind::Missing => {
            let above = at.parent()?;
            match folder.kind(&above)? {
                Kind::Dir => Ok(true),
                _ => Ok(false),
            }
        }
        _ => Ok(false),
    }
}

/// Removes the file that may stand at the path.
pub fn clear<F: Folder>(folder: &mut F, at: &FPath) -> Result<(), FolderFault>
    requires { IsStage (F.told folder.old) at.now }
    ensures moments { Stages [] at.now (F.told folder.old) (F.told folder.new) }
    ensures free { OnOk result (FromTo (λ a b. IsFree (present b.state) at.now) (F.told folder.old) (F.told folder.new)) }
    ensures counts { CountsAbove (F.faults folder.old) (F.faults folder.new) result }
{
    match folder.kind(at)? {
        Kind::File => folder.remove_file(at),
        _ => Ok(()),
    }
}

/// Begins a new file, in the place of one that may stand there.
///
/// At every moment until it is finished all other paths are as they were, nothing but a file comes to
/// stand at the path, and each file that was made holds a front part of what is written.
pub fn begin_file<F: Folder>(folder: &mut F, at: &FPath) -> Result<(), FolderFault>
    requires { IsStage (F.told folder.old) at.now }
    ensures begun { Begins at.now (F.told folder.old) (F.told folder.new) result }
    ensures counts { CountsAbove (F.faults folder.old) (F.faults folder.new) result }
{
    clear(folder, at)?;
    folder.create(at)
}

/// Adds a piece to a file that is being written.
pub fn add_piece<F: Folder>(folder: &mut F, at: &FPath, piece: &[u8]) -> Result<(), FolderFault>
    requires { IfSeen (F.told folder.old) (λ v. ShowsFile v at.now) }
    ensures added { Adds at.now piece.now (F.told folder.old) (F.told folder.new) result }
    ensures counts { CountsAbove (F.faults folder.old) (F.faults folder.new) result }
{
    folder.append(at, piece)
}

/// Makes a file that was written last through a crash.
pub fn finish_file<F: Folder>(folder: &mut F, at: &FPath) -> Result<(), FolderFault>
    requires { IfSeen (F.told folder.old) (λ v. ShowsFile v at.now) }
    ensures finished { Finishes at.now (F.told folder.old) (F.told folder.new) result }
    ensures counts { CountsAbove (F.faults folder.old) (F.faults folder.new) result }
{
    folder.sync(at)
}

/// Writes a new file, in the place of one that may stand there, so that it lasts through a crash.
pub fn stage_file<F: Folder>(folder: &mut F, at: &FPath, bytes: &[u8]) -> Result<(), FolderFault>
    requires { IsStage (F.told folder.old) at.now }
    ensures moments { Stages (bytes.now ∷ []) at.now (F.told folder.old) (F.told folder.new) }
    ensures written { OnOk result (FromTo (λ a b. IsNewFile bytes.now a.state b.state (present b.state at.now)) (F.told folder.old) (F.told folder.new)) }
    ensures counts { CountsAbove (F.faults folder.old) (F.faults folder.new) result }
{
    begin_file(folder, at)?;
    add_piece(folder, at, bytes)?;
    finish_file(folder, at)
}
