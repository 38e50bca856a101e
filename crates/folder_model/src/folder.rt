//! Folders that can fail and crash.
ghost use Rattle.std.specs.Prelude.{◌≡◌, ◌≤◌, ℕ, Option, Some, length, IfOk};
ghost use Rattle.folder_spec.specs.State.{IsSound};
ghost use Rattle.folder_spec.specs.Event.{Told, Changes, MakeDir, Create, Append, Sync, Settle, Rename, RemoveFile, RemoveDir};
ghost use Rattle.folder_spec.specs.View.{Folder, kind_found};
ghost use Rattle.folder_spec.specs.Seen.{ShowsFile};
ghost use Rattle.folder_spec.specs.Listing.{IsListing};
ghost use Rattle.folder_model.specs.Answers.{Counts, Answers, Reads, KeepsUnlessRun};

use crate::entry::Entry;
use crate::path::FPath;
use folder_spec::{FolderFault, Kind};

/// A folder, whose calls can fail, and which a crash can interrupt.
///
/// A folder may tell its state and its log: then contracts say what each call changes, when it is
/// refused, and what it answers, by what is seen of that state. Every call tells by a count of faults why it failed. The changes of files and of
/// directories last through a crash only once they are synced and settled: what a crash leaves of
/// a state is an image of it.
pub trait Folder {
    /// The state and the log, where the folder tells them.
    ghost told: { Self → Option Told };

    /// How many calls have failed. It stands at 2^64-1 once it is there.
    ghost faults: { Self → ℕ };

    /// What stands at the path.
    fn kind(&mut self, at: &FPath) -> Result<Kind, FolderFault>
        ensures told { told self.new ≡ told self.old }
        ensures answer { Answers (told self.old) (λ v. Unit {0}) (λ v kind. kind ≡ kind_found (v at.now)) result }
        ensures counts { Counts (told self.old) (faults self.old) (faults self.new) result };

    /// The entries of the directory, in byte order of their names.
    fn list(&mut self, at: &FPath) -> Result<Vec<Entry>, FolderFault>
        ensures told { told self.new ≡ told self.old }
        ensures answer { Answers (told self.old) (λ v. v at.now ≡ Folder) (λ v entries. IsListing v at.now entries.items) result }
        ensures counts { Counts (told self.old) (faults self.old) (faults self.new) result };

    /// Reads the file's bytes from `start` on into the front of `out`, and says how many.
    fn read(&mut self, at: &FPath, start: u64, out: &mut [u8]) -> Result<usize, FolderFault>
        ensures told { told self.new ≡ told self.old }
        ensures within { IfOk result (λ n. n ≤ length out.old) }
        ensures answer { Answers (told self.old) (λ v. ShowsFile v at.now) (λ v n. Reads (v at.now) start out.old out.new n) result }
        ensures unread { KeepsUnlessRun result (out.new ≡ out.old) }
        ensures counts { Counts (told self.old) (faults self.old) (faults self.new) result };

    /// Makes a directory where nothing stands.
    fn make_dir(&mut self, at: &FPath) -> Result<(), FolderFault>
        ensures changes { Changes (MakeDir at.now) (told self.old) (told self.new) result }
        ensures counts { Counts (told self.old) (faults self.old) (faults self.new) result };

    /// Makes a file without bytes where nothing stands.
    fn create(&mut self, at: &FPath) -> Result<(), FolderFault>
        ensures changes { Changes (Create at.now) (told self.old) (told self.new) result }
        ensures counts { Counts (told self.old) (faults self.old) (faults self.new) result };

    /// Adds the bytes to the end of the file. Of a piece that failed some first bytes may have been
    /// added.
    fn append(&mut self, at: &FPath, piece: &[u8]) -> Result<(), FolderFault>
        ensures changes { Changes (Append at.now piece.now) (told self.old) (told self.new) result }
        ensures counts { Counts (told self.old) (faults self.old) (faults self.new) result };

    /// Makes the file's bytes last through a crash.
    fn sync(&mut self, at: &FPath) -> Result<(), FolderFault>
        ensures changes { Changes (Sync at.now) (told self.old) (told self.new) result }
        ensures counts { Counts (told self.old) (faults self.old) (faults self.new) result };

    /// Makes all directory changes so far last through a crash.
    fn settle(&mut self) -> Result<(), FolderFault>
        ensures changes { Changes Settle (told self.old) (told self.new) result }
        ensures counts { Counts (told self.old) (faults self.old) (faults self.new) result };

    /// Moves all that stands at `old` and below it to `new` at once. A file goes onto a file too.
    fn rename(&mut self, old: &FPath, new: &FPath) -> Result<(), FolderFault>
        ensures changes { Changes (Rename old.now new.now) (told self.old) (told self.new) result }
        ensures counts { Counts (told self.old) (faults self.old) (faults self.new) result };

    fn remove_file(&mut self, at: &FPath) -> Result<(), FolderFault>
        ensures changes { Changes (RemoveFile at.now) (told self.old) (told self.new) result }
        ensures counts { Counts (told self.old) (faults self.old) (faults self.new) result };

    /// Removes a directory without entries.
    fn remove_dir(&mut self, at: &FPath) -> Result<(), FolderFault>
        ensures changes { Changes (RemoveDir at.now) (told self.old) (told self.new) result }
        ensures counts { Counts (told self.old) (faults self.old) (faults self.new) result };

    /// Every state that is told is sound.
    ghost sound: { (folder : Self) (a : Told) → told folder ≡ Some a → IsSound a.state };
}
