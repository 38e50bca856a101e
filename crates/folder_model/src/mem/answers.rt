//! A folder in memory as a folder.
use crate::entry::Entry;
use crate::folder::Folder;
use crate::mem::MemFolder;
use crate::mem::call::Call;
use crate::path::FPath;
use folder_spec::{FolderFault, Kind};

impl Folder for MemFolder {
    ghost use Rattle.std.specs.Prelude.{◌≡◌, ◌≤◌, Some, map, length, IfOk, OnErr};
    ghost use Rattle.folder_spec.specs.View.{Folder, kind_found};
    ghost use Rattle.folder_spec.specs.Seen.{ShowsFile};
    ghost use Rattle.folder_spec.specs.Event.{Steps, MakeDir, Create, Append, Sync, Settle, Rename, RemoveFile, RemoveDir};
    ghost use Rattle.folder_spec.specs.Listing.{IsListing};
    ghost use Rattle.folder_model.specs.Answers.{Answers, Counts, Reads};
    ghost use Rattle.folder_model.specs.Memory.{state_of, told_of, faults_of, plan_of, FellBy};
    ghost use Rattle.folder_model.specs.Plan.{counted, counted_change, fails_next, change_fails_next, added_next, FailsAs};
    ghost use Rattle.folder_model.specs.Calls.{event_of};
    ghost use Rattle.folder_model.specs.Sound.{told_from, told_sound};
    ghost use Rattle.folder_model.specs.Tables.{names_of};

    ghost told = { λ m. Some (told_from m.nodes.items (names_of m.base) m.steps.items m.kept (map event_of m.log.items)) };

    ghost faults = { λ m. m.faults };

    ghost sound = { λ m a is. told_sound m.nodes.items (names_of m.base) m.steps.items m.kept (map event_of m.log.items) m.fronts m.sound a is };

    fn kind(&mut self, at: &FPath) -> Result<Kind, FolderFault>
        ensures told { told_of self.new ≡ told_of self.old }
        ensures answer { Answers (Some (told_of self.old)) (λ v. Unit {0}) (λ v kind. kind ≡ kind_found (v at.now)) result }
        ensures counts { Counts (Some (told_of self.old)) (faults_of self.old) (faults_of self.new) result }
        ensures plan { plan_of self.new ≡ counted (plan_of self.old) }
        ensures due { FailsAs (fails_next (plan_of self.old)) result }
    {
        self.kind_now(at)
    }

    fn list(&mut self, at: &FPath) -> Result<Vec<Entry>, FolderFault>
        ensures told { told_of self.new ≡ told_of self.old }
        ensures answer { Answers (Some (told_of self.old)) (λ v. v at.now ≡ Folder) (λ v entries. IsListing v at.now entries.items) result }
        ensures counts { Counts (Some (told_of self.old)) (faults_of self.old) (faults_of self.new) result }
        ensures plan { plan_of self.new ≡ counted (plan_of self.old) }
        ensures due { FailsAs (fails_next (plan_of self.old)) result }
    {
        self.list_now(at)
    }

    fn read(&mut self, at: &FPath, start: u64, out: &mut [u8]) -> Result<usize, FolderFault>
        ensures told { told_of self.new ≡ told_of self.old }
        ensures within { IfOk result (λ n. n ≤ length out.old) }
        ensures answer { Answers (Some (told_of self.old)) (λ v. ShowsFile v at.now) (λ v n. Reads (v at.now) start out.old out.new n) result }
        ensures unread { OnErr result (out.new ≡ out.old) }
        ensures counts { Counts (Some (told_of self.old)) (faults_of self.old) (faults_of self.new) result }
        ensures plan { plan_of self.new ≡ counted (plan_of self.old) }
        ensures due { FailsAs (fails_next (plan_of self.old)) result }
    {
        self.read_now(at, start, out)
    }

    fn make_dir(&mut self, at: &FPath) -> Result<(), FolderFault>
        ensures changes { Steps (MakeDir at.now) (told_of self.old) (told_of self.new) result }
        ensures counts { Counts (Some (told_of self.old)) (faults_of self.old) (faults_of self.new) result }
        ensures plan { plan_of self.new ≡ counted_change (plan_of self.old) }
        ensures due { FailsAs (change_fails_next (plan_of self.old)) result }
    {
        let Ok(at) = at.copy() else {
            return self.want_memory();
        };
        self.run(Call::MakeDir(at))
    }

    fn create(&mut self, at: &FPath) -> Result<(), FolderFault>
        ensures changes { Steps (Create at.now) (told_of self.old) (told_of self.new) result }
        ensures counts { Counts (Some (told_of self.old)) (faults_of self.old) (faults_of self.new) result }
        ensures plan { plan_of self.new ≡ counted_change (plan_of self.old) }
        ensures due { FailsAs (change_fails_next (plan_of self.old)) result }
    {
        let Ok(at) = at.copy() else {
            return self.want_memory();
        };
        self.run(Call::Create(at))
    }

    fn append(&mut self, at: &FPath, piece: &[u8]) -> Result<(), FolderFault>
        ensures changes { Steps (Append at.now piece.now) (told_of self.old) (told_of self.new) result }
        ensures added { FellBy (added_next (plan_of self.old)) (Append at.now piece.now) (told_of self.old) (told_of self.new) result }
        ensures whole { added_next (plan_of self.old) ≡ 0 → OnErr result (state_of self.new ≡ state_of self.old) }
        ensures counts { Counts (Some (told_of self.old)) (faults_of self.old) (faults_of self.new) result }
        ensures plan { plan_of self.new ≡ counted_change (plan_of self.old) }
        ensures due { FailsAs (change_fails_next (plan_of self.old)) result }
    {
        let Ok(at) = at.copy() else {
            return self.want_memory();
        };
        let Ok(piece) = Vec::from_slice(self.alloc, piece) else {
            return self.want_memory();
        };
        self.run(Call::Append(at, piece))
    }

    fn sync(&mut self, at: &FPath) -> Result<(), FolderFault>
        ensures changes { Steps (Sync at.now) (told_of self.old) (told_of self.new) result }
        ensures counts { Counts (Some (told_of self.old)) (faults_of self.old) (faults_of self.new) result }
        ensures plan { plan_of self.new ≡ counted_change (plan_of self.old) }
        ensures due { FailsAs (change_fails_next (plan_of self.old)) result }
    {
        let Ok(at) = at.copy() else {
            return self.want_memory();
        };
        self.run(Call::Sync(at))
    }

    fn settle(&mut self) -> Result<(), FolderFault>
        ensures changes { Steps Settle (told_of self.old) (told_of self.new) result }
        ensures counts { Counts (Some (told_of self.old)) (faults_of self.old) (faults_of self.new) result }
        ensures plan { plan_of self.new ≡ counted_change (plan_of self.old) }
        ensures due { FailsAs (change_fails_next (plan_of self.old)) result }
    {
        self.run(Call::Settle)
    }

    fn rename(&mut self, old: &FPath, new: &FPath) -> Result<(), FolderFault>
        ensures changes { Steps (Rename old.now new.now) (told_of self.old) (told_of self.new) result }
        ensures counts { Counts (Some (told_of self.old)) (faults_of self.old) (faults_of self.new) result }
        ensures plan { plan_of self.new ≡ counted_change (plan_of self.old) }
        ensures due { FailsAs (change_fails_next (plan_of self.old)) result }
    {
        let Ok(old) = old.copy() else {
            return self.want_memory();
        };
        let Ok(new) = new.copy() else {
            return self.want_memory();
        };
        self.run(Call::Rename(old, new))
    }

    fn remove_file(&mut self, at: &FPath) -> Result<(), FolderFault>
        ensures changes { Steps (RemoveFile at.now) (told_of self.old) (told_of self.new) result }
        ensures counts { Counts (Some (told_of self.old)) (faults_of self.old) (faults_of self.new) result }
        ensures plan { plan_of self.new ≡ counted_change (plan_of self.old) }
        ensures due { FailsAs (change_fails_next (plan_of self.old)) result }
    {
        let Ok(at) = at.copy() else {
            return self.want_memory();
        };
        self.run(Call::RemoveFile(at))
    }

    fn remove_dir(&mut self, at: &FPath) -> Result<(), FolderFault>
        ensures changes { Steps (RemoveDir at.now) (told_of self.old) (told_of self.new) result }
        ensures counts { Counts (Some (told_of self.old)) (faults_of self.old) (faults_of self.new) result }
        ensures plan { plan_of self.new ≡ counted_change (plan_of self.old) }
        ensures due { FailsAs (change_fails_next (plan_of self.old)) result }
    {
        let Ok(at) = at.copy() else {
            return self.want_memory();
        };
        self.run(Call::RemoveDir(at))
    }
}
