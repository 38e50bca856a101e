//! The calls of the machine's folder, one by one.

ghost use Rattle.std.specs.Prelude.{◌≡◌, ◌≤◌, ◌≢◌, ◌⊎◌, IfErr, IfOk, OnErr, OnOk, IsTrue, None, length};
ghost use Rattle.std.specs.Cmp.Lexicographic.{slice_cmp};
ghost use Rattle.std.specs.List.Sorted.{IsSortedByKey};
ghost use Rattle.std.specs.Ordering.{nat_cmp};
ghost use Rattle.folder_spec.specs.Listing.{Item};
ghost use Rattle.folder_spec.specs.Path.{parent};
ghost use Rattle.folder_spec.specs.declared.FolderFault.TheVariants.{Failed};
ghost use Rattle.folder_spec.specs.declared.Kind.TheVariants.{Missing};
ghost use Rattle.folder_model.specs.Answers.{Counts, KeepsUnlessRun};
ghost use Rattle.host_places.specs.Causes.{fault_by};
ghost use Rattle.host_ports.specs.Calls.{ChangesAt, HeedsBars, HeedsReads, LooksAt, StopsBars};
ghost use Rattle.host_places.specs.Noted.{IsJust, IsSettled, Sees, SeesBut, has};
ghost use Rattle.host_ports.specs.Ground.{IsStopped, KeepsBars};
ghost use Rattle.host_places.specs.Places.{names_entries};

use crate::host_folder::HostFolder;
use folder_model::{Entry, FPath, Folder, FolderFault, Kind};
use host_places::{Cause, Claims, Handles, Kinds, Trouble, fault_of};

impl HostFolder {
    // The answer to a call: it is counted where it failed or was refused, and the cause is kept, with the path that the call had. Some causes
    // bar later calls.
    #[tactic(auto, using(crate::proofs::Bars::keeps_same, crate::proofs::Bars::keeps_after, crate::proofs::Bars::keeps_with))]
    fn answered<T>(
        &mut self,
        at: Option<&FPath>,
        answer: Result<T, Cause>,
    ) -> Result<T, FolderFault>
        ensures counts { Counts None self.old.faults self.new.faults result }
        ensures ok { IfOk answer (λ value. result ≡ Ok value) }
        ensures err { IfErr answer (λ cause. result ≡ Err (fault_by cause)) }
        ensures dirs { self.new.dirs ≡ self.old.dirs }
        ensures keeps { KeepsBars self.old.barred self.new.barred }
    {
        if let Err(cause) = &answer {
            self.heed(at, *cause);
        }
        self.life.beat(&self.rt, self.alloc);
        let faults = self.faults;
        match answer {
            Ok(value) => Ok(value),
            Err(cause) => {
                let fault = fault_of(cause);
                if fault != FolderFault::NoMemory {
                    self.faults = faults.saturating_add(1);
                }
                Err(fault)
            }
        }
    }

    // The same of a call that makes changes last. Where it fails, what this process changed may be lost, whatever a later one answers.
    #[tactic(auto, using(crate::proofs::Bars::keeps_same, crate::proofs::Bars::keeps_after, crate::proofs::Bars::keeps_with))]
    fn settled(&mut self, at: Option<&FPath>, answer: Result<(), Cause>) -> Result<(), FolderFault>
        ensures counts { Counts None self.old.faults self.new.faults result }
        ensures ok { IfOk answer (λ value. result ≡ Ok value) }
        ensures err { IfErr answer (λ cause. result ≡ Err (fault_by cause)) }
        ensures dirs { self.new.dirs ≡ self.old.dirs }
        ensures keeps { KeepsBars self.old.barred self.new.barred }
        ensures stops { result ≡ Err Failed → IsStopped self.new.barred }
    {
        let result = self.answered(at, answer);
        if result == Err(FolderFault::Failed) {
            self.stop();
        }
        result
    }

    // Keeps why a call failed, and bars what this cause bars.
    #[tactic(auto, using(crate::proofs::Bars::keeps_same, crate::proofs::Bars::keeps_after, crate::proofs::Bars::keeps_with))]
    fn heed(&mut self, at: Option<&FPath>, cause: Cause)
        ensures keeps { KeepsBars self.old.barred self.new.barred }
        ensures dirs { self.new.dirs ≡ self.old.dirs }
        ensures faults { self.new.faults ≡ self.old.faults }
    {
        if let (Some(at), false) = (at, cause.is_told()) {
            self.keep_trouble(Trouble::new(at, cause));
        }
        match cause {
            Cause::Exchanged => self.let_go(),
            Cause::Unsynced(_, _) => self.stop(),
            Cause::Held => self.barred = true,
            _ => {}
        }
    }

    // Stops, and lets go of all that is kept by its path, since something else stands there.
    #[tactic(auto, using(crate::proofs::Bars::keeps_same, crate::proofs::Bars::keeps_after, crate::proofs::Bars::keeps_with))]
    fn let_go(&mut self)
        ensures keeps { KeepsBars self.old.barred self.new.barred }
        ensures dirs { self.new.dirs ≡ self.old.dirs }
        ensures faults { self.new.faults ≡ self.old.faults }
    {
        let gone = self.claims.gone(&self.rt, self.alloc, self.base.as_str());
        if let Some(trouble) = gone.map(|at| Trouble::new(at, Cause::Exchanged)) {
            self.keep_trouble(trouble);
        }
        self.claims = Claims::new(self.alloc);
        self.handles = Handles::new();
        self.kinds = Kinds::new(self.alloc);
        self.stop();
    }
}

impl Folder for HostFolder {
    ghost use Rattle.std.proofs.lemmas.Option.{none-some};

    ghost told = { λ f. None };

    ghost faults = { λ f. f.faults };

    ghost sound = { λ f a is. absurd (none-some a is) };

    fn kind(&mut self, at: &FPath) -> Result<Kind, FolderFault>
        ensures counts { Counts None self.old.faults self.new.faults result }
        ensures looks { LooksAt at.now self.old.dirs self.new.dirs result }
        ensures known { IfOk result (λ kind. kind ≢ Missing → IsTrue (has self.new.dirs.known (parent at.now))) }
        ensures bar { HeedsReads Failed self.old self.new result }
    {
        let answer = self.kind_of(at);
        self.answered(Some(at), answer)
    }

    fn list(&mut self, at: &FPath) -> Result<Vec<Entry>, FolderFault>
        ensures counts { Counts None self.old.faults self.new.faults result }
        ensures looks { LooksAt at.now self.old.dirs self.new.dirs result }
        ensures sorted { IfOk result (λ entries. IsSortedByKey (λ (entry : Item). entry.name) (slice_cmp nat_cmp) entries.items) }
        ensures known { OnOk result (IsTrue (has self.new.dirs.known at.now)) }
        ensures bar { HeedsReads Failed self.old self.new result }
    {
        let answer = self.entries(at);
        self.answered(Some(at), answer)
    }

    fn read(&mut self, at: &FPath, start: u64, out: &mut [u8]) -> Result<usize, FolderFault>
        ensures counts { Counts None self.old.faults self.new.faults result }
        ensures looks { LooksAt at.now self.old.dirs self.new.dirs result }
        ensures within { IfOk result (λ n. n ≤ length out.old) }
        ensures unread { KeepsUnlessRun result (out.new ≡ out.old) }
        ensures bar { HeedsReads Failed self.old self.new result }
    {
        let answer = self.bytes(at, start, out);
        if let Ok(count) = &answer {
            self.life.count_read(*count);
        }
        self.answered(Some(at), answer)
    }

    fn make_dir(&mut self, at: &FPath) -> Result<(), FolderFault>
        ensures counts { Counts None self.old.faults self.new.faults result }
        ensures changes { ChangesAt at.now self.old.dirs self.new.dirs result }
        ensures made { OnOk result (IsTrue (has self.new.dirs.changed at.now)) }
        ensures bar { HeedsBars Failed self.old self.new result }
    {
        let answer = self.add_dir(at);
        self.answered(Some(at), answer)
    }

    fn create(&mut self, at: &FPath) -> Result<(), FolderFault>
        ensures counts { Counts None self.old.faults self.new.faults result }
        ensures changes { ChangesAt at.now self.old.dirs self.new.dirs result }
        ensures bar { HeedsBars Failed self.old self.new result }
    {
        let answer = self.add_file(at);
        self.answered(Some(at), answer)
    }

    fn append(&mut self, at: &FPath, piece: &[u8]) -> Result<(), FolderFault>
        ensures counts { Counts None self.old.faults self.new.faults result }
        ensures looks { LooksAt at.now self.old.dirs self.new.dirs result }
        ensures bar { HeedsBars Failed self.old self.new result }
    {
        let answer = self.grow(at, piece);
        self.life.count_written(piece.len());
        self.answered(Some(at), answer)
    }

    fn sync(&mut self, at: &FPath) -> Result<(), FolderFault>
        ensures counts { Counts None self.old.faults self.new.faults result }
        ensures looks { LooksAt at.now self.old.dirs self.new.dirs result }
        ensures bar { StopsBars Failed self.old.barred.changes self.old self.new result }
    {
        let answer = self.sync_file(at);
        self.settled(Some(at), answer)
    }

    fn settle(&mut self) -> Result<(), FolderFault>
        ensures counts { Counts None self.old.faults self.new.faults result }
        ensures settled { OnOk result (IsSettled self.new.dirs) }
        ensures kept { OnErr result (self.new.dirs ≡ self.old.dirs) }
        ensures known { self.new.dirs.known ≡ self.old.dirs.known }
        ensures bar { StopsBars Failed self.old.barred.settles self.old self.new result }
    {
        let answer = self.settle_now();
        self.settled(None, answer)
    }

    fn rename(&mut self, old: &FPath, new: &FPath) -> Result<(), FolderFault>
        ensures counts { Counts None self.old.faults self.new.faults result }
        ensures names { OnOk result (IsTrue (names_entries old.now) × IsTrue (names_entries new.now)) }
        ensures changed { OnOk result (IsTrue (has self.new.dirs.changed (parent old.now)) × IsTrue (has self.new.dirs.changed (parent new.now))) }
        ensures sees { Sees self.old.dirs self.new.dirs ⊎ IsJust self.new.dirs (parent old.now) (parent new.now) }
        ensures bar { HeedsBars Failed self.old self.new result }
    {
        let answer = self.rename_now(old, new);
        self.answered(Some(new), answer)
    }

    fn remove_file(&mut self, at: &FPath) -> Result<(), FolderFault>
        ensures counts { Counts None self.old.faults self.new.faults result }
        ensures changes { ChangesAt at.now self.old.dirs self.new.dirs result }
        ensures bar { HeedsBars Failed self.old self.new result }
    {
        let answer = self.remove_file_now(at);
        self.answered(Some(at), answer)
    }

    fn remove_dir(&mut self, at: &FPath) -> Result<(), FolderFault>
        ensures counts { Counts None self.old.faults self.new.faults result }
        ensures names { OnOk result (IsTrue (names_entries at.now)) }
        ensures changed { OnOk result (IsTrue (has self.new.dirs.changed (parent at.now))) }
        ensures sees { SeesBut at.now self.old.dirs self.new.dirs }
        ensures bar { HeedsBars Failed self.old self.new result }
    {
        let answer = self.remove_dir_now(at);
        self.answered(Some(at), answer)
    }
}
