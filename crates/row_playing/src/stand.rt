//! The folder that rows play in.
ghost use Rattle.std.specs.Prelude.{◌≡◌, ◌≤◌, length, IfOk, None};
ghost use Rattle.folder_model.specs.Answers.{Counts, KeepsUnlessRun};

use folder_model::{Entry, FPath, Folder, FolderFault, Kind, MemFolder, Pick};
use std::alloc::{AllocError, Global};
use std::mem;

// The last call that can be made to fail.
const MOST_CALLS: u64 = 10_000;

/// A folder in memory, in which one entry may be neither a file nor a directory. It tells nothing, and counts its calls.
#[derive(Drop)]
pub struct Stand {
    folder: MemFolder,
    other: Option<FPath>,
    calls: u64,
    // The last call of a run that is to fail.
    last: u64,
    // How many calls there were in all, the last of them that is to fail, and whether a stop is to come.
    made: u64,
    due: u64,
    is_to_stop: bool,
    // Whether a crash came before such a call.
    is_cut: bool,
    faults: u64,
}

impl Stand {
    pub fn new(alloc: Global) -> Result<Stand, AllocError> {
        Ok(Stand {
            folder: MemFolder::new(alloc)?,
            other: None,
            calls: 0,
            last: 0,
            made: 0,
            due: 0,
            is_to_stop: false,
            is_cut: false,
            faults: 0,
        })
    }

    /// Lets a later call fail, over all calls from now on.
    pub fn fail_at(&mut self, call: u64) -> Result<(), AllocError> {
        self.expect_call(call);
        self.folder.fail_at(call)
    }

    /// Lets a later call fail, which adds so many first bytes of its piece where it is an append.
    pub fn fail_append_at(&mut self, call: u64, added: u64) -> Result<(), AllocError> {
        self.expect_call(call);
        self.folder.fail_append_at(call, added)
    }

    /// Lets a later changing call fail, and every call after it.
    pub fn stop_at(&mut self, event: u64) {
        self.is_to_stop = true;
        self.folder.stop_at(event);
    }

    // Calls are to come to this number, counted from now on.
    fn expect_call(&mut self, call: u64) {
        self.due = self.due.max(self.made.saturating_add(call));
    }

    /// Whether a call that is to fail, or a stop, hasn't come.
    pub fn has_unmade(&self) -> bool {
        self.is_cut || self.is_to_stop || self.made < self.due
    }

    /// Places an entry that is neither a file nor a directory in a folder where nothing is pending, and says whether it may stand
    /// there.
    pub fn place(&mut self, at: &FPath) -> Result<bool, AllocError> {
        if !self.folder.may_place(at)? {
            return Ok(false);
        }
        self.folder.place_other(at)?;
        Ok(true)
    }

    /// The folder that a crash leaves.
    pub fn crash(&mut self, alloc: Global, pick: &Pick) -> Result<(), AllocError> {
        self.is_cut = self.has_unmade();
        let folder = mem::replace(&mut self.folder, MemFolder::new(alloc)?);
        self.folder = folder.crash(pick)?;
        Ok(())
    }

    /// Has the entry at this path be neither a file nor a directory.
    pub fn place_other(&mut self, at: FPath) {
        self.other = Some(at);
    }

    /// Begins a run in which these calls fail: calls are counted anew.
    pub fn begin_run(&mut self, fails: &[u64]) -> Result<(), AllocError> {
        self.calls = 0;
        self.last = 0;
        for call in fails {
            self.last = self.last.max(*call);
            self.folder.fail_at(*call)?;
        }
        Ok(())
    }

    /// Ends a run, and says whether all calls that were to fail were made. Others pass.
    pub fn end_run(&mut self, alloc: Global) -> bool {
        let is_whole = self.last <= self.calls;
        let base = FPath::base(alloc);
        for _ in self.calls..self.last.min(MOST_CALLS) {
            let _ = self.folder.kind(&base);
        }
        self.last = 0;
        is_whole
    }

    /// How many calls there were.
    pub fn calls(&self) -> u64 {
        self.calls
    }

    fn is_other(&self, at: &FPath) -> bool {
        match &self.other {
            Some(other) => other.is(at),
            None => false,
        }
    }

    // The answer, of which a fault is counted.
    fn counted<T>(&mut self, answer: Result<T, FolderFault>) -> Result<T, FolderFault>
        ensures same { result ≡ answer }
        ensures counts { Counts None self.old.faults self.new.faults result }
    {
        let faults = self.faults;
        self.calls = self.calls.saturating_add(1);
        self.made = self.made.saturating_add(1);
        match &answer {
            Err(FolderFault::Failed) => {
                self.is_to_stop = false;
                self.faults = faults.saturating_add(1);
            }
            Err(FolderFault::Refused) => self.faults = faults.saturating_add(1),
            _ => {}
        }
        answer
    }

    // Has the entry of a directory that is another be neither a file nor a directory.
    fn mark_other(&self, at: &FPath, entries: &mut [Entry]) {
        let Some(other) = &self.other else {
            return;
        };
        if let Some((name, parts)) = other.parts().split_last() {
            if other.starts_with(at) && parts.len() == at.depth() {
                for entry in entries {
                    if entry.name.as_str() == name.as_str() {
                        entry.kind = Kind::Other;
                    }
                }
            }
        }
    }
}

impl Folder for Stand {
    ghost use Rattle.std.proofs.lemmas.Option.{none-some};

    ghost told = { λ f. None };

    ghost faults = { λ f. f.faults };

    ghost sound = { λ f a is. absurd (none-some a is) };

    fn kind(&mut self, at: &FPath) -> Result<Kind, FolderFault> {
        let answer = if self.is_other(at) {
            Ok(Kind::Other)
        } else {
            self.folder.kind(at)
        };
        self.counted(answer)
    }

    fn list(&mut self, at: &FPath) -> Result<Vec<Entry>, FolderFault> {
        let mut answer = self.folder.list(at);
        if let Ok(entries) = &mut answer {
            self.mark_other(at, entries.as_mut_slice());
        }
        self.counted(answer)
    }

    fn read(&mut self, at: &FPath, start: u64, out: &mut [u8]) -> Result<usize, FolderFault> {
        let answer = self.folder.read(at, start, out);
        self.counted(answer)
    }

    fn make_dir(&mut self, at: &FPath) -> Result<(), FolderFault> {
        let answer = self.folder.make_dir(at);
        self.counted(answer)
    }

    fn create(&mut self, at: &FPath) -> Result<(), FolderFault> {
        let answer = self.folder.create(at);
        self.counted(answer)
    }

    fn append(&mut self, at: &FPath, piece: &[u8]) -> Result<(), FolderFault> {
        let answer = self.folder.append(at, piece);
        self.counted(answer)
    }

    fn sync(&mut self, at: &FPath) -> Result<(), FolderFault> {
        let answer = self.folder.sync(at);
        self.counted(answer)
    }

    fn settle(&mut self) -> Result<(), FolderFault> {
        let answer = self.folder.settle();
        self.counted(answer)
    }

    fn rename(&mut self, old: &FPath, new: &FPath) -> Result<(), FolderFault> {
        let answer = self.folder.rename(old, new);
        self.counted(answer)
    }

    fn remove_file(&mut self, at: &FPath) -> Result<(), FolderFault> {
        let answer = self.folder.remove_file(at);
        self.counted(answer)
    }

    fn remove_dir(&mut self, at: &FPath) -> Result<(), FolderFault> {
        let answer = self.folder.remove_dir(at);
        self.counted(answer)
    }
}
