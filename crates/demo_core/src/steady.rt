//! A folder in memory in which no call fails.
ghost use Rattle.std.specs.Prelude.{◌≡◌, IfOk, Some, None, []};
ghost use Rattle.folder_model.specs.Memory.{new_told, plan_of};

use folder_model::{Entry, FPath, Folder, MemFolder};
use folder_spec::{FolderFault, Kind};
use std::alloc::{AllocError, Global};

/// A folder in memory in which no call fails. It tells its state and its log.
#[derive(Drop)]
pub struct SteadyFolder {
    memory: MemFolder,
    ghost steady: { (plan_of memory).fails ≡ [] },
    ghost unstopped: { (plan_of memory).stop ≡ None },
}

impl SteadyFolder {
    /// An empty folder, with an empty log.
    pub fn new(alloc: Global) -> Result<SteadyFolder, AllocError>
        ensures { IfOk result (λ folder. ⟦<SteadyFolder as Folder>⟧.told folder ≡ Some new_told) }
    {
        let memory = MemFolder::new(alloc)?;
        Ok(SteadyFolder { memory })
    }
}

impl Folder for SteadyFolder {
    ghost use Rattle.std.specs.Prelude.{Some, map};
    ghost use Rattle.folder_model.specs.Calls.{event_of};
    ghost use Rattle.folder_model.specs.Sound.{told_from, told_sound};
    ghost use Rattle.folder_model.specs.Tables.{names_of};

    ghost told = { λ f. Some (told_from f.memory.nodes.items (names_of f.memory.base) f.memory.steps.items f.memory.kept (map event_of f.memory.log.items)) };

    ghost faults = { λ f. 0 };

    ghost sound = { λ f a is. told_sound f.memory.nodes.items (names_of f.memory.base) f.memory.steps.items f.memory.kept (map event_of f.memory.log.items) f.memory.fronts f.memory.sound a is };

    fn kind(&mut self, at: &FPath) -> Result<Kind, FolderFault> {
        self.memory.kind(at)
    }

    fn list(&mut self, at: &FPath) -> Result<Vec<Entry>, FolderFault> {
        self.memory.list(at)
    }

    fn read(&mut self, at: &FPath, start: u64, out: &mut [u8]) -> Result<usize, FolderFault> {
        self.memory.read(at, start, out)
    }

    fn make_dir(&mut self, at: &FPath) -> Result<(), FolderFault> {
        self.memory.make_dir(at)
    }

    fn create(&mut self, at: &FPath) -> Result<(), FolderFault> {
        self.memory.create(at)
    }

    fn append(&mut self, at: &FPath, piece: &[u8]) -> Result<(), FolderFault> {
        self.memory.append(at, piece)
    }

    fn sync(&mut self, at: &FPath) -> Result<(), FolderFault> {
        self.memory.sync(at)
    }

    fn settle(&mut self) -> Result<(), FolderFault> {
        self.memory.settle()
    }

    fn rename(&mut self, old: &FPath, new: &FPath) -> Result<(), FolderFault> {
        self.memory.rename(old, new)
    }

    fn remove_file(&mut self, at: &FPath) -> Result<(), FolderFault> {
        self.memory.remove_file(at)
    }

    fn remove_dir(&mut self, at: &FPath) -> Result<(), FolderFault> {
        self.memory.remove_dir(at)
    }
}
