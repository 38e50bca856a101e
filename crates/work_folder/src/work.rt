//! A work folder that is ready.
ghost use Rattle.std.specs.Prelude.{◌≡◌};

use crate::changing::{prepare, restage};
use crate::fault::WorkFault;
use crate::looking::{look_from_parent, look_inside};
use folder_model::{FPath, Folder};
use std::marker::Model;

/// A work folder that was ready when it was entered: its `stage` was a directory without entries.
///
/// Contracts see it as its path.
#[derive(Drop)]
pub struct Work {
    at: FPath,
}

impl Model for Work {
    ghost use Rattle.std.specs.Prelude.{ℕ, List};

    ghost Value = { List (List ℕ) };

    ghost view = { λ work. work.at };
}

impl Work {
    ghost use Rattle.std.specs.Prelude.{◌≡◌, ◌⊎◌, IfOk};
    ghost use Rattle.folder_spec.specs.View.{Folder, NoEntry};
    ghost use Rattle.folder_spec.specs.Seen.{IfSeen};
    ghost use Rattle.work_folder.specs.Entries.{stage_path};
    ghost use Rattle.work_folder.specs.Looking.{Looks, Tests, TestsEntries};
    ghost use Rattle.work_folder.specs.Entering.{Enters, Restages};

    /// Its path. Takes no memory.
    pub fn at(&self) -> &FPath
        ensures { result.now ≡ self.now }
    {
        &self.at
    }

    /// Makes the tests of `enter` and no changes.
    ///
    /// The tests, in their order: the parent is a directory; the work folder is Missing or a directory;
    /// no file `journal` stands in it; no entry is foreign.
    pub fn look<F: Folder>(folder: &mut F, at: &FPath) -> Result<(), WorkFault>
        ensures { Looks (λ v answer. Tests v at.now answer) (F.told folder.old) (F.told folder.new) (F.faults folder.old) (F.faults folder.new) result }
    {
        look_from_parent(folder, at)
    }

    /// Makes a work folder ready, where the tests of `look` pass.
    ///
    /// It is made where it is Missing. `journal.new` and everything under `stage` are removed, and `stage`
    /// is made where it is Missing. The changes are still pending afterwards.
    pub fn enter<F: Folder>(folder: &mut F, at: &FPath) -> Result<Work, WorkFault>
        ensures path { IfOk result (λ work. work ≡ at.now) }
        ensures enters { Enters at.now (F.told folder.old) (F.told folder.new) (F.faults folder.old) (F.faults folder.new) result }
    {
        let work = Work { at: at.copy()? };
        look_from_parent(folder, at)?;
        prepare(folder, at)?;
        restage(folder, at)?;
        Ok(work)
    }

    /// Tests the entries of a work folder that has a journal. The directory `old` has its place there
    /// where `old` says so.
    pub fn look_again<F: Folder>(folder: &mut F, at: &FPath, old: bool) -> Result<(), WorkFault>
        requires { IfSeen (F.told folder.old) (λ v. v at.now ≡ Folder) }
        ensures { Looks (λ v answer. TestsEntries old v at.now answer) (F.told folder.old) (F.told folder.new) (F.faults folder.old) (F.faults folder.new) result }
    {
        look_inside(folder, at, old)
    }

    /// Makes `stage` ready in a work folder that has a journal: removes everything under it, and makes it
    /// where it is Missing.
    pub fn again<F: Folder>(folder: &mut F, at: &FPath) -> Result<Work, WorkFault>
        requires folder { IfSeen (F.told folder.old) (λ v. v at.now ≡ Folder) }
        requires stage { IfSeen (F.told folder.old) (λ v. (v (stage_path at.now) ≡ NoEntry) ⊎ (v (stage_path at.now) ≡ Folder)) }
        ensures path { IfOk result (λ work. work ≡ at.now) }
        ensures restages { Restages at.now (F.told folder.old) (F.told folder.new) (F.faults folder.old) (F.faults folder.new) result }
    {
        let work = Work { at: at.copy()? };
        restage(folder, at)?;
        Ok(work)
    }
}
