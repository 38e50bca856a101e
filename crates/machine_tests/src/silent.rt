//! A folder that tells nothing.
ghost use Rattle.std.specs.Prelude.{◌≡◌};
ghost use Rattle.port_model.specs.Counts.{CountRose, IsCounted};

use crate::doing::{Doing, Step, play};
use folder_model::{Entry, FPath, Folder, FolderFault, Kind};
use std::test::Fail;

/// A folder that tells neither its state nor its log, as one on a disk. It finds nothing at any path, refuses to list
/// it, and fails at all other calls.
#[derive(Drop)]
pub struct Silent {
    pub faults: u64,
}

impl Silent {
    fn count_fault(&mut self)
        ensures { IsCounted self.old.faults self.new.faults × CountRose self.old.faults self.new.faults }
    {
        self.faults = self.faults.saturating_add(1);
    }

    fn fail(&mut self) -> Result<(), FolderFault>
        ensures failed { result ≡ Err FolderFault.Failed }
        ensures risen { IsCounted self.old.faults self.new.faults × CountRose self.old.faults self.new.faults }
    {
        self.count_fault();
        Err(FolderFault::Failed)
    }
}

impl Folder for Silent {
    ghost use Rattle.std.specs.Prelude.{None};
    ghost use Rattle.std.proofs.lemmas.Option.{none-some};

    ghost told = { λ folder. None };

    ghost faults = { λ folder. folder.faults };

    ghost sound = { λ folder a is. absurd (none-some a is) };

    fn kind(&mut self, _at: &FPath) -> Result<Kind, FolderFault> {
        let _before = self.faults;
        Ok(Kind::Missing)
    }

    fn list(&mut self, _at: &FPath) -> Result<Vec<Entry>, FolderFault> {
        self.count_fault();
        Err(FolderFault::Refused)
    }

    fn read(&mut self, _at: &FPath, _start: u64, _out: &mut [u8]) -> Result<usize, FolderFault> {
        self.count_fault();
        Err(FolderFault::Failed)
    }

    fn make_dir(&mut self, _at: &FPath) -> Result<(), FolderFault> {
        self.fail()
    }

    fn create(&mut self, _at: &FPath) -> Result<(), FolderFault> {
        self.fail()
    }

    fn append(&mut self, _at: &FPath, _piece: &[u8]) -> Result<(), FolderFault> {
        self.fail()
    }

    fn sync(&mut self, _at: &FPath) -> Result<(), FolderFault> {
        self.fail()
    }

    fn settle(&mut self) -> Result<(), FolderFault> {
        self.fail()
    }

    fn rename(&mut self, _old: &FPath, _new: &FPath) -> Result<(), FolderFault> {
        self.fail()
    }

    fn remove_file(&mut self, _at: &FPath) -> Result<(), FolderFault> {
        self.fail()
    }

    fn remove_dir(&mut self, _at: &FPath) -> Result<(), FolderFault> {
        self.fail()
    }
}

const FAILED: Option<FolderFault> = Some(FolderFault::Failed);

const STEPS: [Step; 11] = [
    (Doing::Kind, "f", None),
    (Doing::List, "f", Some(FolderFault::Refused)),
    (Doing::Read, "f", FAILED),
    (Doing::MakeDir, "f", FAILED),
    (Doing::Create, "f", FAILED),
    (Doing::Append, "f", FAILED),
    (Doing::Sync, "f", FAILED),
    (Doing::Settle, "f", FAILED),
    (Doing::Rename("g"), "f", FAILED),
    (Doing::RemoveFile, "f", FAILED),
    (Doing::RemoveDir, "f", FAILED),
];

#[test]
fn a_folder_may_tell_nothing(rt: HostRuntime) -> Result<(), Fail> {
    let mut folder = Silent { faults: 0 };
    play(&rt, rt.alloc(), &mut folder, &STEPS)?;
    assert_eq!(rt; folder.faults, 10);
    Ok(())
}
