//! Why a source isn't retired.
use folder_model::FPath;
use folder_spec::FolderFault;
use folder_staging::RemovalFault;
use migration_sides::{Side, StepFault};
use move_journal::JournalFault;
use plain_tree::PlainPath;
use std::alloc::AllocError;
use tree_match::{MapFault, MatchFault, Where};
use vault_read::LoadFault;
use vault_walk::WalkFault;
use work_folder::WorkFault;

/// Why a source isn't retired, or not to the end. `retire` may be called again.
#[derive(Drop)]
pub enum RetireFault {
    /// What stands in the work folder has no place there.
    Work(WorkFault),
    /// No journal was read.
    Journal(JournalFault),
    /// The journal says that items are still being placed.
    Unfinished,
    /// One of these folders is the other, or is in it.
    Overlap(FPath, FPath),
    /// This vault isn't opened.
    Load(Side, LoadFault),
    /// A vault isn't clean, or passes a limit.
    Walk(WalkFault),
    /// A name of the item at this path of the source, mapped, is no name.
    NotAllowed(PlainPath),
    /// The items at these two paths of the source come to one path.
    Meet(PlainPath, PlainPath),
    /// The two vaults aren't compared to the end.
    Match(MatchFault),
    /// An item of the source isn't so in the target.
    Differ(PlainPath, Where),
    /// What is to be removed has something deeper than 128 parts below it.
    Depth,
    /// The folder failed, in whichever call.
    Failed,
    NoMemory,
}

impl From<AllocError> for RetireFault {
    ghost use Rattle.std.specs.Prelude.{◌≡◌};
    ghost use Rattle.retire_core.specs.declared.fault.RetireFault.TheVariants.{NoMemory};

    ghost from_gives = { λ _ fault. fault ≡ NoMemory };

    fn from(_fault: AllocError) -> RetireFault {
        RetireFault::NoMemory
    }
}

impl From<FolderFault> for RetireFault {
    ghost use Rattle.std.specs.Prelude.{◌≡◌};
    ghost use Rattle.retire_core.specs.Faults.{of_folder};

    ghost from_gives = { λ fault result. result ≡ of_folder fault };

    fn from(fault: FolderFault) -> RetireFault {
        match fault {
            FolderFault::Failed => RetireFault::Failed,
            FolderFault::Refused => RetireFault::Failed,
            FolderFault::NoMemory => RetireFault::NoMemory,
        }
    }
}

impl From<RemovalFault> for RetireFault {
    ghost use Rattle.std.specs.Prelude.{◌≡◌};
    ghost use Rattle.retire_core.specs.Faults.{of_removal};

    ghost from_gives = { λ fault result. result ≡ of_removal fault };

    fn from(fault: RemovalFault) -> RetireFault {
        match fault {
            RemovalFault::Depth => RetireFault::Depth,
            RemovalFault::Other(at) => RetireFault::Work(WorkFault::Foreign(at)),
            RemovalFault::Failed => RetireFault::Failed,
            RemovalFault::NoMemory => RetireFault::NoMemory,
        }
    }
}

impl From<WorkFault> for RetireFault {
    ghost use Rattle.std.specs.Prelude.{◌≡◌};
    ghost use Rattle.retire_core.specs.Faults.{of_work};

    ghost from_gives = { λ fault result. result ≡ of_work fault };

    fn from(fault: WorkFault) -> RetireFault {
        match fault {
            WorkFault::Failed => RetireFault::Failed,
            WorkFault::NoMemory => RetireFault::NoMemory,
            fault => RetireFault::Work(fault),
        }
    }
}

impl From<JournalFault> for RetireFault {
    ghost use Rattle.std.specs.Prelude.{◌≡◌};
    ghost use Rattle.retire_core.specs.Faults.{of_journal};

    ghost from_gives = { λ fault result. result ≡ of_journal fault };

    fn from(fault: JournalFault) -> RetireFault {
        match fault {
            JournalFault::Failed => RetireFault::Failed,
            JournalFault::NoMemory => RetireFault::NoMemory,
            fault => RetireFault::Journal(fault),
        }
    }
}

impl From<StepFault> for RetireFault {
    ghost use Rattle.std.specs.Prelude.{◌≡◌};
    ghost use Rattle.retire_core.specs.Faults.{of_step};

    ghost from_gives = { λ fault result. result ≡ of_step fault };

    fn from(fault: StepFault) -> RetireFault {
        match fault {
            StepFault::Overlap(first, second) => RetireFault::Overlap(first, second),
            StepFault::Load(side, fault) => RetireFault::Load(side, fault),
            StepFault::Walk(fault) => RetireFault::Walk(fault),
            StepFault::Failed => RetireFault::Failed,
            StepFault::NoMemory => RetireFault::NoMemory,
        }
    }
}

impl From<MapFault> for RetireFault {
    ghost use Rattle.std.specs.Prelude.{◌≡◌};
    ghost use Rattle.retire_core.specs.Faults.{of_map};

    ghost from_gives = { λ fault result. result ≡ of_map fault };

    fn from(fault: MapFault) -> RetireFault {
        match fault {
            MapFault::NotAName(path) => RetireFault::NotAllowed(path),
            MapFault::Meet(one, other) => RetireFault::Meet(one, other),
            MapFault::NoMemory => RetireFault::NoMemory,
        }
    }
}

impl From<MatchFault> for RetireFault {
    ghost use Rattle.std.specs.Prelude.{◌≡◌};
    ghost use Rattle.retire_core.specs.Faults.{of_match};

    ghost from_gives = { λ fault result. result ≡ of_match fault };

    fn from(fault: MatchFault) -> RetireFault {
        match fault {
            MatchFault::Failed => RetireFault::Failed,
            MatchFault::NoMemory => RetireFault::NoMemory,
            fault => RetireFault::Match(fault),
        }
    }
}
