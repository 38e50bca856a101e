//! Why a migration stops.
use content_writing::PutFault;
use folder_model::FPath;
use folder_spec::FolderFault;
use migration_sides::{Side, StepFault};
use move_journal::JournalFault;
use plain_tree::PlainPath;
use std::alloc::AllocError;
use tree_match::{MapFault, MatchFault, Where};
use vault_read::LoadFault;
use vault_walk::WalkFault;
use work_folder::WorkFault;

/// Why a migration stops. What it has placed so far stays, and `resume` goes on from there.
#[derive(Drop)]
pub enum MoveFault {
    /// The work folder isn't ready.
    Work(WorkFault),
    /// No journal was read.
    Journal(JournalFault),
    /// One of these folders is the other, or is in it.
    Overlap(FPath, FPath),
    /// This vault isn't opened.
    Load(Side, LoadFault),
    /// A vault isn't clean, or passes a limit.
    Walk(WalkFault),
    /// The target has an item already, at this path.
    NotEmpty(FPath),
    /// The last name of the item at this path of the source, mapped, is no name, or the target doesn't allow it.
    NotAllowed(PlainPath),
    /// The items at these two paths of the source come to one path.
    Meet(PlainPath, PlainPath),
    /// The source has changed: the digest of its plan and its number of items by the journal, and those that it has.
    Changed([u8; 32], u64, [u8; 32], u64),
    /// The two vaults aren't compared to the end.
    Match(MatchFault),
    /// An item of the target isn't so in the source.
    Differ(PlainPath, Where),
    /// An item isn't placed.
    Place(PutFault),
    /// All items are in the target, and the source is gone.
    SourceGone,
    /// The folder failed, in whichever call.
    Failed,
    NoMemory,
}

impl From<AllocError> for MoveFault {
    ghost use Rattle.std.specs.Prelude.{◌≡◌};
    ghost use Rattle.migrate_core.specs.declared.fault.MoveFault.TheVariants.{NoMemory};

    ghost from_gives = { λ _ fault. fault ≡ NoMemory };

    fn from(_fault: AllocError) -> MoveFault {
        MoveFault::NoMemory
    }
}

impl From<FolderFault> for MoveFault {
    ghost use Rattle.std.specs.Prelude.{◌≡◌};
    ghost use Rattle.migrate_core.specs.Faults.{of_folder};

    ghost from_gives = { λ fault result. result ≡ of_folder fault };

    fn from(fault: FolderFault) -> MoveFault {
        match fault {
            FolderFault::Failed => MoveFault::Failed,
            FolderFault::Refused => MoveFault::Failed,
            FolderFault::NoMemory => MoveFault::NoMemory,
        }
    }
}

impl From<WorkFault> for MoveFault {
    ghost use Rattle.std.specs.Prelude.{◌≡◌};
    ghost use Rattle.migrate_core.specs.Faults.{of_work};

    ghost from_gives = { λ fault result. result ≡ of_work fault };

    fn from(fault: WorkFault) -> MoveFault {
        match fault {
            WorkFault::Failed => MoveFault::Failed,
            WorkFault::NoMemory => MoveFault::NoMemory,
            fault => MoveFault::Work(fault),
        }
    }
}

impl From<JournalFault> for MoveFault {
    ghost use Rattle.std.specs.Prelude.{◌≡◌};
    ghost use Rattle.migrate_core.specs.Faults.{of_journal};

    ghost from_gives = { λ fault result. result ≡ of_journal fault };

    fn from(fault: JournalFault) -> MoveFault {
        match fault {
            JournalFault::Failed => MoveFault::Failed,
            JournalFault::NoMemory => MoveFault::NoMemory,
            fault => MoveFault::Journal(fault),
        }
    }
}

impl From<StepFault> for MoveFault {
    ghost use Rattle.std.specs.Prelude.{◌≡◌};
    ghost use Rattle.migrate_core.specs.Faults.{of_step};

    ghost from_gives = { λ fault result. result ≡ of_step fault };

    fn from(fault: StepFault) -> MoveFault {
        match fault {
            StepFault::Overlap(first, second) => MoveFault::Overlap(first, second),
            StepFault::Load(side, fault) => MoveFault::Load(side, fault),
            StepFault::Walk(fault) => MoveFault::Walk(fault),
            StepFault::Failed => MoveFault::Failed,
            StepFault::NoMemory => MoveFault::NoMemory,
        }
    }
}

impl From<MapFault> for MoveFault {
    ghost use Rattle.std.specs.Prelude.{◌≡◌};
    ghost use Rattle.migrate_core.specs.Faults.{of_map};

    ghost from_gives = { λ fault result. result ≡ of_map fault };

    fn from(fault: MapFault) -> MoveFault {
        match fault {
            MapFault::NotAName(path) => MoveFault::NotAllowed(path),
            MapFault::Meet(one, other) => MoveFault::Meet(one, other),
            MapFault::NoMemory => MoveFault::NoMemory,
        }
    }
}

impl From<MatchFault> for MoveFault {
    ghost use Rattle.std.specs.Prelude.{◌≡◌};
    ghost use Rattle.migrate_core.specs.Faults.{of_match};

    ghost from_gives = { λ fault result. result ≡ of_match fault };

    fn from(fault: MatchFault) -> MoveFault {
        match fault {
            MatchFault::Failed => MoveFault::Failed,
            MatchFault::NoMemory => MoveFault::NoMemory,
            fault => MoveFault::Match(fault),
        }
    }
}

impl From<PutFault> for MoveFault {
    ghost use Rattle.std.specs.Prelude.{◌≡◌};
    ghost use Rattle.migrate_core.specs.Faults.{of_put};

    ghost from_gives = { λ fault result. result ≡ of_put fault };

    fn from(fault: PutFault) -> MoveFault {
        match fault {
            PutFault::Failed => MoveFault::Failed,
            PutFault::NoMemory => MoveFault::NoMemory,
            fault => MoveFault::Place(fault),
        }
    }
}
