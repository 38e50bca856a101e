//! Why a step refuses that the commands of a migration share.
use folder_model::FPath;
use std::alloc::AllocError;
use vault_read::LoadFault;
use vault_walk::WalkFault;

/// Either vault of a migration.
#[derive(Clone, Copy, PartialEq, Eq)]
pub enum Side {
    Source,
    Target,
}

/// Why a step refuses. Each command tells it by its own fault.
#[derive(Drop)]
pub enum StepFault {
    /// One of these folders is the other, or is in it.
    Overlap(FPath, FPath),
    /// This vault isn't opened.
    Load(Side, LoadFault),
    /// A vault isn't clean, or passes a limit.
    Walk(WalkFault),
    /// The folder failed, in whichever call.
    Failed,
    NoMemory,
}

impl From<AllocError> for StepFault {
    ghost use Rattle.std.specs.Prelude.{◌≡◌};
    ghost use Rattle.migration_sides.specs.declared.fault.StepFault.TheVariants.{NoMemory};

    ghost from_gives = { λ _ fault. fault ≡ NoMemory };

    fn from(_fault: AllocError) -> StepFault {
        StepFault::NoMemory
    }
}

impl From<WalkFault> for StepFault {
    ghost use Rattle.std.specs.Prelude.{◌≡◌};
    ghost use Rattle.migration_sides.specs.Faults.{of_walk};

    ghost from_gives = { λ fault result. result ≡ of_walk fault };

    fn from(fault: WalkFault) -> StepFault {
        match fault {
            WalkFault::Failed => StepFault::Failed,
            WalkFault::NoMemory => StepFault::NoMemory,
            fault => StepFault::Walk(fault),
        }
    }
}
