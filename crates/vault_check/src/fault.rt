//! Why a vault isn't checked, or isn't repaired.
use folder_spec::FolderFault;
use std::alloc::AllocError;
use vault_faults::Limit;
use vault_walk::WalkFault;

/// Why a vault isn't checked, or isn't repaired.
#[derive(Drop)]
pub enum CheckFault {
    /// The vault is too deep or has too many items, or the content file at a path is too long.
    Limit(Limit),
    /// The folder failed.
    Failed,
    NoMemory,
}

impl From<AllocError> for CheckFault {
    ghost use Rattle.std.specs.Prelude.{◌≡◌};
    ghost use Rattle.vault_check.specs.declared.fault.CheckFault.TheVariants.{NoMemory};

    ghost from_gives = { λ _ fault. fault ≡ NoMemory };

    fn from(_fault: AllocError) -> CheckFault {
        CheckFault::NoMemory
    }
}

impl From<FolderFault> for CheckFault {
    ghost use Rattle.std.specs.Prelude.{◌≡◌};
    ghost use Rattle.vault_check.specs.Answers.{of_folder};

    ghost from_gives = { λ fault result. result ≡ of_folder fault };

    fn from(fault: FolderFault) -> CheckFault {
        match fault {
            FolderFault::Failed => CheckFault::Failed,
            FolderFault::Refused => CheckFault::Failed,
            FolderFault::NoMemory => CheckFault::NoMemory,
        }
    }
}

// A survey never answers that a vault isn't clean.
impl From<WalkFault> for CheckFault {
    ghost use Rattle.std.specs.Prelude.{◌≡◌};
    ghost use Rattle.vault_check.specs.Answers.{of_walk};

    ghost from_gives = { λ fault result. result ≡ of_walk fault };

    fn from(fault: WalkFault) -> CheckFault {
        match fault {
            WalkFault::Limit(limit) => CheckFault::Limit(limit),
            WalkFault::Failed => CheckFault::Failed,
            WalkFault::NoMemory => CheckFault::NoMemory,
            WalkFault::NotClean(_) => CheckFault::NoMemory,
        }
    }
}
