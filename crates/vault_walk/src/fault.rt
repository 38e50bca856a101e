//! What a walk answers in place of a plan.
use chunk_files::ChunkFault;
use folder_model::FPath;
use folder_spec::FolderFault;
use std::alloc::AllocError;
use vault_faults::Limit;

/// A finding: its path in the folder, its number, and the fault of a damaged content.
#[derive(Drop)]
pub struct Finding {
    pub at: FPath,
    pub number: u8,
    pub fault: Option<ChunkFault>,
}

/// Why a walk gives no plan.
#[derive(Drop)]
pub enum WalkFault {
    /// The vault isn't clean. This is the first finding.
    NotClean(Finding),
    /// The vault is too deep, or has too many items.
    Limit(Limit),
    /// The folder failed.
    Failed,
    NoMemory,
}

impl From<AllocError> for WalkFault {
    ghost use Rattle.std.specs.Prelude.{◌≡◌};
    ghost use Rattle.vault_walk.specs.declared.fault.WalkFault.TheVariants.{NoMemory};

    ghost from_gives = { λ _ fault. fault ≡ NoMemory };

    fn from(_fault: AllocError) -> WalkFault {
        WalkFault::NoMemory
    }
}

impl From<FolderFault> for WalkFault {
    ghost use Rattle.std.specs.Prelude.{◌≡◌};
    ghost use Rattle.vault_walk.specs.Answers.{of_folder};

    ghost from_gives = { λ fault result. result ≡ of_folder fault };

    fn from(fault: FolderFault) -> WalkFault {
        match fault {
            FolderFault::Failed => WalkFault::Failed,
            FolderFault::Refused => WalkFault::Failed,
            FolderFault::NoMemory => WalkFault::NoMemory,
        }
    }
}
