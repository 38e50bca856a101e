//! Why a work folder is not ready.
use folder_model::FPath;
use folder_spec::FolderFault;
use folder_staging::RemovalFault;
use std::alloc::AllocError;

/// Why a work folder is not ready.
#[derive(PartialEq, Drop)]
pub enum WorkFault {
    /// Nothing stands at this path, where the work folder's parent is to be.
    NoParent(FPath),
    /// What stands at this path is to be a directory, and is none.
    WrongKind(FPath),
    /// What stands at this path has no place in a work folder.
    Foreign(FPath),
    /// A journal stands in the work folder.
    Begun,
    /// Something stands deeper than 128 parts below the stage.
    Depth,
    /// A call of the folder failed.
    Failed,
    NoMemory,
}

impl From<AllocError> for WorkFault {
    ghost use Rattle.std.specs.Prelude.{◌≡◌};
    ghost use Rattle.work_folder.specs.declared.fault.WorkFault.TheVariants.{NoMemory};

    ghost from_gives = { λ _ result. result ≡ NoMemory };

    fn from(_fault: AllocError) -> WorkFault {
        WorkFault::NoMemory
    }
}

impl From<FolderFault> for WorkFault {
    ghost use Rattle.std.specs.Prelude.{◌≡◌};
    ghost use Rattle.work_folder.specs.Faults.{fault_of};

    ghost from_gives = { λ fault result. result ≡ fault_of fault };

    fn from(fault: FolderFault) -> WorkFault {
        match fault {
            FolderFault::Failed => WorkFault::Failed,
            FolderFault::Refused => WorkFault::Failed,
            FolderFault::NoMemory => WorkFault::NoMemory,
        }
    }
}

impl From<RemovalFault> for WorkFault {
    ghost use Rattle.std.specs.Prelude.{◌≡◌};
    ghost use Rattle.work_folder.specs.Faults.{removal_fault};

    ghost from_gives = { λ fault result. result ≡ removal_fault fault };

    fn from(fault: RemovalFault) -> WorkFault {
        match fault {
            RemovalFault::Depth => WorkFault::Depth,
            RemovalFault::Other(at) => WorkFault::Foreign(at),
            RemovalFault::Failed => WorkFault::Failed,
            RemovalFault::NoMemory => WorkFault::NoMemory,
        }
    }
}
