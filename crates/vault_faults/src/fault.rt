//! Why a plain path isn't found, why a content isn't read to its end, and which limit is passed.
use chunk_files::ChunkFault;
use folder_model::FPath;
use folder_spec::FolderFault;
use plain_tree::PlainPath;
use std::alloc::AllocError;

/// Why a plain path isn't found, or isn't entered.
#[derive(Drop)]
pub enum FindFault {
    /// Nothing stands at this path.
    NotFound(PlainPath),
    /// What stands at this path is no item, or is a file where a directory is to be.
    WrongKind(PlainPath),
    /// The directory whose entry is at this path has no key.
    NoDirKey(FPath),
    /// The directory whose entry is at this path has no folder.
    NoFolder(FPath),
    /// The folder failed.
    Failed,
    NoMemory,
}

impl From<AllocError> for FindFault {
    ghost use Rattle.std.specs.Prelude.{◌≡◌};
    ghost use Rattle.vault_faults.specs.declared.fault.FindFault.TheVariants.{NoMemory};

    ghost from_gives = { λ _ fault. fault ≡ NoMemory };

    fn from(_fault: AllocError) -> FindFault {
        FindFault::NoMemory
    }
}

impl From<FolderFault> for FindFault {
    ghost use Rattle.std.specs.Prelude.{◌≡◌};
    ghost use Rattle.vault_faults.specs.Finding.{of_folder};

    ghost from_gives = { λ fault result. result ≡ of_folder fault };

    fn from(fault: FolderFault) -> FindFault {
        match fault {
            FolderFault::Failed => FindFault::Failed,
            FolderFault::Refused => FindFault::Failed,
            FolderFault::NoMemory => FindFault::NoMemory,
        }
    }
}

/// A limit that was passed.
#[derive(Drop)]
pub enum Limit {
    /// The depth of a plain path.
    Depth,
    /// The number of items.
    Items,
    /// The length of the content file at this path.
    Length(FPath),
    /// The length of an input.
    Input,
}

/// Why a content isn't read to its end.
#[derive(Drop)]
pub enum CatFault {
    /// No file was found.
    Find(FindFault),
    /// The content file at this path has this fault.
    Damaged(FPath, ChunkFault),
    Limit(Limit),
    /// The output failed.
    Sink,
    /// The folder failed.
    Failed,
    NoMemory,
}

impl From<AllocError> for CatFault {
    ghost use Rattle.std.specs.Prelude.{◌≡◌};
    ghost use Rattle.vault_faults.specs.declared.fault.CatFault.TheVariants.{NoMemory};

    ghost from_gives = { λ _ fault. fault ≡ NoMemory };

    fn from(_fault: AllocError) -> CatFault {
        CatFault::NoMemory
    }
}

impl From<FolderFault> for CatFault {
    ghost use Rattle.std.specs.Prelude.{◌≡◌};
    ghost use Rattle.vault_faults.specs.Contents.{of_folder};

    ghost from_gives = { λ fault result. result ≡ of_folder fault };

    fn from(fault: FolderFault) -> CatFault {
        match fault {
            FolderFault::Failed => CatFault::Failed,
            FolderFault::Refused => CatFault::Failed,
            FolderFault::NoMemory => CatFault::NoMemory,
        }
    }
}

impl From<FindFault> for CatFault {
    ghost use Rattle.std.specs.Prelude.{◌≡◌};
    ghost use Rattle.vault_faults.specs.Contents.{of_find};

    ghost from_gives = { λ fault result. result ≡ of_find fault };

    fn from(fault: FindFault) -> CatFault {
        match fault {
            FindFault::Failed => CatFault::Failed,
            FindFault::NoMemory => CatFault::NoMemory,
            fault => CatFault::Find(fault),
        }
    }
}
