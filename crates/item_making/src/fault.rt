//! Why an item isn't made.
use chunk_files::{ChunkFault, EncodeFault};
use folder_model::FPath;
use folder_spec::FolderFault;
use plain_tree::PlainPath;
use std::alloc::AllocError;
use vault_faults::{CatFault, FindFault, Limit};

/// Why an item isn't made.
#[derive(Drop)]
pub enum PutFault {
    /// The directory that is to have it isn't found or isn't entered.
    Find(FindFault),
    /// The vault allows no such name.
    NotAllowed(PlainPath),
    /// Something stands at this path.
    Taken(FPath),
    /// The content file at this path, which is read, has this fault.
    Damaged(FPath, ChunkFault),
    Limit(Limit),
    /// Sixteen zero bytes were drawn, where these are refused.
    ZeroRandom,
    /// The source of the content failed.
    Source,
    /// The random source failed.
    Random,
    /// The folder failed.
    Failed,
    NoMemory,
}

impl From<AllocError> for PutFault {
    ghost use Rattle.std.specs.Prelude.{◌≡◌};
    ghost use Rattle.item_making.specs.declared.fault.PutFault.TheVariants.{NoMemory};

    ghost from_gives = { λ _ fault. fault ≡ NoMemory };

    fn from(_fault: AllocError) -> PutFault {
        PutFault::NoMemory
    }
}

impl From<FolderFault> for PutFault {
    ghost use Rattle.std.specs.Prelude.{◌≡◌};
    ghost use Rattle.item_making.specs.Faults.{of_folder};

    ghost from_gives = { λ fault result. result ≡ of_folder fault };

    fn from(fault: FolderFault) -> PutFault {
        match fault {
            FolderFault::Failed => PutFault::Failed,
            FolderFault::Refused => PutFault::Failed,
            FolderFault::NoMemory => PutFault::NoMemory,
        }
    }
}

impl From<FindFault> for PutFault {
    ghost use Rattle.std.specs.Prelude.{◌≡◌};
    ghost use Rattle.item_making.specs.Faults.{of_find};

    ghost from_gives = { λ fault result. result ≡ of_find fault };

    fn from(fault: FindFault) -> PutFault {
        match fault {
            FindFault::Failed => PutFault::Failed,
            FindFault::NoMemory => PutFault::NoMemory,
            fault => PutFault::Find(fault),
        }
    }
}

impl From<CatFault> for PutFault {
    ghost use Rattle.std.specs.Prelude.{◌≡◌};
    ghost use Rattle.item_making.specs.Faults.{of_cat};

    ghost from_gives = { λ fault result. result ≡ of_cat fault };

    fn from(fault: CatFault) -> PutFault {
        match fault {
            CatFault::Find(fault) => PutFault::from(fault),
            CatFault::Damaged(at, fault) => PutFault::Damaged(at, fault),
            CatFault::Limit(limit) => PutFault::Limit(limit),
            CatFault::Sink => PutFault::Failed,
            CatFault::Failed => PutFault::Failed,
            CatFault::NoMemory => PutFault::NoMemory,
        }
    }
}

impl From<EncodeFault> for PutFault {
    ghost use Rattle.std.specs.Prelude.{◌≡◌};
    ghost use Rattle.item_making.specs.Faults.{of_encoding};

    ghost from_gives = { λ fault result. result ≡ of_encoding fault };

    fn from(fault: EncodeFault) -> PutFault {
        match fault {
            EncodeFault::Random => PutFault::Random,
            EncodeFault::ZeroRandom => PutFault::ZeroRandom,
        }
    }
}
