//! Why a passphrase isn't changed.
use folder_spec::FolderFault;
use std::alloc::AllocError;
use vault_read::LoadFault;

/// Why a passphrase isn't changed.
#[derive(Drop)]
pub enum PassFault {
    /// The root and the old passphrase are no vault.
    Load(LoadFault),
    /// The drawn nonce is zeros.
    ZeroRandom,
    /// The random source failed.
    Random,
    /// The folder failed.
    Failed,
    NoMemory,
}

impl From<AllocError> for PassFault {
    ghost use Rattle.std.specs.Prelude.{◌≡◌};
    ghost use Rattle.passwd_core.specs.declared.fault.PassFault.TheVariants.{NoMemory};

    ghost from_gives = { λ _ fault. fault ≡ NoMemory };

    fn from(_fault: AllocError) -> PassFault {
        PassFault::NoMemory
    }
}

impl From<LoadFault> for PassFault {
    ghost use Rattle.std.specs.Prelude.{◌≡◌};
    ghost use Rattle.passwd_core.specs.Faults.{of_load};

    ghost from_gives = { λ fault result. result ≡ of_load fault };

    fn from(fault: LoadFault) -> PassFault {
        match fault {
            LoadFault::Failed => PassFault::Failed,
            LoadFault::NoMemory => PassFault::NoMemory,
            fault => PassFault::Load(fault),
        }
    }
}

impl From<FolderFault> for PassFault {
    ghost use Rattle.std.specs.Prelude.{◌≡◌};
    ghost use Rattle.passwd_core.specs.Faults.{of_folder};

    ghost from_gives = { λ fault result. result ≡ of_folder fault };

    fn from(fault: FolderFault) -> PassFault {
        match fault {
            FolderFault::Failed => PassFault::Failed,
            FolderFault::Refused => PassFault::Failed,
            FolderFault::NoMemory => PassFault::NoMemory,
        }
    }
}
