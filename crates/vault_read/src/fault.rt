//! Why a vault isn't opened.
use cryptomator_conf::CmConfFault;
use folder_model::FPath;
use folder_spec::FolderFault;
use gocrypt_conf::GoConfFault;
use std::alloc::AllocError;

/// Why a folder and a passphrase are no vault: the first test that fails.
#[derive(Drop)]
pub enum LoadFault {
    /// Nothing stands at this path.
    Missing(FPath),
    /// Something of another kind stands at this path.
    WrongKind(FPath),
    /// The file at this path has more than 65,536 bytes.
    TooLarge(FPath),
    /// `gocryptfs.conf` is refused.
    Go(GoConfFault),
    /// The file at this path, of a Cryptomator vault, is refused.
    Cm(FPath, CmConfFault),
    /// The passphrase unlocks no keys.
    WrongPass,
    /// The signature of `vault.cryptomator` isn't the keys'.
    BadSignature,
    /// The folder failed.
    Failed,
    NoMemory,
}

impl From<AllocError> for LoadFault {
    ghost use Rattle.std.specs.Prelude.{◌≡◌};
    ghost use Rattle.vault_read.specs.declared.fault.LoadFault.TheVariants.{NoMemory};

    ghost from_gives = { λ _ fault. fault ≡ NoMemory };

    fn from(_fault: AllocError) -> LoadFault {
        LoadFault::NoMemory
    }
}

impl From<FolderFault> for LoadFault {
    ghost use Rattle.std.specs.Prelude.{◌≡◌};
    ghost use Rattle.vault_read.specs.Loading.{of_folder};

    ghost from_gives = { λ fault result. result ≡ of_folder fault };

    fn from(fault: FolderFault) -> LoadFault {
        match fault {
            FolderFault::Failed => LoadFault::Failed,
            FolderFault::Refused => LoadFault::Failed,
            FolderFault::NoMemory => LoadFault::NoMemory,
        }
    }
}
