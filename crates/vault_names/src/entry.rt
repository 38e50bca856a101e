//! What is stored of a name.
use std::alloc::AllocError;
use vault_values::Text;

/// What is stored of a name: the entry's name and, for a long name, the text of its long-name file.
#[derive(PartialEq, Eq, Drop)]
pub struct Stored {
    pub name: Text,
    pub full: Option<Text>,
}

/// Why a text gave no name.
#[derive(Clone, Copy, PartialEq, Eq)]
pub enum NameFault {
    /// No name encrypts to the text.
    NotStored,
    /// Memory was refused.
    NoMemory,
}

impl From<AllocError> for NameFault {
    ghost use Rattle.std.specs.Prelude.{◌≡◌};
    ghost use Rattle.vault_names.specs.declared.entry.NameFault.TheVariants.{NoMemory};

    ghost from_gives = { λ _ fault. fault ≡ NoMemory };

    fn from(_error: AllocError) -> NameFault {
        NameFault::NoMemory
    }
}
