//! Why a field isn't read.

ghost use Rattle.std.specs.Prelude.{◌≡◌, ◌⊎◌};

use std::alloc::{AllocError, Global};
use vault_values::Text;

/// Why a field isn't read.
#[derive(PartialEq, Eq, Drop)]
pub enum FieldFault {
    /// The field of this name is missing or has another form.
    Wrong(Text),
    /// Memory was refused.
    NoMemory,
}

impl From<AllocError> for FieldFault {
    ghost use Rattle.std.specs.Prelude.{◌≡◌};
    ghost use Rattle.json_fields.specs.declared.fault.FieldFault.TheVariants.{NoMemory};

    ghost from_gives = { λ _ fault. fault ≡ NoMemory };

    fn from(_error: AllocError) -> FieldFault {
        FieldFault::NoMemory
    }
}

// The fault of the field of this name.
pub(crate) fn wrong(alloc: Global, name: &str) -> FieldFault
    ensures { (result ≡ FieldFault.NoMemory) ⊎ (result ≡ FieldFault.Wrong name.now) }
{
    match Text::copy_of(alloc, name) {
        Ok(name) => FieldFault::Wrong(name),
        Err(_) => FieldFault::NoMemory,
    }
}
