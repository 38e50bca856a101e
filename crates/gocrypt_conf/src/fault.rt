//! Why a configuration is refused, and why no keys are unlocked.

ghost use Rattle.std.specs.Prelude.{Some};
ghost use Rattle.gocrypt_conf.specs.Fault.{fault_text};

use json_fields::FieldFault;
use std::alloc::AllocError;
use std::fmt;
use vault_values::Text;

/// Why a configuration is refused: the first of its tests that fails.
#[derive(PartialEq, Eq, Drop)]
pub enum GoConfFault {
    /// The bytes are no JSON object.
    NotJson,
    /// The field of this name is missing or has another form.
    Field(Text),
    /// The version isn't 2.
    Version(u64),
    /// This flag is unknown, or it is missing.
    Flag(Text),
    /// scrypt's three numbers are no cost.
    Cost,
    /// The field of this name has another length.
    Length(Text),
    /// Memory was refused.
    NoMemory,
}

impl From<AllocError> for GoConfFault {
    ghost use Rattle.std.specs.Prelude.{◌≡◌};
    ghost use Rattle.gocrypt_conf.specs.declared.fault.GoConfFault.TheVariants.{NoMemory};

    ghost from_gives = { λ _ fault. fault ≡ NoMemory };

    fn from(_error: AllocError) -> GoConfFault {
        GoConfFault::NoMemory
    }
}

impl From<FieldFault> for GoConfFault {
    ghost use Rattle.std.specs.Prelude.{◌≡◌};
    ghost use Rattle.gocrypt_conf.specs.Fault.{of_field};

    ghost from_gives = { λ field fault. fault ≡ of_field field };

    fn from(fault: FieldFault) -> GoConfFault {
        match fault {
            FieldFault::Wrong(name) => GoConfFault::Field(name),
            FieldFault::NoMemory => GoConfFault::NoMemory,
        }
    }
}

impl fmt::Display for GoConfFault {
    ghost output = { λ fault. Some (fault_text fault) };

    fn fmt<W: fmt::Write>(&self, f: &mut fmt::Formatter<W>) -> fmt::Result {
        match self {
            GoConfFault::NotJson => write!(f, "not JSON"),
            GoConfFault::Field(name) => write!(f, "field {name}"),
            GoConfFault::Version(version) => write!(f, "version {version}"),
            GoConfFault::Flag(flag) => write!(f, "flag {flag}"),
            GoConfFault::Cost => write!(f, "cost"),
            GoConfFault::Length(name) => write!(f, "length {name}"),
            GoConfFault::NoMemory => write!(f, "out of memory"),
        }
    }
}

/// Why no keys are unlocked.
#[derive(Clone, Copy, PartialEq, Eq)]
pub enum UnlockFault {
    /// The passphrase is another one.
    WrongPass,
    /// Memory was refused.
    NoMemory,
}

impl From<AllocError> for UnlockFault {
    ghost use Rattle.std.specs.Prelude.{◌≡◌};
    ghost use Rattle.gocrypt_conf.specs.declared.fault.UnlockFault.TheVariants.{NoMemory};

    ghost from_gives = { λ _ fault. fault ≡ NoMemory };

    fn from(_error: AllocError) -> UnlockFault {
        UnlockFault::NoMemory
    }
}
