//! Why a configuration is refused, why no keys are unlocked, and why a signature is refused.

ghost use Rattle.std.specs.Prelude.{Some, codes};
ghost use Rattle.cryptomator_conf.specs.Fault.{fault_text};

use json_fields::FieldFault;
use std::alloc::AllocError;
use std::fmt;
use vault_values::Text;

/// Why a configuration is refused: the first of its tests that fails.
#[derive(PartialEq, Eq, Drop)]
pub enum CmConfFault {
    /// The bytes are no JSON object.
    NotJson,
    /// The bytes are no token of three parts, the first two of JSON objects.
    NotJwt,
    /// The field of this name is missing or has another form.
    Field(Text),
    /// The signature's algorithm is another one.
    Alg(Text),
    /// The key's id is another one.
    Kid(Text),
    /// The vault's format isn't 8.
    Format(u64),
    /// The ciphers are others.
    Combo(Text),
    /// The threshold isn't 36 to 1,000.
    Threshold(u64),
    /// scrypt's numbers are no cost.
    Cost,
    /// Memory was refused.
    NoMemory,
}

impl From<AllocError> for CmConfFault {
    ghost use Rattle.std.specs.Prelude.{◌≡◌};
    ghost use Rattle.cryptomator_conf.specs.declared.fault.CmConfFault.TheVariants.{NoMemory};

    ghost from_gives = { λ _ fault. fault ≡ NoMemory };

    fn from(_error: AllocError) -> CmConfFault {
        CmConfFault::NoMemory
    }
}

impl From<FieldFault> for CmConfFault {
    ghost use Rattle.std.specs.Prelude.{◌≡◌};
    ghost use Rattle.cryptomator_conf.specs.Fault.{of_field};

    ghost from_gives = { λ field fault. fault ≡ of_field field };

    fn from(fault: FieldFault) -> CmConfFault {
        match fault {
            FieldFault::Wrong(name) => CmConfFault::Field(name),
            FieldFault::NoMemory => CmConfFault::NoMemory,
        }
    }
}

impl fmt::Display for CmConfFault {
    ghost output = { λ fault. Some (fault_text fault) };

    fn fmt<W: fmt::Write>(&self, f: &mut fmt::Formatter<W>) -> fmt::Result {
        match self {
            CmConfFault::NotJson => write!(f, "not JSON"),
            CmConfFault::NotJwt => write!(f, "not JWT"),
            CmConfFault::Field(name) => write!(f, "field {name}"),
            CmConfFault::Alg(alg) => write!(f, "alg {alg}"),
            CmConfFault::Kid(kid) => write!(f, "kid {kid}"),
            CmConfFault::Format(format) => write!(f, "format {format}"),
            CmConfFault::Combo(combo) => write!(f, "combo {combo}"),
            CmConfFault::Threshold(threshold) => write!(f, "threshold {threshold}"),
            CmConfFault::Cost => write!(f, "cost"),
            CmConfFault::NoMemory => write!(f, "out of memory"),
        }
    }
}

/// Why no keys are unlocked.
#[derive(Clone, Copy, PartialEq, Eq)]
pub enum UnlockFault {
    /// The passphrase is another one.
    WrongPass,
    /// Memory was refused.
    NoMemory,
}

impl From<AllocError> for UnlockFault {
    ghost use Rattle.std.specs.Prelude.{◌≡◌};
    ghost use Rattle.cryptomator_conf.specs.declared.fault.UnlockFault.TheVariants.{NoMemory};

    ghost from_gives = { λ _ fault. fault ≡ NoMemory };

    fn from(_error: AllocError) -> UnlockFault {
        UnlockFault::NoMemory
    }
}

/// The signature of `vault.cryptomator` isn't the keys'.
#[derive(Clone, Copy, PartialEq, Eq)]
pub struct BadSignature;

impl fmt::Display for BadSignature {
    ghost output = { λ _. Some (codes "signature") };

    fn fmt<W: fmt::Write>(&self, f: &mut fmt::Formatter<W>) -> fmt::Result {
        f.write_str("signature")
    }
}
