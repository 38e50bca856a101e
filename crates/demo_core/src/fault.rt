//! Why the demonstration doesn't make a vault or its items.
use content_writing::PutFault;
use std::alloc::AllocError;
use vault_read::LoadFault;
use work_folder::WorkFault;

/// Why the demonstration doesn't make a vault or its items.
#[derive(Drop)]
pub enum MakeFault {
    /// The work folder isn't ready.
    Work(WorkFault),
    /// The new vault isn't opened.
    Load(LoadFault),
    /// The vault or an item isn't made.
    Put(PutFault),
    NoMemory,
}

impl From<AllocError> for MakeFault {
    ghost use Rattle.std.specs.Prelude.{◌≡◌};
    ghost use Rattle.demo_core.specs.declared.fault.MakeFault.TheVariants.{NoMemory};

    ghost from_gives = { λ _ fault. fault ≡ NoMemory };

    fn from(_fault: AllocError) -> MakeFault {
        MakeFault::NoMemory
    }
}

impl From<WorkFault> for MakeFault {
    ghost use Rattle.std.specs.Prelude.{◌≡◌};
    ghost use Rattle.demo_core.specs.declared.fault.MakeFault.TheVariants.{Work};

    ghost from_gives = { λ fault result. result ≡ Work fault };

    fn from(fault: WorkFault) -> MakeFault {
        MakeFault::Work(fault)
    }
}

impl From<LoadFault> for MakeFault {
    ghost use Rattle.std.specs.Prelude.{◌≡◌};
    ghost use Rattle.demo_core.specs.declared.fault.MakeFault.TheVariants.{Load};

    ghost from_gives = { λ fault result. result ≡ Load fault };

    fn from(fault: LoadFault) -> MakeFault {
        MakeFault::Load(fault)
    }
}

impl From<PutFault> for MakeFault {
    ghost use Rattle.std.specs.Prelude.{◌≡◌};
    ghost use Rattle.demo_core.specs.declared.fault.MakeFault.TheVariants.{Put};

    ghost from_gives = { λ fault result. result ≡ Put fault };

    fn from(fault: PutFault) -> MakeFault {
        MakeFault::Put(fault)
    }
}
