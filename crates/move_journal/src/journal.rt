//! The journal of a migration.
use folder_model::FPath;
use folder_spec::FolderFault;
use plain_tree::NameMap;
use std::alloc::AllocError;

/// How far a migration has come.
#[derive(Clone, Copy, PartialEq, Eq, Drop)]
pub enum Phase {
    /// Items are still being placed in the target.
    Building,
    /// All items are in the target.
    Done,
}

/// How a journal's text is laid out.
#[derive(Clone, Copy, PartialEq, Eq, Drop)]
pub enum Form {
    /// In six lines, with none for the rule for names. It is read, as that of a migration whose names stay as they are, and never written.
    First,
    /// In seven lines.
    Second,
}

/// What a migration moves, and how far it has come.
#[derive(Drop)]
pub struct Journal {
    pub phase: Phase,
    /// What becomes of the names of its items.
    pub names: NameMap,
    pub source: FPath,
    pub target: FPath,
    /// The number of items to move, at most 200,000.
    pub items: u64,
    /// The digest of the plan.
    pub plan: [u8; 32],
}

/// Why no journal was read.
#[derive(Clone, Copy, PartialEq, Eq, Drop)]
pub enum JournalFault {
    /// No file is at the journal's place.
    NoJournal,
    /// The number of the first line that fits no journal. The line after the last one, which is line 7 of the first form and line 8 of
    /// the second, stands for bytes there.
    BadJournal(u8),
    /// The file has more than 65,536 bytes.
    TooLarge,
    /// The folder failed.
    Failed,
    NoMemory,
}

impl From<AllocError> for JournalFault {
    ghost use Rattle.std.specs.Prelude.{◌≡◌};
    ghost use Rattle.move_journal.specs.declared.journal.JournalFault.TheVariants.{NoMemory};

    ghost from_gives = { λ _ result. result ≡ NoMemory };

    fn from(_fault: AllocError) -> JournalFault {
        JournalFault::NoMemory
    }
}

impl From<FolderFault> for JournalFault {
    ghost use Rattle.std.specs.Prelude.{◌≡◌};
    ghost use Rattle.move_journal.specs.Reading.{fault_of};

    ghost from_gives = { λ fault result. result ≡ fault_of fault };

    fn from(fault: FolderFault) -> JournalFault {
        match fault {
            FolderFault::Failed => JournalFault::Failed,
            FolderFault::Refused => JournalFault::Failed,
            FolderFault::NoMemory => JournalFault::NoMemory,
        }
    }
}
