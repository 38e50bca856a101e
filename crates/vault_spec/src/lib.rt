//! What a vault is, what opens in it, and which findings it has, for both formats.
//!
//! The definitions stand in `specs/`, one subject a file. They speak of what a reader sees at and below the vault's root.
#![tactic(auto)]

pub mod laws;

/// What a check finds in a vault, by the numbers from 1 to 14. The last is a note and no fault.
#[derive(Clone, Copy, PartialEq, Eq, Drop)]
pub enum Finding {
    BadStoredName,
    NoDirKey,
    LongNameLost,
    OrphanLongName,
    DirIdTwice,
    NoFolder,
    OrphanFolder,
    SymlinkFound,
    WrongKind,
    ExtraEntry,
    TwoKinds,
    HeaderDamaged,
    ChunkDamaged,
    EmptyOrphan,
}

/// What keeps a directory that stands from being entered.
#[derive(Clone, Copy, PartialEq, Eq, Drop)]
pub enum Lack {
    NoDirKey,
    NoFolder,
}
