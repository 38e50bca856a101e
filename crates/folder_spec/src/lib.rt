//! Folders that can fail and crash: what a state is, what each call changes, what a crash leaves.
//!
//! The definitions stand in `specs/`, one subject a file, and their laws in `proofs/`.
//! A crash keeps each directory change only together with all earlier ones, and of the bytes of a
//! file those that were synced, with any others after them.
#![tactic(auto)]

pub mod laws;

use std::alloc::AllocError;

/// What stands at a path.
#[derive(Debug, Clone, Copy, PartialEq, Eq, Drop)]
pub enum Kind {
    Missing,
    Dir,
    File,
    Other,
}

/// Why a call of a folder did not do its work.
#[derive(Debug, Clone, Copy, PartialEq, Eq, Drop)]
pub enum FolderFault {
    /// The folder could not do it, though it was allowed. Its count of faults has risen.
    Failed,
    /// The call's condition does not hold.
    Refused,
    /// There was no memory for it, and nothing has changed.
    NoMemory,
}

impl From<AllocError> for FolderFault {
    ghost use Rattle.std.specs.Prelude.{◌≡◌};
    ghost use Rattle.folder_spec.specs.declared.FolderFault.TheVariants.{NoMemory};

    ghost from_gives = { λ _ result. result ≡ NoMemory };

    fn from(_fault: AllocError) -> FolderFault {
        FolderFault::NoMemory
    }
}

/// What a name table has at a path: a file by the number of its node.
#[derive(Clone, Copy, PartialEq, Eq, Drop)]
pub enum Spot {
    Nothing,
    Directory,
    FileNode(usize),
    Odd,
}
