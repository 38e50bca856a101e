//! Why a row can't be played.
use folder_model::FolderFault;
use std::alloc::AllocError;

#[derive(Clone, Copy, Drop)]
pub enum Stop {
    /// It can't be read.
    Line,
    /// The folder refuses or fails a change that a line asks for.
    Folder,
    /// A call that is to be done ends with a fault.
    Undone,
    /// A run makes fewer calls than those that are to fail.
    Unmade,
    /// Random bytes take the place of those that no run might draw.
    Unhanded,
    /// A vault that a line names doesn't open, or nothing is at a place in it.
    Vault,
    NoMemory,
}

impl Stop {
    /// What is said of it.
    pub fn text(self) -> &'static str {
        match self {
            Stop::Line => "a line that can't be read",
            Stop::Folder => "a change that the folder doesn't make",
            Stop::Undone => "a call that isn't done",
            Stop::Unmade => "fewer calls than those that are to fail",
            Stop::Unhanded => "random bytes in place of those that no run might draw",
            Stop::Vault => "no such vault, or nothing at that place in it",
            Stop::NoMemory => "no memory",
        }
    }
}

impl From<AllocError> for Stop {
    fn from(_fault: AllocError) -> Stop {
        Stop::NoMemory
    }
}

impl From<FolderFault> for Stop {
    fn from(fault: FolderFault) -> Stop {
        match fault {
            FolderFault::NoMemory => Stop::NoMemory,
            _ => Stop::Folder,
        }
    }
}
