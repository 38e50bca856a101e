//! Folders as a trait, whose contract says what each call changes, how it can end and what a crash
//! leaves, and a folder in memory that can be made to fail.
#![tactic(auto)]

pub mod entry;
pub mod folder;
pub mod mem;
mod order;
pub mod path;

pub use entry::Entry;
pub use folder::Folder;
pub use folder_spec::{FolderFault, Kind, Spot};
pub use mem::{MemFolder, Pick};
pub use path::{FPath, FPathFault};
