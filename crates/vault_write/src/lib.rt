//! Making vaults, directories and files so that a crash at any moment leaves the old tree or the new one.
//!
//! What is written is staged in a work folder, made to last, and renamed onto its place. What a place needs beside it comes first: the
//! file of a long name, and the content folder of a new directory.
//!
//! A content may be that of another vault's file, given piece by piece (`vault_content`).
#![tactic(auto)]

pub mod directory;
mod drawing;
pub mod file;
mod held;
pub mod init;
pub mod kept;
pub mod laws;
mod slot;
mod stage;
pub mod vault_content;

pub use content_writing::{Content, PutFault, SourceContent};
pub use directory::{place_dir, place_dir_keeping};
pub use file::{place_file, place_file_keeping, put};
pub use init::{init_cm, init_cm_combo, init_go};
pub use kept::{Kept, KeptDir};
pub use vault_content::VaultContent;
