//! The names under which the items of a vault are stored.
#![tactic(auto)]

pub mod base32;
pub mod cryptomator;
pub mod entry;
pub mod forms;
pub mod gocryptfs;
pub mod laws;
mod padding;

pub use base32::base32_of;
pub use cryptomator::{CmNameKeys, cm_entry, cm_folder, cm_long, cm_read, cm_store, new_dir_id};
pub use entry::{NameFault, Stored};
pub use forms::{cm_is_long, go_is_long};
pub use gocryptfs::{GoNameKeys, go_entry, go_long, go_read, go_store};
