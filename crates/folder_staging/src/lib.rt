//! Files written and put in their places so that a crash at any moment leaves the folder as it was or
//! with the whole file.
//!
//! A file is staged at a path of its own: made, written and synced. It is published by a rename onto its
//! place, where nothing or a file stands, and lasts once the folder is settled. What a stop left behind is
//! removed with all below it, the deepest first.
#![tactic(auto)]

pub mod folders;
pub mod laws;
pub mod publishing;
pub mod removal;
pub mod staging;

pub use folders::{begin_folder, place_folder, publish_folder};
pub use publishing::replace_file;
pub use removal::{RemovalFault, remove_all, remove_below};
pub use staging::{add_piece, begin_file, clear, finish_file, is_file_place, stage_file};
