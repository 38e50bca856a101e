//! The journal of a migration: a small file in the work folder that says what is moved, and how far
//! the migration has come.
//!
//! Its text is seven lines, each ended by one newline byte:
//!
//! ```text
//! vaultmove 2
//! phase building
//! names same
//! from PATH
//! to PATH
//! items N
//! plan HEX
//! ```
//!
//! An older form of six lines, with `vaultmove 1` in the first one and none for the names, is read too.
#![tactic(auto)]

pub mod journal;
pub mod laws;
mod line;
mod parse;
pub mod reading;
mod text;
pub mod writing;

pub use journal::{Journal, JournalFault, Phase};
pub use reading::read;
pub use writing::write;
