//! The commands that read: `ls`, `cat` and `decrypt-file`.
//!
//! Each is handed the folder, the random source, the input and the output, whichever of them it uses, and ensures one record of a call:
//! what it does, that its status is of its row, and whom it blames.
#![tactic(auto)]

mod content;
mod decrypting;
mod faults;
mod listing;

pub use content::cat;
pub use decrypting::{DecryptEnd, decrypt_file};
pub use listing::ls;
